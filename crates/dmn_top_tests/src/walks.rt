//! The changes between lists that a desk keeps.

use dmn_bytes::Bytes;
use dmn_desk::{Desk, Kind, LONGEST_BODY, answer_text, read_request};
use dmn_outside::{Image, MemoryStation};
use dmn_registry::Registry;
use std::alloc::Global;
use std::test::*;

// The journal of a registry without commands: the profile small, first height 2, a hash of ones before it.
const JOURNAL: &str =
    "01444d4e4a3030312b0000000100010200000001010101010101010101010101010101010101010101010101\
    010101010101010000000000";

// By another program: block 2 with one registration, and the answer to Diff from the empty list to it.
const BLOCK: &str =
    "0202020202020202020202020202020202020202020202020202020202020202010000000101010101010101\
    010101010101010101010101010101010101010101010101010596c6a1d91832f754ae16d7b088b8d0fff497\
    1cfff496bb2687831c9e4d270000000000000000000000000203000500010000000000000000000000000000\
    000000000000000000000000000000000000ffffffff00ffffffff000000000026010002000000ef765318dc\
    b9c47cf5a70ad91ef3129a1e82187a6ac82ecc9d8a3114ce75c4d30300010001010101010101010101010101\
    01010101010101010101010101010101010101010000000000ffffffff0100e87648170000001976a914e1e1\
    e1e1e1e1e1e1e1e1e1e1e1e1e1e1e1e1e1e188ac00000000d101000000000000000000000000000000000000\
    000000000000000000000000000000000000000000000000000000000000000000ffff0a0000014e1f010101\
    0101010101010101010101010101010101414141414141414141414141414141414141414141414141414141\
    4141414141414141414141414141414141414141418181818181818181818181818181818181818181000019\
    76a914c1c1c1c1c1c1c1c1c1c1c1c1c1c1c1c1c1c1c1c188ac2d6c6135bed260db00d1b9ad203fbd17ee6c8b\
    009850fc407bfec29fc45e3d4d0000";

const DIFF: &str =
    "007a010000000000000000000000000000000000000000000000000000000000000000000002020202020202\
    020202020202020202020202020202020202020202020202020200000002b9cb1b7cdd6702f83efd4dabae7d\
    747f44e31f6e7f00654e11873c334fe91903f32b9a67373e1dd0073e51108f8fa1068c79cd035ea2785de7b0\
    6f7156f5b5630103030005000100000000000000000000000000000000000000000000000000000000000000\
    00ffffffff00ffffffff000000000026010002000000ef765318dcb9c47cf5a70ad91ef3129a1e82187a6ac8\
    2ecc9d8a3114ce75c4d30001f32b9a67373e1dd0073e51108f8fa1068c79cd035ea2785de7b06f7156f5b563\
    000000000000000000000000000000000000000000000000000000000000000000000000000000000000ffff\
    0a0000014e1f4141414141414141414141414141414141414141414141414141414141414141414141414141\
    41414141414141414141818181818181818181818181818181818181818101";

const CONNECTED: &str =
    "0024000000020000000202020202020202020202020202020202020202020202020202020202020202";

const TAKEN_BACK: &str =
    "0024000000010000000101010101010101010101010101010101010101010101010101010101010101";

const HASH: &str = "0202020202020202020202020202020202020202020202020202020202020202";

const HASHES: &str =
    "0000000000000000000000000000000000000000000000000000000000000000020202020202020202020202\
    0202020202020202020202020202020202020202";

/// A registry in memory, and the desk before it.
#[derive(Drop)]
struct Bench {
    station: MemoryStation,
    registry: Registry,
    desk: Desk,
}

fn bytes_of(alloc: Global, digits: &str) -> Option<Bytes> {
    let bytes = hex::decode(alloc, digits).ok()?;
    Bytes::from_slice(alloc, bytes.as_slice()).ok()
}

fn station(alloc: Global) -> Option<MemoryStation> {
    let mut image = Image::new(alloc);
    image.files[0] = bytes_of(alloc, JOURNAL)?;
    Some(MemoryStation::new(alloc, image, Vec::new(alloc), Vec::new(alloc), None))
}

// A registry that was opened, and a new desk.
fn opened(alloc: Global) -> Option<Bench> {
    let mut station = station(alloc)?;
    let registry = Registry::open(alloc, &mut station).ok()?;
    let desk = Desk::new(alloc).ok()?;
    Some(Bench {
        station,
        registry,
        desk,
    })
}

// The answer's frame.
fn ask(alloc: Global, bench: &mut Bench, kind: Kind, body: &[u8]) -> Option<Bytes> {
    if body.len() > LONGEST_BODY as usize || bench.registry.spent() {
        return None;
    }
    let request = read_request(alloc, kind, body).ok()?;
    let answer = bench
        .desk
        .answer(alloc, &mut bench.registry, &mut bench.station, &request)
        .ok()?;
    let mut frame = Bytes::new(alloc);
    answer_text(&answer, &mut frame).ok()?;
    Some(frame)
}

// A request, its answer and how many walks the desk has made then.
fn step(
    alloc: Global,
    bench: &mut Bench,
    kind: Kind,
    body: &str,
    answer: &str,
    walks: u64,
) -> Option<bool> {
    let body = bytes_of(alloc, body)?;
    let wanted = bytes_of(alloc, answer)?;
    let frame = ask(alloc, bench, kind, body.as_slice())?;
    Some(frame.as_slice() == wanted.as_slice() && bench.desk.walks() == walks)
}

// A diff that was asked before is not made again, until the block is taken back.
#[test]
fn a_diff_is_asked_again(rt: HostRuntime) -> Result<(), Fail> {
    let alloc = rt.alloc();
    let mut bench = opened(alloc).ok_or("a registry")?;
    for (kind, body, answer, walks) in [
        (Kind::Connect, BLOCK, CONNECTED, 0),
        (Kind::Diff, HASHES, DIFF, 1),
        (Kind::Diff, HASHES, DIFF, 1),
        (Kind::Disconnect, HASH, TAKEN_BACK, 1),
        (Kind::Connect, BLOCK, CONNECTED, 1),
        (Kind::Diff, HASHES, DIFF, 2),
    ] {
        let is_so = step(alloc, &mut bench, kind, body, answer, walks);
        assert_eq!(rt; is_so, Some(true));
    }
    Ok(())
}
