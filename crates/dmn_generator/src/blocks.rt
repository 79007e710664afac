//! The start record, and the block of a height.

ghost use Rattle.std.specs.Prelude.{◌≡◌, ◌≤◌, ◌^◌, [], ◌∷◌, ◌++◌, IfOk, OnOk, length, map};
ghost use Rattle.dmn_block.specs.Body.{connect_body, header};
ghost use Rattle.dmn_bytes.specs.Sending.{Appends};
ghost use Rattle.dmn_merkle.specs.Defs.{merkle_root};
ghost use Rattle.dmn_payloads.specs.Payloads.{cb};
ghost use Rattle.dmn_rows.specs.Defs.{start_text};
ghost use Rattle.dmn_tx.specs.Defs.{id_of};
ghost use Rattle.dmn_generator.specs.Blocks.{block_of, body_of, coinbase, fresh, start, txs_of};
ghost use Rattle.dmn_generator.specs.Commitments.{commitment_tx, due_of, verdicts_from};
ghost use Rattle.dmn_generator.specs.Headers.{header_of};
ghost use Rattle.dmn_generator.specs.Masternodes.{masternode};

use crate::commitments::{commitment_tx, is_formed, verdict_on};
use crate::masternodes::{masternode, one_input, one_output};
use dmn_bytes::{Bytes, Draft, Hash256, Items, Memory, OutPoint, Sink, Text};
use dmn_merkle::root;
use dmn_payloads::{CbTx, write_cb};
use dmn_quorums::Forming;
use dmn_rows::{StartRecord, Verdict, write_start};
use dmn_tx::{COINBASE_TX, SPECIAL_VERSION, Tx, txid};
use std::alloc::Global;

/// The height of the first block.
pub const FIRST: u32 = 576;

/// As many masternodes as one block registers.
pub const PER_BLOCK: u32 = 250;

/// Where a block stands.
#[derive(Clone, Copy, Debug, PartialEq, Eq)]
pub struct Place {
    pub height: u32,
    /// The block's hash.
    pub hash: Hash256,
    /// The hash of the block before it.
    pub prev: Hash256,
}

/// The text of the start record.
#[tactic(auto, using(crate::proofs::Starting::start_is))]
pub fn start_text(alloc: Global) -> Result<Bytes, Memory>
    ensures { IfOk result (λ text. text ≡ start_text start) }
{
    let start = StartRecord {
        profile: 2,
        first: FIRST,
        hash: Hash256([0x75; 32]),
        outputs: Items::from_vec(Vec::new(alloc)),
    };
    let mut text = Bytes::new(alloc);
    write_start(&start, &mut text)?;
    Ok(text)
}

// The coinbase's payload.
fn payload(alloc: Global, height: u32, root: &Hash256) -> Result<Bytes, Memory>
    ensures { IfOk result (λ text. text ≡ cb.text (record { version = 1; height = height; rows = root.now })) }
{
    let value = CbTx {
        version: 1,
        height,
        rows: *root,
    };
    let mut text = Bytes::new(alloc);
    write_cb(&value, &mut text)?;
    Ok(text)
}

fn coinbase(alloc: Global, height: u32, root: &Hash256) -> Result<Tx, Memory>
    ensures { IfOk result (λ tx. tx ≡ coinbase height root.now) }
{
    let point = OutPoint {
        hash: Hash256([0; 32]),
        index: 0xffff_ffff,
    };
    let script = Bytes::from_slice(alloc, &height.to_le_bytes())?;
    Ok(Tx {
        version: SPECIAL_VERSION,
        kind: COINBASE_TX,
        inputs: one_input(alloc, point, script)?,
        outputs: one_output(alloc, 0, Bytes::new(alloc))?,
        lock: 0,
        payload: payload(alloc, height, root)?,
    })
}

fn put_tx(txs: &mut Vec<Tx>, tx: Tx) -> Result<(), Memory>
    ensures { OnOk result (txs.new.items ≡ txs.old.items ++ tx ∷ []) }
{
    txs.push(tx).map_err(|_| Memory)
}

// Adds the verdict on the transaction that is to stand next, where there is one.
fn put_verdict(
    height: u32,
    forming: &Forming,
    place: usize,
    verdicts: &mut Vec<Verdict>,
) -> Result<(), Memory>
    ensures { OnOk result (verdicts.new.items ≡ verdicts.old.items ++ verdicts_from place height (forming.now ∷ [])) }
{
    let Ok(place) = u32::try_from(place) else {
        return Err(Memory);
    };
    if is_formed(height, forming) {
        verdicts
            .push(verdict_on(place, forming))
            .map_err(|_| Memory)?;
    }
    Ok(())
}

// Adds the commitment of a type, where it is due, and the verdict on it.
fn put_forming(
    alloc: Global,
    height: u32,
    forming: &Forming,
    txs: &mut Vec<Tx>,
    verdicts: &mut Vec<Verdict>,
) -> Result<(), Memory>
    ensures txs { OnOk result (txs.new.items ≡ txs.old.items ++ map (commitment_tx height) (due_of (forming.now ∷ []))) }
    ensures verdicts { OnOk result (verdicts.new.items ≡ verdicts.old.items ++ verdicts_from (length txs.old.items) height (due_of (forming.now ∷ []))) }
{
    if !forming.is_due() {
        return Ok(());
    }
    put_verdict(height, forming, txs.len(), verdicts)?;
    put_tx(txs, commitment_tx(alloc, height, forming)?)
}

// Adds those of all types.
fn put_commitments(
    alloc: Global,
    height: u32,
    formings: &[Forming],
    txs: &mut Vec<Tx>,
    verdicts: &mut Vec<Verdict>,
) -> Result<(), Memory>
    ensures txs { OnOk result (txs.new.items ≡ txs.old.items ++ map (commitment_tx height) (due_of formings.now)) }
    ensures verdicts { OnOk result (verdicts.new.items ≡ verdicts.old.items ++ verdicts_from (length txs.old.items) height (due_of formings.now)) }
{
    for forming in formings {
        put_forming(alloc, height, forming, txs, verdicts)?;
    }
    Ok(())
}

// Adds the registrations of a height, of so many masternodes in all.
fn put_masternodes(alloc: Global, count: u32, height: u32, txs: &mut Vec<Tx>) -> Result<(), Memory>
    requires first { FIRST ≤ height }
    requires last { height ≤ 2 ^ 24 }
    ensures { OnOk result (txs.new.items ≡ txs.old.items ++ map masternode (fresh count height)) }
{
    let from = PER_BLOCK * (height - FIRST);
    let to = count.min(from + PER_BLOCK);
    for i in from..to {
        put_tx(txs, masternode(alloc, i)?)?;
    }
    Ok(())
}

// The transactions of a block, and the verdicts.
fn parts_of(
    alloc: Global,
    count: u32,
    height: u32,
    formings: &[Forming],
    root: &Hash256,
) -> Result<(Vec<Tx>, Vec<Verdict>), Memory>
    requires first { FIRST ≤ height }
    requires last { height ≤ 2 ^ 24 }
    ensures txs { IfOk result (λ parts. parts.0.items ≡ txs_of count height formings.now root.now) }
    ensures verdicts { IfOk result (λ parts. parts.1.items ≡ verdicts_from 1 height (due_of formings.now)) }
{
    let mut txs = Vec::new(alloc);
    let mut verdicts = Vec::new(alloc);
    put_tx(&mut txs, coinbase(alloc, height, root)?)?;
    put_commitments(alloc, height, formings, &mut txs, &mut verdicts)?;
    put_masternodes(alloc, count, height, &mut txs)?;
    Ok((txs, verdicts))
}

// The Merkle root of the transactions' ids.
fn merkle_of(alloc: Global, txs: &[Tx]) -> Result<Hash256, Memory>
    ensures { IfOk result (λ hash. hash ≡ merkle_root (map id_of txs.now)) }
{
    let mut ids = Vec::new(alloc);
    for tx in txs {
        ids.push(txid(tx)).map_err(|_| Memory)?;
    }
    root(alloc, &ids)
}

// The header of a block.
#[derive(Clone, Copy, Debug, PartialEq, Eq)]
struct Header {
    version: u32,
    prev: Hash256,
    merkle: Hash256,
    time: u32,
    bits: u32,
    nonce: u32,
}

#[tactic(auto, using(dmn_bytes::proofs::Send::sent_then), unfolding(dmn_block::specs::Body::header))]
fn feed_header<S: Sink>(head: &Header, sink: &mut S)
    ensures { Appends S.holds S.kept sink.old sink.new (header.text (header_of head.now)) }
{
    head.version.feed(sink);
    head.prev.feed(sink);
    head.merkle.feed(sink);
    head.time.feed(sink);
    head.bits.feed(sink);
    head.nonce.feed(sink);
}

#[tactic(auto, using(dmn_bytes::proofs::Send::sent_then), unfolding(dmn_block::specs::Body::connect_body))]
fn feed_block<S: Sink>(
    hash: &Hash256,
    head: &Header,
    txs: &Items<Tx>,
    verdicts: &Items<Verdict>,
    sink: &mut S,
)
    ensures { Appends S.holds S.kept sink.old sink.new (connect_body.text (record { hash = hash.now; header = header_of head.now; txs = txs.now; verdicts = verdicts.now })) }
{
    hash.feed(sink);
    feed_header(head, sink);
    txs.feed(sink);
    verdicts.feed(sink);
}

/// The body of the request that connects the block at a place, of so many masternodes in all, by what is known of each type's
/// quorum there, and with this root of the list.
#[tactic(auto, unfolding(crate::specs::Blocks::body_of))]
pub fn block_body(
    alloc: Global,
    count: u32,
    place: &Place,
    formings: &[Forming],
    root: &Hash256,
) -> Result<Bytes, Memory>
    requires first { FIRST ≤ place.now.height }
    requires last { place.now.height ≤ 2 ^ 24 }
    ensures { IfOk result (λ body. body ≡ body_of count place.now formings.now root.now) }
{
    let (txs, verdicts) = parts_of(alloc, count, place.height, formings, root)?;
    let head = Header {
        version: 1,
        prev: place.prev,
        merkle: merkle_of(alloc, &txs)?,
        time: place.height,
        bits: 0,
        nonce: 0,
    };
    let mut body = Bytes::new(alloc);
    let mut draft = Draft::on(&mut body);
    feed_block(
        &place.hash,
        &head,
        &Items::from_vec(txs),
        &Items::from_vec(verdicts),
        &mut draft,
    );
    draft.finish(&mut body)?;
    Ok(body)
}
