//! What a read gives behind some calls of a disk in memory, and which image a crash leaves by each pick.

use dmn_bytes::Bytes;
use dmn_outside::{Disk, Image, MemoryStation, Pick};
use std::alloc::Global;
use std::test::Fail;

/// A call on the journal.
#[derive(Clone, Copy)]
enum Step {
    Write(u8, &'static str),
    Cut(u8),
    Sync,
}

/// What is done to a journal that holds `abcdef`, which of these calls fail, what a read gives behind them, and what a
/// crash leaves: with what isn't synced lost, there, and there with each written range full of question marks.
struct Case {
    steps: &'static [Step],
    fails: &'static [u64],
    reads: &'static str,
    images: [&'static str; 3],
}

const CASES: [Case; 10] = [
    // A write at the end, within, and past the end.
    Case {
        steps: &[Step::Write(6, "gh")],
        fails: &[],
        reads: "abcdefgh",
        images: ["abcdef", "abcdefgh", "abcdef??"],
    },
    Case {
        steps: &[Step::Write(2, "XY")],
        fails: &[],
        reads: "abXYef",
        images: ["abcdef", "abXYef", "ab??ef"],
    },
    Case {
        steps: &[Step::Write(8, "Z")],
        fails: &[],
        reads: "abcdef\0\0Z",
        images: ["abcdef", "abcdef\0\0Z", "abcdef\0\0?"],
    },
    // A cut, and one to more than there is.
    Case {
        steps: &[Step::Cut(2)],
        fails: &[],
        reads: "ab",
        images: ["abcdef", "ab", "ab"],
    },
    Case {
        steps: &[Step::Cut(9)],
        fails: &[],
        reads: "abcdef",
        images: ["abcdef", "abcdef", "abcdef"],
    },
    // A write, a cut and a sync that fail.
    Case {
        steps: &[Step::Write(4, "XYZ")],
        fails: &[0],
        reads: "abcdef",
        images: ["abcdef", "abcdXYZ", "abcd???"],
    },
    Case {
        steps: &[Step::Cut(1)],
        fails: &[0],
        reads: "abcdef",
        images: ["abcdef", "a", "a"],
    },
    Case {
        steps: &[Step::Write(0, "X"), Step::Sync],
        fails: &[1],
        reads: "Xbcdef",
        images: ["abcdef", "Xbcdef", "?bcdef"],
    },
    // A sync behind two writes, and behind a write that failed, which it drops.
    Case {
        steps: &[Step::Write(0, "X"), Step::Write(5, "YZ"), Step::Sync],
        fails: &[],
        reads: "XbcdeYZ",
        images: ["XbcdeYZ", "XbcdeYZ", "XbcdeYZ"],
    },
    Case {
        steps: &[Step::Write(0, "X"), Step::Sync],
        fails: &[0],
        reads: "abcdef",
        images: ["abcdef", "abcdef", "abcdef"],
    },
];

const PICKS: [Pick; 3] = [Pick::Before, Pick::After, Pick::Fill(b'?')];

fn image(alloc: Global, journal: &str) -> Result<Image, Fail> {
    Ok(Image {
        files: [
            Bytes::from_slice(alloc, journal.as_bytes())?,
            Bytes::from_slice(alloc, b"one")?,
            Bytes::from_slice(alloc, b"two")?,
        ],
    })
}

fn is_done(disk: &mut MemoryStation, step: Step) -> bool {
    match step {
        Step::Write(at, bytes) => disk.write_at(0, u64::from(at), bytes.as_bytes()).is_ok(),
        Step::Cut(len) => disk.cut(0, u64::from(len)).is_ok(),
        Step::Sync => disk.sync(0).is_ok(),
    }
}

// The first of the picks of which the journal isn't as wanted, or another file changed.
fn wrong_pick(
    alloc: Global,
    disk: &MemoryStation,
    wanted: &[&'static str; 3],
) -> Result<Option<usize>, Fail> {
    for (number, pick) in PICKS.iter().enumerate() {
        let image = disk.image(alloc, *pick)?;
        let same = image.files[0].as_slice() == wanted[number].as_bytes();
        let others = image.files[1].as_slice() == b"one".as_slice()
            && image.files[2].as_slice() == b"two".as_slice();
        if !same || !others {
            return Ok(Some(number));
        }
    }
    Ok(None)
}

#[test]
fn each_pick_is_an_image(rt: HostRuntime) -> Result<(), Fail> {
    let alloc = rt.alloc();
    for (number, case) in CASES.iter().enumerate() {
        let fails = case.fails.to_vec(alloc)?;
        let begun = image(alloc, "abcdef")?;
        let mut disk = MemoryStation::new(alloc, begun, Vec::new(alloc), fails, None);
        for (call, step) in case.steps.iter().enumerate() {
            let fails = case.fails.contains(&(call as u64));
            assert_eq!(rt;
                is_done(&mut disk, *step),
                !fails,
                "call {call} of case {number}"
            );
        }
        let mut out = [0; 16];
        let n = disk.read_at(0, 0, &mut out)?;
        assert_eq!(rt;
            &out[..n],
            case.reads.as_bytes(),
            "what case {number} reads"
        );
        assert_eq!(rt;
            wrong_pick(alloc, &disk, &case.images)?,
            None,
            "an image of case {number}"
        );
    }
    Ok(())
}
