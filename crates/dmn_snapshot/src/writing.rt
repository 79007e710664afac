//! The text of a slot.

ghost use Rattle.std.specs.Prelude.{◌≡◌, ◌+◌, ◌<◌, ◌^◌, length, IfOk};
ghost use Rattle.dmn_held.specs.Defs.{IsHeld, held_text};
ghost use Rattle.dmn_snapshot.specs.Slot.{IsStored, KeepsBounds, slot_text};

use dmn_bytes::{Bytes, Draft, Memory, Text};
use dmn_held::{Counter, SnapshotData, feed_snapshot};
use std::alloc::Global;

fn held_size(held: &SnapshotData) -> Result<u64, Memory>
    ensures { IfOk result (λ n. n ≡ length (held_text held.now)) }
{
    let mut counter = Counter::new();
    feed_snapshot(held, &mut counter)?;
    counter.total()
}

// How long what follows the length is: three numbers, and what is held.
fn size_of(held: &SnapshotData) -> Result<u64, Memory>
    ensures size { IfOk result (λ n. n ≡ length (held_text held.now) + 24) }
    ensures fits { IfOk result (λ n. length (held_text held.now) + 24 < 2 ^ 64) }
{
    let size = held_size(held)?;
    match size.checked_add(24) {
        Some(all) => Ok(all),
        None => Err(Memory),
    }
}

/// All of a slot behind its gate: the length of what follows, a sequence number, the place of the journal's closed gate, the
/// number of records before it, and what is held after these. It takes memory for the text alone.
#[tactic(auto, using(dmn_bytes::proofs::Send::sent_then))]
pub fn text(
    alloc: Global,
    sequence: u64,
    position: u64,
    records: u64,
    held: &SnapshotData,
) -> Result<Bytes, Memory>
    ensures text { IfOk result (λ text. text ≡ slot_text (record { sequence = sequence; position = position; records = records; held = held.now })) }
    // What is held in its form, with numbers that keep their bounds, is a slot's.
    ensures stored { IfOk result (λ text. IsHeld held.now → KeepsBounds sequence position records → IsStored (record { sequence = sequence; position = position; records = records; held = held.now })) }
{
    let size = size_of(held)?;
    let mut out = Bytes::new(alloc);
    let mut draft = Draft::on(&mut out);
    size.feed(&mut draft);
    sequence.feed(&mut draft);
    position.feed(&mut draft);
    records.feed(&mut draft);
    feed_snapshot(held, &mut draft)?;
    draft.finish(&mut out)?;
    Ok(out)
}
