//! What a slot holds, and how it is read.

ghost use Rattle.std.specs.Prelude.{◌≡◌, true, IfOk, IfSome};
ghost use Rattle.dmn_bytes.specs.Format.{filled};
ghost use Rattle.dmn_bytes.specs.Reading.{Gives};
ghost use Rattle.dmn_snapshot.specs.Slot.{IsBounded, content, keeps_bounds, slot, slot_behind};

use dmn_bytes::{Bytes, Departure, Memory, ReadError, Reader};
use dmn_held::{SnapshotData, read_to_end};
use std::alloc::Global;

/// What is held of a branch, and where in the journal that stands.
#[derive(Debug, Drop)]
pub struct Stored {
    /// From 1 on; each snapshot has the number behind that of the one before.
    pub sequence: u64,
    /// The place of the journal's closed gate at that time.
    pub position: u64,
    /// The number of records before that place.
    pub records: u64,
    pub held: SnapshotData,
}

/// A valid slot.
#[derive(Debug, Drop)]
pub struct Slot {
    /// The slot's number, 1 or 2, which is that of its file.
    pub number: u8,
    pub stored: Stored,
}

fn keeps_bounds(stored: &Stored) -> bool
    ensures is { result ≡ keeps_bounds stored.now }
    ensures bounds { result ≡ true → IsBounded stored.now }
{
    1 <= stored.sequence
        && stored.sequence - 1 <= stored.records
        && stored.records <= stored.position
        && stored.position < 1 << 62
}

// The three numbers, and what is held up to the end.
#[tactic(auto, unfolding(crate::specs::Slot::content))]
fn read_content(reader: &mut Reader<'_>, alloc: Global) -> Result<Stored, ReadError>
    ensures { Gives content reader.old reader.new result }
{
    let sequence = reader.u64()?;
    let position = reader.u64()?;
    let records = reader.u64()?;
    let held = read_to_end(reader, alloc)?;
    Ok(Stored {
        sequence,
        position,
        records,
        held,
    })
}

#[tactic(auto, unfolding(dmn_bytes::specs::Format::filled))]
fn read_filled(reader: &mut Reader<'_>, alloc: Global, n: usize) -> Result<Stored, ReadError>
    ensures { Gives (filled n content) reader.old reader.new result }
{
    let mut inner = reader.within(n)?;
    let stored = read_content(&mut inner, alloc)?;
    if inner.rest() > 0 {
        return Err(ReadError::Departs(Departure::Form { at: inner.at() }));
    }
    reader.skip(n);
    Ok(stored)
}

#[tactic(auto, unfolding(crate::specs::Slot::slot))]
fn read_slot(reader: &mut Reader<'_>, alloc: Global) -> Result<Stored, ReadError>
    ensures gives { Gives slot reader.old reader.new result }
    ensures bounds { IfOk result IsBounded }
{
    let size = reader.u64()?;
    let at = reader.at();
    let stored = read_filled(reader, alloc, size as usize)?;
    if keeps_bounds(&stored) {
        Ok(stored)
    } else {
        Err(ReadError::Departs(Departure::Form { at }))
    }
}

/// What a slot holds, by its text behind an open gate. None where it isn't valid.
pub(crate) fn stored_behind(alloc: Global, text: &[u8]) -> Result<Option<Stored>, Memory>
    ensures is { IfOk result (λ stored. stored ≡ slot_behind text.now) }
    ensures bounds { IfOk result (λ stored. IfSome stored IsBounded) }
{
    let mut reader = Reader::new(text);
    match read_slot(&mut reader, alloc) {
        Ok(stored) => Ok(Some(stored)),
        Err(error) => match error {
            ReadError::Memory => Err(Memory),
            ReadError::Departs(_) => Ok(None),
        },
    }
}
