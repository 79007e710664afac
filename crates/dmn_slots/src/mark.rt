//! What is kept of the newest slot.

ghost use Rattle.std.specs.Prelude.{◌≡◌, ◌-◌, ◌≤◌};
ghost use Rattle.dmn_slots.specs.Slots.{mark_of, next_mark, next_sequence, records_of, spare};

use dmn_snapshot::Slot;

/// Where the newest slot is, and what it says.
#[derive(Clone, Copy, Debug, PartialEq, Eq)]
pub struct Mark {
    /// The slot's number, 1 or 2.
    pub number: u8,
    pub sequence: u64,
    /// The place of the journal's closed gate at that time.
    pub position: u64,
    /// The number of records before that place.
    pub records: u64,
}

impl Mark {
    /// What is kept of a slot.
    pub fn of(slot: &Slot) -> Mark
        ensures { result ≡ mark_of slot.now }
    {
        Mark {
            number: slot.number,
            sequence: slot.stored.sequence,
            position: slot.stored.position,
            records: slot.stored.records,
        }
    }
}

// The number of the slot that isn't the newest: 1 where there is none.
fn spare(newest: Option<Mark>) -> u8
    ensures is { result ≡ spare newest }
    ensures slot { (1 ≤ result) × (result ≤ 2) }
{
    match newest {
        None => 1,
        Some(mark) => { if mark.number == 1 { 2 } else { 1 } }
    }
}

fn next_sequence(newest: Option<Mark>) -> u64
    ensures { result ≡ next_sequence newest }
{
    match newest {
        None => 1,
        Some(mark) => mark.sequence.saturating_add(1),
    }
}

fn records_of(newest: Option<Mark>) -> u64
    ensures { result ≡ records_of newest }
{
    match newest {
        None => 0,
        Some(mark) => mark.records,
    }
}

/// The slot that is written next, where the journal's closed gate is at this place behind so many records: the one that isn't
/// the newest, slot 1 at first, with the next sequence number, 1 at first.
pub fn next_mark(newest: Option<Mark>, position: u64, records: u64) -> Mark
    ensures is { result ≡ next_mark newest position records }
    ensures slot { (1 ≤ result.number) × (result.number ≤ 2) }
{
    Mark {
        number: spare(newest),
        sequence: next_sequence(newest),
        position,
        records,
    }
}

/// How many of so many records stand behind the newest slot.
pub fn tail(newest: Option<Mark>, records: u64) -> u64
    ensures { result ≡ records - records_of newest }
{
    records.saturating_sub(records_of(newest))
}
