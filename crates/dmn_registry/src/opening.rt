//! Opening a registry: what is pending is synced, and of the journal what stands behind the newest snapshot is replayed. Nothing
//! is written.

ghost use Rattle.std.specs.Prelude.{◌≡◌, ◌+◌, ◌<◌, ◌≤◌, ◌^◌, false, true, length, IfOk, IfSome, OnOk, IsErrOf};
ghost use Rattle.dmn_outside.specs.Changes.{bytes_read};
ghost use Rattle.dmn_outside.specs.Counts.{HasCause, Rose};
ghost use Rattle.dmn_outside.specs.Crashes.{IsKnown, LeavesOnly};
ghost use Rattle.dmn_outside.specs.Disk.{MayLeave};
ghost use Rattle.dmn_outside.specs.Failing.{DoesSurely};
ghost use Rattle.dmn_journal.specs.Journal.{header_text};
ghost use Rattle.dmn_journal.specs.Sure.{NeverFails};
ghost use Rattle.dmn_registry.specs.Machine.{Machine};
ghost use Rattle.dmn_registry.specs.Opening.{Begins, HasTrueSlot, IsQuiet, Opens, Reading, Recovers, first_place, reads_of};
ghost use Rattle.dmn_registry.specs.Own.{IsOwn};
ghost use Rattle.dmn_registry.specs.Untrue.{HasCauseIn};
ghost use Rattle.dmn_rows.specs.Defs.{IsStart};
ghost use Rattle.dmn_snapshot.specs.Slot.{IsBounded};

use crate::registry::{OpenFault, Registry};
use crate::replaying::{at_header, limit_of, replay_records};
use dmn_branch::{Branch, DataFault};
use dmn_bytes::Memory;
use dmn_journal::{Journal, JournalFault, header};
use dmn_outside::{Disk, Failed};
use dmn_rows::StartRecord;
use dmn_slots::Mark;
use dmn_snapshot::{Slot, SnapFault, newest};
use std::alloc::Global;

// Syncs the three files.
fn sync_all<D: Disk>(disk: &mut D) -> Result<(), Failed>
    ensures quiet { OnOk result (IsQuiet (D.disk disk.new).told) }
    ensures reads { reads_of (D.disk disk.new).told ≡ reads_of (D.disk disk.old).told }
    ensures moments { LeavesOnly (D.time disk.old) (D.disk disk.old) (D.disk disk.new) (MayLeave (D.disk disk.old).told) }
    ensures read { bytes_read 0 (D.disk disk.new).told ≡ bytes_read 0 (D.disk disk.old).told }
    ensures line { D.line disk.new ≡ D.line disk.old }
    ensures room { D.room disk.new ≡ D.room disk.old }
    ensures time { D.time disk.old ≤ D.time disk.new }
    ensures cause { HasCause (D.disk disk.old).faults (D.disk disk.new).faults result }
    ensures sure { D.tells_room ≡ true → DoesSurely result (D.disk disk.old) (D.disk disk.new) }
{
    disk.sync(0)?;
    disk.sync(1)?;
    disk.sync(2)
}

// Where replay begins: at the newest slot's place; behind the header where there is none, or where it holds no machine.
fn begin(
    alloc: Global,
    start: &StartRecord,
    first: u64,
    slot: Option<Slot>,
) -> Result<Registry, Memory>
    requires start { IsStart start.now }
    requires first { first < 2 ^ 62 }
    requires bounds { IfSome slot (λ slot. IsBounded slot.stored) }
    ensures begins { IfOk result (λ r. Begins start.now first slot r) }
    ensures place { IfOk result (λ r. r.journal.end < 2 ^ 62) }
{
    let Some(slot) = slot else {
        return at_header(alloc, start, first, None);
    };
    let mark = Mark::of(&slot);
    match Branch::from_data(alloc, start, &slot.stored.held) {
        Ok(branch) => Ok(Registry {
            branch,
            journal: Journal {
                end: mark.position,
                records: mark.records,
            },
            newest: Some(mark),
            spent: false,
        }),
        Err(DataFault::Misfit) => at_header(alloc, start, first, Some(mark)),
        Err(DataFault::Memory) => Err(Memory),
    }
}

// Syncs the three files, and replays what stands behind the newest slot.
fn open_any<D: Disk>(alloc: Global, disk: &mut D) -> Result<Registry, OpenFault>
    ensures opens { Reading HasTrueSlot (D.disk disk.old).told → Opens result (D.disk disk.old).told (D.disk disk.new).told }
    ensures cause { HasCauseIn result (D.disk disk.old).told }
    ensures usable { IfOk result (λ r. r.spent ≡ false) }
    ensures moments { LeavesOnly (D.time disk.old) (D.disk disk.old) (D.disk disk.new) (MayLeave (D.disk disk.old).told) }
    ensures reads { reads_of (D.disk disk.new).told ≡ reads_of (D.disk disk.old).told }
    ensures read { (m : Machine) → Reading (IsOwn m) (D.disk disk.old).told → IfOk result (λ r. bytes_read 0 (D.disk disk.new).told + first_place (length (header_text m.start)) r.newest ≤ bytes_read 0 (D.disk disk.old).told + length (header_text m.start) + (r.journal.end + 1)) }
    ensures line { D.line disk.new ≡ D.line disk.old }
    ensures room { D.room disk.new ≡ D.room disk.old }
    ensures time { D.time disk.old ≤ D.time disk.new }
    ensures later { (D.disk disk.old).faults ≤ (D.disk disk.new).faults }
    ensures fault { IsErrOf result JournalFault.DiskFault → Rose (D.disk disk.old).faults (D.disk disk.new).faults }
    ensures sure { D.tells_room ≡ true → NeverFails result JournalFault.DiskFault (D.disk disk.old) (D.disk disk.new) }
{
    sync_all(disk)?;
    let (start, first) = match header(alloc, disk) {
        Ok(found) => found,
        Err(fault) => return Err(fault),
    };
    let slot = match newest(alloc, disk) {
        Ok(slot) => slot,
        Err(SnapFault::DiskFault) => return Err(JournalFault::DiskFault),
        Err(SnapFault::Memory) => return Err(JournalFault::Memory),
    };
    let Ok(begun) = begin(alloc, &start, first, slot) else {
        return Err(JournalFault::Memory);
    };
    replay_records(alloc, disk, limit_of(&start), begun)
}

impl Registry {
    /// Opens the registry of a disk.
    pub fn open<D: Disk>(alloc: Global, disk: &mut D) -> Result<Registry, OpenFault>
        // Where the newest slot is true of file 0, the registry stands for a machine on this disk; or file 0 departs from a
        // journal image at this place.
        ensures opens { Reading HasTrueSlot (D.disk disk.old).told → Opens result (D.disk disk.old).told (D.disk disk.new).told }
        // Whatever the slots hold, NotJournal comes only for a cause that is in the file.
        ensures cause { HasCauseIn result (D.disk disk.old).told }
        ensures usable { IfOk result (λ r. r.spent ≡ false) }

        // Where the disk is at rest and its image is own, it is the machine that is recovered from it, and nothing departs.
        ensures recovers { (m : Machine) → IsKnown (IsOwn m) (D.disk disk.old).told → Recovers result m (D.disk disk.new).told }

        // A crash at any moment leaves only what it might have left before.
        ensures moments { LeavesOnly (D.time disk.old) (D.disk disk.old) (D.disk disk.new) (MayLeave (D.disk disk.old).told) }
        ensures reads { reads_of (D.disk disk.new).told ≡ reads_of (D.disk disk.old).told }

        // Of the file 0 of an own image no more is read than its header, and what stands from the newest slot's place on up to the
        // closed gate, each byte once.
        ensures read { (m : Machine) → Reading (IsOwn m) (D.disk disk.old).told → IfOk result (λ r. bytes_read 0 (D.disk disk.new).told + first_place (length (header_text m.start)) r.newest ≤ bytes_read 0 (D.disk disk.old).told + length (header_text m.start) + (r.journal.end + 1)) }
        ensures line { D.line disk.new ≡ D.line disk.old }
        ensures room { D.room disk.new ≡ D.room disk.old }
        ensures time { D.time disk.old ≤ D.time disk.new }

        // DiskFault comes only where the count of disk faults rose, and not over a disk that tells its room.
        ensures later { (D.disk disk.old).faults ≤ (D.disk disk.new).faults }
        ensures fault { IsErrOf result JournalFault.DiskFault → Rose (D.disk disk.old).faults (D.disk disk.new).faults }
        ensures sure { D.tells_room ≡ true → NeverFails result JournalFault.DiskFault (D.disk disk.old) (D.disk disk.new) }
    {
        open_any(alloc, disk)
    }
}
