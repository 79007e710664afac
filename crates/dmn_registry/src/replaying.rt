//! File 0 is replayed: its records are read one after another, and the branch follows each.

ghost use Rattle.std.specs.Prelude.{◌≡◌, ◌+◌, ◌≤◌, ◌<◌, ◌^◌, false, true, None, IfOk, OnOk, IsErrOf};
ghost use Rattle.dmn_branch.specs.Machine.{MachineState};
ghost use Rattle.dmn_branch.specs.Stands as branches;
ghost use Rattle.dmn_outside.specs.Changes.{OnlyReads, bytes_read};
ghost use Rattle.dmn_outside.specs.Counts.{Rose};
ghost use Rattle.dmn_journal.specs.Journal.{IsShort, size_of_record};
ghost use Rattle.dmn_journal.specs.Reading.{entry_departs};
ghost use Rattle.dmn_journal.specs.Reads.{entry_of};
ghost use Rattle.dmn_journal.specs.Sure.{NeverFails};
ghost use Rattle.dmn_registry.specs.Machine.{Machine, begun, journal_max, state_of};
ghost use Rattle.dmn_registry.specs.Opening.{Follows, IsSound, Replayed, Replays, TakesRecord, seen};
ghost use Rattle.dmn_registry.specs.Own.{StandsFor};
ghost use Rattle.dmn_registry.specs.Untrue.{ReplayStops, StandsForHeld, TakeStops, TakesCommand};
ghost use Rattle.dmn_rows.specs.Defs.{IsStart, KeepsBounds};
ghost use Rattle.dmn_rows.specs.declared.start.StartRecord.{StartRecord};
ghost use Rattle.dmn_held.specs.declared.data.SnapshotData.{SnapshotData};

use crate::command::{Command, read_command};
use crate::registry::Registry;
use dmn_block::BlockFault;
use dmn_branch::{Branch, PrepareFault};
use dmn_bytes::Memory;
use dmn_journal::{Journal, JournalEntry, JournalFault, header, next};
use dmn_outside::Disk;
use dmn_rows::{StartRecord, profile_of};
use dmn_slots::Mark;
use std::alloc::Global;

// The branch follows a command, or the rules refuse it.
fn follow(branch: &mut Branch, alloc: Global, command: &Command) -> Result<bool, Memory>
    requires { IsSound command.now }
    ensures { (s : MachineState) → branches.StandsFor branch.old s → Follows result s (seen command.now) branch.new }
{
    match command {
        Command::Connect(block) => match branch.prepare(alloc, block) {
            Ok(prepared) => {
                branch.commit(prepared);
                Ok(true)
            }
            Err(PrepareFault::Refused(_)) => Ok(false),
            Err(PrepareFault::Memory) => Err(Memory),
        },
        Command::Disconnect(hash) => {
            if branch.check_disconnect(hash).is_err() {
                return Ok(false);
            }
            branch.disconnect();
            Ok(true)
        }
    }
}

impl Registry {
    // Takes the record whose gate is at the journal's end, where with it the journal is no longer than the limit.
    fn take(
        &mut self,
        alloc: Global,
        limit: u64,
        entry: &JournalEntry,
        behind: u64,
    ) -> Result<(), JournalFault>
        requires form { entry_departs (entry_of entry.now) ≡ None }
        requires short { IsShort (entry_of entry.now) }
        requires place { behind ≡ self.old.journal.end + size_of_record (entry_of entry.now) }
        requires fits { self.old.journal.end < 2 ^ 62 }
        ensures takes { (m : Machine) → StandsFor self.old m → limit ≡ journal_max m.start → TakesRecord result m (entry_of entry.now) self.old.journal.end self.new }
        ensures followed { (s : MachineState) → branches.StandsFor self.old.branch s → OnOk result (TakesCommand s (entry_of entry.now) self.new.branch) }
        ensures stops { TakeStops result (entry_of entry.now) self.old.journal.end limit self.old.branch }
        ensures end { OnOk result (self.new.journal.end ≡ behind) }
        ensures below { OnOk result (behind < limit) }
        ensures newest { self.new.newest ≡ self.old.newest }
        ensures spent { self.new.spent ≡ self.old.spent }
        ensures disk { ¬ IsErrOf result JournalFault.DiskFault }
    {
        let at = self.journal.end;
        let command = match read_command(alloc, entry) {
            Ok(command) => command,
            Err(BlockFault::BlockForm { at: place }) => {
                return Err(JournalFault::NotJournal {
                    at: at + 6 + place as u64,
                });
            }
            Err(BlockFault::Memory) => return Err(JournalFault::Memory),
        };
        if behind >= limit {
            return Err(JournalFault::NotJournal { at });
        }
        match follow(&mut self.branch, alloc, &command) {
            Ok(true) => {}
            Ok(false) => return Err(JournalFault::NotJournal { at }),
            Err(_) => return Err(JournalFault::Memory),
        }
        self.journal = Journal {
            end: behind,
            records: self.journal.records + 1,
        };
        Ok(())
    }
}

/// The length above which no journal of this start record grows.
pub fn limit_of(start: &StartRecord) -> u64
    requires { KeepsBounds start.now }
    ensures is { result ≡ journal_max start.now }
    ensures few { result ≤ 2 ^ 40 }
{
    match profile_of(start.profile) {
        Some(profile) => profile.journal_max,
        None => unreachable!(),
    }
}

/// A registry without commands, whose journal ends behind the header.
pub fn at_header(
    alloc: Global,
    start: &StartRecord,
    first: u64,
    newest: Option<Mark>,
) -> Result<Registry, Memory>
    requires { IsStart start.now }
    ensures branch { IfOk result (λ r. branches.StandsFor r.branch (state_of (begun start.now))) }
    ensures end { IfOk result (λ r. r.journal.end ≡ first) }
    ensures records { IfOk result (λ r. r.journal.records ≡ 0) }
    ensures newest { IfOk result (λ r. r.newest ≡ newest) }
    ensures usable { IfOk result (λ r. r.spent ≡ false) }
{
    let branch = Branch::start(alloc, start)?;
    Ok(Registry {
        branch,
        journal: Journal {
            end: first,
            records: 0,
        },
        newest,
        spent: false,
    })
}

/// The records from the journal's end on, up to the first gate that is closed, where no journal is longer than this.
pub fn replay_records<D: Disk>(
    alloc: Global,
    disk: &mut D,
    limit: u64,
    mut registry: Registry,
) -> Result<Registry, JournalFault>
    requires usable { registry.spent ≡ false }
    requires place { registry.journal.end < 2 ^ 62 }
    requires limit { limit ≤ 2 ^ 40 }

    // Whatever machine the registry stands for so far.
    ensures replays { (k : Machine) → limit ≡ journal_max k.start → Replayed registry k (D.disk disk.old).told → Replays result (D.disk disk.old).told }
    // Whatever it stands for: where its branch does for what a text holds, it stops for a cause.
    ensures stops { (start : StartRecord) (held : SnapshotData) → limit ≡ journal_max start → StandsForHeld registry.branch start held → ReplayStops result start held registry.journal.end (D.disk disk.old).told }
    ensures usable { IfOk result (λ r. r.spent ≡ false) }
    ensures newest { IfOk result (λ r. r.newest ≡ registry.newest) }
    ensures disk { OnlyReads (D.disk disk.old) (D.disk disk.new) }
    ensures read { IfOk result (λ r. bytes_read 0 (D.disk disk.new).told + registry.journal.end ≤ bytes_read 0 (D.disk disk.old).told + r.journal.end + 1) }
    ensures line { D.line disk.new ≡ D.line disk.old }
    ensures room { D.room disk.new ≡ D.room disk.old }
    ensures time { D.time disk.old ≤ D.time disk.new }
    ensures later { (D.disk disk.old).faults ≤ (D.disk disk.new).faults }
    ensures fault { IsErrOf result JournalFault.DiskFault → Rose (D.disk disk.old).faults (D.disk disk.new).faults }
    ensures sure { D.tells_room ≡ true → NeverFails result JournalFault.DiskFault (D.disk disk.old) (D.disk disk.new) }
{
    'replay: loop {
        let at = registry.journal.end;
        match next(alloc, disk, at) {
            Err(fault) => return Err(fault),
            Ok(None) => return Ok(registry),
            Ok(Some((entry, behind))) => match registry.take(alloc, limit, &entry, behind) {
                Ok(()) => {}
                Err(fault) => return Err(fault),
            },
        }
    }
}

/// Replays file 0, from its header to the first gate that is closed.
pub fn replay<D: Disk>(alloc: Global, disk: &mut D) -> Result<Registry, JournalFault>
    ensures replays { Replays result (D.disk disk.old).told }
    ensures disk { OnlyReads (D.disk disk.old) (D.disk disk.new) }

    // Of the file no more is read than its journal, each byte once.
    ensures read { IfOk result (λ r. bytes_read 0 (D.disk disk.new).told ≤ bytes_read 0 (D.disk disk.old).told + r.journal.end + 1) }
    ensures line { D.line disk.new ≡ D.line disk.old }
    ensures room { D.room disk.new ≡ D.room disk.old }
    ensures time { D.time disk.old ≤ D.time disk.new }
    ensures later { (D.disk disk.old).faults ≤ (D.disk disk.new).faults }
    ensures fault { IsErrOf result JournalFault.DiskFault → Rose (D.disk disk.old).faults (D.disk disk.new).faults }
    ensures sure { D.tells_room ≡ true → NeverFails result JournalFault.DiskFault (D.disk disk.old) (D.disk disk.new) }
{
    let (start, first) = match header(alloc, disk) {
        Ok(found) => found,
        Err(fault) => return Err(fault),
    };
    let Ok(registry) = at_header(alloc, &start, first, None) else {
        return Err(JournalFault::Memory);
    };
    replay_records(alloc, disk, limit_of(&start), registry)
}
