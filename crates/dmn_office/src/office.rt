//! A desk and the registry that it serves.

ghost use Rattle.std.specs.Prelude.{◌≡◌, ◌≤◌, false, true, length, IfOk, IsErr, IsErrOf, OnOk};
ghost use Rattle.dmn_outside.specs.Counts.{Rose};
ghost use Rattle.dmn_outside.specs.Crashes.{IsKnown, LeavesOnly};
ghost use Rattle.dmn_journal.specs.Sure.{NeverFails};
ghost use Rattle.dmn_registry.specs.Machine.{Machine, at_rest};
ghost use Rattle.dmn_registry.specs.Opening.{HasTrueSlot, Reading};
ghost use Rattle.dmn_registry.specs.Own.{IsOwn, StandsOn};
ghost use Rattle.dmn_registry.specs.Snapshots.{HasRoomForSnapshot};
ghost use Rattle.dmn_desk.specs.Asked.{AnswersSurely, HasRoom, Marks, entry_by};
ghost use Rattle.dmn_desk.specs.Requests.{IsRequest};
ghost use Rattle.dmn_desk.specs.Texts.{IsBounded};
ghost use Rattle.dmn_office.specs.Offices.{Gives, OpensOn, Recovers, StopsFor};
ghost use Rattle.dmn_office.specs.Steps.{HasItsHash};

use dmn_bytes::Hash256;
use dmn_desk::{Answer, Desk, Request};
use dmn_journal::JournalFault;
use dmn_outside::{Disk, DiskFault};
use dmn_registry::{OpenFault, Registry};
use std::alloc::Global;

/// A desk and the registry that it serves. After a disk fault the registry is spent, and is opened again.
#[derive(Drop)]
pub struct Office {
    pub desk: Desk,
    pub registry: Registry,
}

// A hash has 32 bytes.
fn hash_length(hash: Hash256)
    ensures { length hash.0 ≡ 32 }
{
    let _bytes = hash.0;
}

// A request to take a block back names a hash, which has 32 bytes.
fn keep_hash(request: &Request)
    ensures { HasItsHash request.now }
{
    match request {
        Request::Disconnect { hash } => hash_length(*hash),
        Request::Connect { .. }
        | Request::Tip
        | Request::List { .. }
        | Request::Row { .. }
        | Request::Payees { .. }
        | Request::Members { .. }
        | Request::Quorums { .. }
        | Request::Diff { .. }
        | Request::Pin { .. }
        | Request::Page { .. }
        | Request::Release { .. } => {}
    }
}

impl Office {
    /// Opens the registry of a disk, with a desk that keeps nothing yet.
    pub fn open<D: Disk>(alloc: Global, disk: &mut D) -> Result<Office, OpenFault>
        // On a disk at rest whose image is own the office stands for the machine that is recovered from it, and a crash at any
        // moment leaves an image that is own of it.
        ensures recovers { (m : Machine) → IsKnown (IsOwn m) (D.disk disk.old).told → Recovers result (at_rest m) (D.disk disk.new).told }
        ensures moments { (m : Machine) → IsKnown (IsOwn m) (D.disk disk.old).told → LeavesOnly (D.time disk.old) (D.disk disk.old) (D.disk disk.new) (IsOwn (at_rest m)) }

        // Where the newest slot is true of file 0, it opens only where this is a journal image, and NotJournal tells where it
        // departs from one. Whatever the slots hold, NotJournal comes only for a cause that is in the file.
        ensures opens { Reading HasTrueSlot (D.disk disk.old).told → OpensOn result (D.disk disk.old).told }
        ensures cause { StopsFor result (D.disk disk.old).told }
        ensures usable { IfOk result (λ office. office.registry.spent ≡ false) }
        ensures line { D.line disk.new ≡ D.line disk.old }
        ensures room { D.room disk.new ≡ D.room disk.old }
        ensures time { D.time disk.old ≤ D.time disk.new }
        ensures later { (D.disk disk.old).faults ≤ (D.disk disk.new).faults }
        ensures fault { IsErrOf result JournalFault.DiskFault → Rose (D.disk disk.old).faults (D.disk disk.new).faults }
        ensures sure { D.tells_room ≡ true → NeverFails result JournalFault.DiskFault (D.disk disk.old) (D.disk disk.new) }
    {
        let Ok(desk) = Desk::new(alloc) else {
            return Err(JournalFault::Memory);
        };
        match Registry::open(alloc, disk) {
            Ok(registry) => Ok(Office { desk, registry }),
            Err(fault) => Err(fault),
        }
    }

    /// The answer to a request. A command that is accepted is durable before this.
    pub fn answer<D: Disk>(
        &mut self,
        alloc: Global,
        disk: &mut D,
        request: &Request,
    ) -> Result<Answer, DiskFault>
        requires usable { self.old.registry.spent ≡ false }
        requires request { IsRequest request.now }
        // It is the machine's answer or Memory, the office stands for the machine behind it, and a crash at any moment leaves an
        // image that is own of a machine on the way there. After a disk fault a command in hand may be there or not.
        ensures gives { Gives result request.now (D.time disk.old) (D.disk disk.old) (D.disk disk.new) self.old self.new }
        ensures bounded { IfOk result IsBounded }

        // A snapshot is written exactly where one is due for a block that is added.
        ensures mark { (m : Machine) → StandsOn self.old.registry m (D.disk disk.old).told → Marks request.now result m self.old.registry self.new.registry (D.disk disk.new).told }
        ensures usable { OnOk result (self.new.registry.spent ≡ false) }
        ensures line { D.line disk.new ≡ D.line disk.old }
        ensures room { D.room disk.new ≡ D.room disk.old }
        ensures time { D.time disk.old ≤ D.time disk.new }
        ensures later { (D.disk disk.old).faults ≤ (D.disk disk.new).faults }
        ensures fault { IsErr result → Rose (D.disk disk.old).faults (D.disk disk.new).faults }
        ensures sure { D.tells_room ≡ true → HasRoom (entry_by request.now) self.old.registry.journal.end (D.disk disk.old).room → HasRoomForSnapshot self.old.registry (D.disk disk.old).room → AnswersSurely result (D.disk disk.old) (D.disk disk.new) }
    {
        keep_hash(request);
        self.desk.answer(alloc, &mut self.registry, disk, request)
    }
}
