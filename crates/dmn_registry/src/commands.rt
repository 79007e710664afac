//! Commands: each is durable before it is answered, and the branch follows it then.

ghost use Rattle.std.specs.Prelude.{◌≡◌, ◌↔◌, ◌+◌, ◌<◌, ◌≤◌, false, true, length, IsErrOf, IsTrue, OnErr, OnOk};
ghost use Rattle.dmn_block.specs.Defs.{IsBlock, IsBlockText, most_items};
ghost use Rattle.dmn_block.specs.declared.frame.BlockFrame.{BlockFrame};
ghost use Rattle.dmn_branch.specs.Stands.{IsNext, IsReady, prepared_in};
ghost use Rattle.dmn_outside.specs.Counts.{Rose};
ghost use Rattle.dmn_outside.specs.Crashes.{LeavesOnly};
ghost use Rattle.dmn_journal.specs.Journal.{size_of_record};
ghost use Rattle.dmn_journal.specs.Sure.{NeverFails};
ghost use Rattle.dmn_registry.specs.Machine.{Machine, connecting, disconnecting, journal_max, state_of};
ghost use Rattle.dmn_registry.specs.Own.{OwnWith, StandsFor, StandsOn};
ghost use Rattle.dmn_registry.specs.Snapshots.{HasRoom, HasRoomForSnapshot, KeepsBlock, moved};
ghost use Rattle.dmn_slots.specs.Slots.{records_of};
ghost use Rattle.dmn_registry.specs.Steps.{Connects, Disconnects, IsIdle, IsIdleDisconnect, Took};

use crate::fault::{ConnectFault, DisconnectFault};
use crate::registry::Registry;
use dmn_block::BlockFrame;
use dmn_branch::{PrepareFault, Prepared};
use dmn_bytes::Hash256;
use dmn_journal::{AppendFault, CONNECT, Journal, RecordText, disconnect_text, entry_text};
use dmn_outside::Disk;
use std::alloc::Global;

// A hash has 32 bytes.
fn hash_length(hash: Hash256)
    ensures { length hash.0 ≡ 32 }
{
    let _bytes = hash.0;
}

// Whether the journal would be longer than this with a record.
fn is_full(journal: &Journal, limit: u64, text: &RecordText) -> bool
    ensures { IsTrue result ↔ (limit < journal.now.end + 1 + size_of_record text.now) }
{
    let size = text.as_slice().len() as u64 + 1;
    limit < size || limit - size < journal.end
}

impl Registry {
    /// Adds a block behind the tip. It is durable before the answer. The disk is the one on which the registry was opened.
    pub fn connect<D: Disk>(
        &mut self,
        alloc: Global,
        disk: &mut D,
        block: &BlockFrame,
        body: &[u8],
    ) -> Result<(), ConnectFault>
        requires usable { self.old.spent ≡ false }
        requires block { IsBlock block.now }
        requires text { IsBlockText body.now block.now }
        requires fits { length body.now ≤ most_items }

        // It is the machine's answer, by the rules first and then by the journal's limit; or memory ran out.
        ensures connects { (m : Machine) → StandsOn self.old m (D.disk disk.old).told → Connects result m block.now body.now self.new (D.disk disk.new).told }

        // A crash at any moment leaves an own image, of the commands of before, with the new one or without.
        ensures moments { (m : Machine) → StandsOn self.old m (D.disk disk.old).told
            → LeavesOnly (D.time disk.old) (D.disk disk.old) (D.disk disk.new) (OwnWith m (connecting body.now)) }

        // A snapshot is written exactly where one is due.
        ensures mark { (m : Machine) → StandsFor self.old m → OnOk result (records_of self.new.newest ≡ moved m self.old) }

        // What is refused, or finds no memory, makes no call of the disk.
        ensures idle { IsIdle result → D.disk disk.new ≡ D.disk disk.old }
        ensures spent { IsErrOf result ConnectFault.DiskFault ↔ (self.new.spent ≡ true) }
        ensures line { D.line disk.new ≡ D.line disk.old }
        ensures room { D.room disk.new ≡ D.room disk.old }
        ensures time { D.time disk.old ≤ D.time disk.new }
        ensures later { (D.disk disk.old).faults ≤ (D.disk disk.new).faults }
        ensures fault { IsErrOf result ConnectFault.DiskFault → Rose (D.disk disk.old).faults (D.disk disk.new).faults }
        ensures sure { D.tells_room ≡ true → self.old.journal.end + 1 + size_of_record (connecting body.now) ≤ (D.disk disk.old).room → HasRoomForSnapshot self.old (D.disk disk.old).room → NeverFails result ConnectFault.DiskFault (D.disk disk.old) (D.disk disk.new) }
    {
        let prepared = match self.branch.prepare(alloc, block) {
            Ok(prepared) => prepared,
            Err(PrepareFault::Refused(refusal)) => return Err(ConnectFault::Refused(refusal)),
            Err(PrepareFault::Memory) => return Err(ConnectFault::Memory),
        };
        let Ok(text) = entry_text(alloc, CONNECT, body) else {
            self.branch.abandon(prepared);
            return Err(ConnectFault::Memory);
        };
        let limit = self.branch.profile().journal_max;
        if is_full(&self.journal, limit, &text) {
            self.branch.abandon(prepared);
            return Err(ConnectFault::JournalFull);
        }
        match self.refresh(alloc, disk) {
            Ok(()) => self.append_block(disk, limit, prepared, &text),
            Err(fault) => {
                self.branch.abandon(prepared);
                Err(ConnectFault::from(fault))
            }
        }
    }

    // Adds a block that was prepared, where fewer records stand behind the newest snapshot than one is due at, and the journal has
    // room.
    fn append_block<D: Disk>(
        &mut self,
        disk: &mut D,
        limit: u64,
        prepared: Prepared,
        text: &RecordText,
    ) -> Result<(), ConnectFault>
        requires usable { self.old.spent ≡ false }
        requires ready { IsReady self.old.branch prepared }
        requires room { ¬ (limit < self.old.journal.end + 1 + size_of_record text.now) }
        ensures took { (m : Machine) (block : BlockFrame) → StandsOn self.old m (D.disk disk.old).told → HasRoom m self.old → limit ≡ journal_max m.start → KeepsBlock text.now block → IsNext (prepared_in self.old.branch prepared) (state_of m) block
            → OnOk result (Took m text.now self.new (D.disk disk.new).told) }
        ensures moments { (m : Machine) (block : BlockFrame) → StandsOn self.old m (D.disk disk.old).told → HasRoom m self.old → limit ≡ journal_max m.start → KeepsBlock text.now block → IsNext (prepared_in self.old.branch prepared) (state_of m) block
            → LeavesOnly (D.time disk.old) (D.disk disk.old) (D.disk disk.new) (OwnWith m text.now) }
        ensures newest { self.new.newest ≡ self.old.newest }
        ensures few { OnErr result (IsErrOf result ConnectFault.DiskFault) }
        ensures spent { IsErrOf result ConnectFault.DiskFault ↔ (self.new.spent ≡ true) }
        ensures line { D.line disk.new ≡ D.line disk.old }
        ensures room { D.room disk.new ≡ D.room disk.old }
        ensures time { D.time disk.old ≤ D.time disk.new }
        ensures later { (D.disk disk.old).faults ≤ (D.disk disk.new).faults }
        ensures fault { IsErrOf result ConnectFault.DiskFault → Rose (D.disk disk.old).faults (D.disk disk.new).faults }
        ensures sure { D.tells_room ≡ true → self.old.journal.end + 1 + size_of_record text.now ≤ (D.disk disk.old).room → NeverFails result ConnectFault.DiskFault (D.disk disk.old) (D.disk disk.new) }
    {
        match self.journal.append(disk, limit, text) {
            Ok(()) => {
                self.branch.commit(prepared);
                Ok(())
            }
            Err(AppendFault::JournalFull) => unreachable!(),
            Err(AppendFault::DiskFault) => {
                self.branch.abandon(prepared);
                self.spent = true;
                Err(ConnectFault::DiskFault)
            }
        }
    }

    /// Takes the last block back, which must have this hash. It is durable before the answer, and takes no memory. The disk
    /// is the one on which the registry was opened.
    pub fn disconnect<D: Disk>(
        &mut self,
        disk: &mut D,
        hash: &Hash256,
    ) -> Result<(), DisconnectFault>
        requires usable { self.old.spent ≡ false }

        // It is the machine's answer, by the rules first and then by the journal's limit.
        ensures disconnects { (m : Machine) → StandsOn self.old m (D.disk disk.old).told → Disconnects result m hash.now self.new (D.disk disk.new).told }

        // A crash at any moment leaves an own image, of the commands of before, with the new one or without.
        ensures moments { (m : Machine) → StandsOn self.old m (D.disk disk.old).told
            → LeavesOnly (D.time disk.old) (D.disk disk.old) (D.disk disk.new) (OwnWith m (disconnecting hash.now)) }

        ensures newest { self.new.newest ≡ self.old.newest }

        // What is refused makes no call of the disk.
        ensures idle { IsIdleDisconnect result → D.disk disk.new ≡ D.disk disk.old }
        ensures spent { IsErrOf result DisconnectFault.DiskFault ↔ (self.new.spent ≡ true) }
        ensures line { D.line disk.new ≡ D.line disk.old }
        ensures room { D.room disk.new ≡ D.room disk.old }
        ensures time { D.time disk.old ≤ D.time disk.new }
        ensures later { (D.disk disk.old).faults ≤ (D.disk disk.new).faults }
        ensures fault { IsErrOf result DisconnectFault.DiskFault → Rose (D.disk disk.old).faults (D.disk disk.new).faults }
        ensures sure { D.tells_room ≡ true → self.old.journal.end + 1 + size_of_record (disconnecting hash.now) ≤ (D.disk disk.old).room → NeverFails result DisconnectFault.DiskFault (D.disk disk.old) (D.disk disk.new) }
    {
        match self.branch.check_disconnect(hash) {
            Ok(()) => {}
            Err(refusal) => return Err(DisconnectFault::from(refusal)),
        }
        hash_length(*hash);
        let text = disconnect_text(hash);
        let limit = self.branch.profile().journal_max;
        match self.journal.append(disk, limit, &text) {
            Ok(()) => {
                self.branch.disconnect();
                Ok(())
            }
            Err(AppendFault::JournalFull) => Err(DisconnectFault::JournalFull),
            Err(AppendFault::DiskFault) => {
                self.spent = true;
                Err(DisconnectFault::DiskFault)
            }
        }
    }
}
