//! Snapshots: one is written where enough records stand behind the newest.

ghost use Rattle.std.specs.Prelude.{◌≡◌, ◌↔◌, ◌≤◌, ◌<◌, false, true, IsErrOf, OnErr, OnOk};
ghost use Rattle.dmn_outside.specs.Counts.{Rose};
ghost use Rattle.dmn_outside.specs.Crashes.{LeavesOnly};
ghost use Rattle.dmn_journal.specs.Sure.{NeverFails};
ghost use Rattle.dmn_registry.specs.Machine.{Machine};
ghost use Rattle.dmn_registry.specs.Own.{IsOwn, StandsFor, StandsOn};
ghost use Rattle.dmn_registry.specs.Snapshots.{HasRoom, SnapshotsFit, moved};
ghost use Rattle.dmn_slots.specs.Slots.{records_of};

use crate::registry::Registry;
use dmn_outside::Disk;
use dmn_slots::next_mark;
use dmn_snapshot::{SnapFault, text, write};
use std::alloc::Global;

impl Registry {
    // Writes a snapshot of the branch as it stands, where one is due. All memory is taken before the first write.
    pub(crate) fn refresh<D: Disk>(&mut self, alloc: Global, disk: &mut D) -> Result<(), SnapFault>
        requires usable { self.old.spent ≡ false }
        ensures stands { (m : Machine) → StandsOn self.old m (D.disk disk.old).told → OnOk result (StandsOn self.new m (D.disk disk.new).told) }
        ensures same { (m : Machine) → StandsOn self.old m (D.disk disk.old).told → IsErrOf result SnapFault.Memory → StandsOn self.new m (D.disk disk.new).told }
        ensures moments { (m : Machine) → StandsOn self.old m (D.disk disk.old).told → LeavesOnly (D.time disk.old) (D.disk disk.old) (D.disk disk.new) (IsOwn m) }
        ensures due { (m : Machine) → StandsFor self.old m → OnOk result (HasRoom m self.new) }
        ensures mark { (m : Machine) → StandsFor self.old m → OnOk result (records_of self.new.newest ≡ moved m self.old) }
        ensures branch { self.new.branch ≡ self.old.branch }
        ensures journal { self.new.journal ≡ self.old.journal }
        ensures idle { IsErrOf result SnapFault.Memory → D.disk disk.new ≡ D.disk disk.old }
        ensures few { OnErr result ((IsErrOf result SnapFault.Memory → ⊥) → IsErrOf result SnapFault.DiskFault) }
        ensures spent { IsErrOf result SnapFault.DiskFault ↔ (self.new.spent ≡ true) }
        ensures line { D.line disk.new ≡ D.line disk.old }
        ensures room { D.room disk.new ≡ D.room disk.old }
        ensures time { D.time disk.old ≤ D.time disk.new }
        ensures later { (D.disk disk.old).faults ≤ (D.disk disk.new).faults }
        ensures fault { IsErrOf result SnapFault.DiskFault → Rose (D.disk disk.old).faults (D.disk disk.new).faults }
        ensures sure { D.tells_room ≡ true → (m : Machine) → StandsFor self.old m → SnapshotsFit m (D.disk disk.old).room → NeverFails result SnapFault.DiskFault (D.disk disk.old) (D.disk disk.new) }
    {
        if self.tail() < self.branch.profile().every {
            return Ok(());
        }
        let next = next_mark(self.newest, self.journal.end, self.journal.records);
        let held = self.branch.to_data(alloc)?;
        let text = text(alloc, next.sequence, next.position, next.records, &held)?;
        match write(disk, next.number, text.as_slice()) {
            Ok(()) => {
                self.newest = Some(next);
                Ok(())
            }
            Err(_) => {
                self.spent = true;
                Err(SnapFault::DiskFault)
            }
        }
    }
}
