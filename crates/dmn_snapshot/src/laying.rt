//! A slot is written in three parts, each with its sync: its gate is closed, the rest is written, its gate is opened.

ghost use Rattle.std.specs.Prelude.{◌≡◌, ◌+◌, ◌<◌, ◌≤◌, ◌^◌, length, true, Some, IsOk, OnOk};
ghost use Rattle.dmn_outside.specs.Changes.{but, unread};
ghost use Rattle.dmn_outside.specs.Counts.{HasCause};
ghost use Rattle.dmn_outside.specs.Crashes.{LeavesOnly};
ghost use Rattle.dmn_outside.specs.Failing.{DoesSurely, KeepsDisk};
ghost use Rattle.dmn_snapshot.specs.Slot.{IsStored, slot_in, slot_text};
ghost use Rattle.dmn_snapshot.specs.Steps.{Closing, Has, IsLaid, IsOpen, IsShut, IsStill, Opening, Writing};
ghost use Rattle.dmn_snapshot.specs.declared.slot.Stored.{Stored};

use crate::part::{gate, shut_by};
use dmn_outside::{Disk, DiskFault, Failed, write_synced};

// A gate that is there and isn't 1 isn't written, since a write that isn't synced could open it.
fn close_gate<D: Disk>(disk: &mut D, file: u8) -> Result<(), Failed>
    requires some { 1 ≤ file }
    requires file { file ≤ 2 }
    ensures done { IsStill file (D.disk disk.old).told → OnOk result (Has file IsShut (D.disk disk.new).told) }
    ensures moments { IsStill file (D.disk disk.old).told → LeavesOnly (D.time disk.old) (D.disk disk.old) (D.disk disk.new) (Closing file (D.disk disk.old).told) }
    ensures others { but file (unread (D.disk disk.new).told) ≡ but file (unread (D.disk disk.old).told) }
    ensures line { D.line disk.new ≡ D.line disk.old }
    ensures room { D.room disk.new ≡ D.room disk.old }
    ensures time { D.time disk.old ≤ D.time disk.new }
    ensures cause { HasCause (D.disk disk.old).faults (D.disk disk.new).faults result }
    ensures sure { D.tells_room ≡ true → 1 ≤ (D.disk disk.old).room → DoesSurely result (D.disk disk.old) (D.disk disk.new) }
{
    let byte = gate(disk, file)?;
    if shut_by(byte) {
        return Ok(());
    }
    write_synced(disk, file, 0, &[0])
}

// The three parts, for any text behind the gate.
fn lay<D: Disk>(disk: &mut D, file: u8, text: &[u8]) -> Result<(), Failed>
    requires some { 1 ≤ file }
    requires file { file ≤ 2 }
    requires fits { 1 + length text.now < 2 ^ 64 }
    ensures done { IsStill file (D.disk disk.old).told → OnOk result (Has file (IsOpen text.now) (D.disk disk.new).told) }
    ensures moments { IsStill file (D.disk disk.old).told → LeavesOnly (D.time disk.old) (D.disk disk.old) (D.disk disk.new) (Opening file text.now (D.disk disk.old).told) }
    ensures others { but file (unread (D.disk disk.new).told) ≡ but file (unread (D.disk disk.old).told) }
    ensures line { D.line disk.new ≡ D.line disk.old }
    ensures room { D.room disk.new ≡ D.room disk.old }
    ensures time { D.time disk.old ≤ D.time disk.new }
    ensures cause { HasCause (D.disk disk.old).faults (D.disk disk.new).faults result }
    ensures sure { D.tells_room ≡ true → 1 + length text.now ≤ (D.disk disk.old).room → DoesSurely result (D.disk disk.old) (D.disk disk.new) }
{
    close_gate(disk, file)?;
    write_synced(disk, file, 1, text)?;
    write_synced(disk, file, 0, &[1])
}

/// Writes a slot, 1 or 2, of which this is the text behind its gate. It takes no memory.
pub fn write<D: Disk>(disk: &mut D, slot: u8, text: &[u8]) -> Result<(), DiskFault>
    requires some { 1 ≤ slot }
    requires slot { slot ≤ 2 }
    requires fits { 1 + length text.now < 2 ^ 64 }
    // Once it has answered Ok, the file has this slot, and nothing of it is pending.
    ensures done { (stored : Stored) → IsStored stored → text.now ≡ slot_text stored → IsStill slot (D.disk disk.old).told → OnOk result (Has slot (λ file. slot_in file ≡ Some stored) (D.disk disk.new).told) }

    // At each moment the slot isn't valid, or it is the one of before, or the new one whole; the other files are as before.
    ensures moments { (stored : Stored) → IsStored stored → text.now ≡ slot_text stored → IsStill slot (D.disk disk.old).told → LeavesOnly (D.time disk.old) (D.disk disk.old) (D.disk disk.new) (Writing slot stored (D.disk disk.old).told) }
    ensures others { but slot (unread (D.disk disk.new).told) ≡ but slot (unread (D.disk disk.old).told) }
    ensures line { D.line disk.new ≡ D.line disk.old }
    ensures room { D.room disk.new ≡ D.room disk.old }
    ensures time { D.time disk.old ≤ D.time disk.new }
    ensures cause { HasCause (D.disk disk.old).faults (D.disk disk.new).faults result }

    // A disk that tells its room, and has as much, does not fail.
    ensures sure { D.tells_room ≡ true → 1 + length text.now ≤ (D.disk disk.old).room → IsOk result × KeepsDisk (D.disk disk.old) (D.disk disk.new) }
{
    lay(disk, slot, text)?;
    Ok(())
}
