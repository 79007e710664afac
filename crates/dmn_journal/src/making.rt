//! A journal is made in four parts: files 1 and 2 are cut, file 0 is cut and its gate closed, the header's rest is
//! written, and the gate is opened.

ghost use Rattle.std.specs.Prelude.{◌≡◌, ◌+◌, ◌<◌, ◌≤◌, ◌^◌, [], ◌∷◌, ◌++◌, length, true, IsOk, OnOk};
ghost use Rattle.std.specs.Int.{w32, to_le_bytes};
ghost use Rattle.dmn_outside.specs.Counts.{HasCause};
ghost use Rattle.dmn_outside.specs.Crashes.{LeavesOnly};
ghost use Rattle.dmn_outside.specs.Failing.{DoesSurely, KeepsDisk};
ghost use Rattle.dmn_journal.specs.Create.{HoldsText, IsBlank, IsBlankDisk, IsBlankOrMade, behind_gate};
ghost use Rattle.dmn_journal.specs.Journal.{magic};

use crate::limits::MAGIC;
use dmn_outside::{Disk, DiskFault, Failed, cut_synced, write_synced, write_three_synced};

// The magic and the length of the start record.
fn front_of(len: u32) -> [u8; 11]
    ensures { result ≡ magic ++ to_le_bytes w32 len }
{
    let mut front = [0; 11];
    front[..7].copy_from_slice(&MAGIC);
    front[7..].copy_from_slice(&len.to_le_bytes());
    front
}

fn empty_files<D: Disk>(disk: &mut D) -> Result<(), Failed>
    ensures done { OnOk result (HoldsText [] (D.disk disk.new).told) }
    ensures moments { IsBlankDisk (D.disk disk.old).told → LeavesOnly (D.time disk.old) (D.disk disk.old) (D.disk disk.new) (λ image. IsBlank image.zeroth) }
    ensures line { D.line disk.new ≡ D.line disk.old }
    ensures room { D.room disk.new ≡ D.room disk.old }
    ensures time { D.time disk.old ≤ D.time disk.new }
    ensures cause { HasCause (D.disk disk.old).faults (D.disk disk.new).faults result }
    ensures sure { D.tells_room ≡ true → DoesSurely result (D.disk disk.old) (D.disk disk.new) }
{
    cut_synced(disk, 1, 0)?;
    cut_synced(disk, 2, 0)?;
    cut_synced(disk, 0, 0)
}

fn write_header<D: Disk>(disk: &mut D, start: &[u8]) -> Result<(), Failed>
    requires { length start.now < 2 ^ 32 }
    ensures done { HoldsText [] (D.disk disk.old).told → OnOk result (HoldsText (1 ∷ behind_gate start.now) (D.disk disk.new).told) }
    ensures moments { HoldsText [] (D.disk disk.old).told → LeavesOnly (D.time disk.old) (D.disk disk.old) (D.disk disk.new) (IsBlankOrMade (behind_gate start.now)) }
    ensures line { D.line disk.new ≡ D.line disk.old }
    ensures room { D.room disk.new ≡ D.room disk.old }
    ensures time { D.time disk.old ≤ D.time disk.new }
    ensures cause { HasCause (D.disk disk.old).faults (D.disk disk.new).faults result }
    ensures sure { D.tells_room ≡ true → 13 + length start.now ≤ (D.disk disk.old).room → DoesSurely result (D.disk disk.old) (D.disk disk.new) }
{
    let front = front_of(start.len() as u32);
    write_synced(disk, 0, 0, &[0])?;
    write_three_synced(disk, 0, 1, &front, start, &[0])?;
    write_synced(disk, 0, 0, &[1])
}

/// Makes a journal with this start record's text and no command, and empties files 1 and 2. It takes no memory.
pub fn create<D: Disk>(disk: &mut D, start: &[u8]) -> Result<(), DiskFault>
    requires { length start.now < 2 ^ 32 }
    ensures done { OnOk result (HoldsText (1 ∷ behind_gate start.now) (D.disk disk.new).told) }

    // A crash at any moment leaves a blank file 0, or the journal.
    ensures moments { IsBlankDisk (D.disk disk.old).told → LeavesOnly (D.time disk.old) (D.disk disk.old) (D.disk disk.new) (IsBlankOrMade (behind_gate start.now)) }
    ensures line { D.line disk.new ≡ D.line disk.old }
    ensures room { D.room disk.new ≡ D.room disk.old }
    ensures time { D.time disk.old ≤ D.time disk.new }
    ensures cause { HasCause (D.disk disk.old).faults (D.disk disk.new).faults result }

    // A disk that tells its room, and has as much, does not fail.
    ensures sure { D.tells_room ≡ true → 13 + length start.now ≤ (D.disk disk.old).room → IsOk result × KeepsDisk (D.disk disk.old) (D.disk disk.new) }
{
    empty_files(disk)?;
    write_header(disk, start)?;
    Ok(())
}
