//! A change of a file with its sync: the parts of which each sequence of writes is made.

ghost use Rattle.std.specs.Prelude.{◌≡◌, ◌+◌, ◌<◌, ◌≤◌, ◌^◌, true, length, OnOk};
ghost use Rattle.dmn_outside.specs.Changes.{after_cut, after_sync, after_three, after_write, but};
ghost use Rattle.dmn_outside.specs.Counts.{HasCause};
ghost use Rattle.dmn_outside.specs.Crashes.{LeavesOnly};
ghost use Rattle.dmn_outside.specs.Disk.{MayLeave};
ghost use Rattle.dmn_outside.specs.Failing.{DoesSurely, WritesSurely};

use crate::{Disk, Failed};

/// Writes bytes at a place, and syncs the file. A crash at any moment of it leaves what the write alone may leave.
pub fn write_synced<D: Disk>(disk: &mut D, file: u8, at: u64, bytes: &[u8]) -> Result<(), Failed>
    requires file { file ≤ 2 }
    requires fits { at + length bytes.now < 2 ^ 64 }
    ensures done { OnOk result ((D.disk disk.new).told ≡ after_sync file (after_write file at bytes.now (D.disk disk.old).told)) }
    ensures moments { LeavesOnly (D.time disk.old) (D.disk disk.old) (D.disk disk.new) (MayLeave (after_write file at bytes.now (D.disk disk.old).told)) }
    ensures others { but file (D.disk disk.new).told ≡ but file (D.disk disk.old).told }
    ensures line { D.line disk.new ≡ D.line disk.old }
    ensures room { D.room disk.new ≡ D.room disk.old }
    ensures time { D.time disk.old ≤ D.time disk.new }
    ensures cause { HasCause (D.disk disk.old).faults (D.disk disk.new).faults result }
    ensures sure { D.tells_room ≡ true → WritesSurely (at + length bytes.now) result (D.disk disk.old) (D.disk disk.new) }
{
    disk.write_at(file, at, bytes)?;
    disk.sync(file)
}

/// Cuts a file to a length, and syncs it. A crash at any moment of it leaves what the cut alone may leave.
pub fn cut_synced<D: Disk>(disk: &mut D, file: u8, len: u64) -> Result<(), Failed>
    requires { file ≤ 2 }
    ensures done { OnOk result ((D.disk disk.new).told ≡ after_sync file (after_cut file len (D.disk disk.old).told)) }
    ensures moments { LeavesOnly (D.time disk.old) (D.disk disk.old) (D.disk disk.new) (MayLeave (after_cut file len (D.disk disk.old).told)) }
    ensures others { but file (D.disk disk.new).told ≡ but file (D.disk disk.old).told }
    ensures line { D.line disk.new ≡ D.line disk.old }
    ensures room { D.room disk.new ≡ D.room disk.old }
    ensures time { D.time disk.old ≤ D.time disk.new }
    ensures cause { HasCause (D.disk disk.old).faults (D.disk disk.new).faults result }
    ensures sure { D.tells_room ≡ true → DoesSurely result (D.disk disk.old) (D.disk disk.new) }
{
    disk.cut(file, len)?;
    disk.sync(file)
}

/// Writes three texts one behind the other, and syncs the file. A crash at any moment of it leaves what the three writes
/// alone may leave.
pub fn write_three_synced<D: Disk>(
    disk: &mut D,
    file: u8,
    at: u64,
    first: &[u8],
    second: &[u8],
    third: &[u8],
) -> Result<(), Failed>
    requires file { file ≤ 2 }
    requires fits { at + length first.now + length second.now + length third.now < 2 ^ 64 }
    ensures done { OnOk result ((D.disk disk.new).told ≡ after_sync file (after_three file at first.now second.now third.now (D.disk disk.old).told)) }
    ensures moments { LeavesOnly (D.time disk.old) (D.disk disk.old) (D.disk disk.new) (MayLeave (after_three file at first.now second.now third.now (D.disk disk.old).told)) }
    ensures others { but file (D.disk disk.new).told ≡ but file (D.disk disk.old).told }
    ensures line { D.line disk.new ≡ D.line disk.old }
    ensures room { D.room disk.new ≡ D.room disk.old }
    ensures time { D.time disk.old ≤ D.time disk.new }
    ensures cause { HasCause (D.disk disk.old).faults (D.disk disk.new).faults result }
    ensures sure { D.tells_room ≡ true → WritesSurely (at + length first.now + length second.now + length third.now) result (D.disk disk.old) (D.disk disk.new) }
{
    let behind_first = at + first.len() as u64;
    let behind_second = behind_first + second.len() as u64;
    disk.write_at(file, at, first)?;
    disk.write_at(file, behind_first, second)?;
    disk.write_at(file, behind_second, third)?;
    disk.sync(file)
}
