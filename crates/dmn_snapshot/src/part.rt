//! The gate of a slot.

ghost use Rattle.std.specs.Prelude.{◌≡◌, ◌≤◌, true, IfOk};
ghost use Rattle.dmn_outside.specs.Changes.{OnlyReads, bytes_read};
ghost use Rattle.dmn_outside.specs.Counts.{HasCause};
ghost use Rattle.dmn_outside.specs.Disk.{IfReads, pick};
ghost use Rattle.dmn_outside.specs.Failing.{DoesSurely};
ghost use Rattle.dmn_snapshot.specs.Slot.{first_of, open_by, shut_by};

use dmn_outside::{Disk, Failed};

/// The first byte of a slot's file. None where the file is empty.
pub fn gate<D: Disk>(disk: &mut D, file: u8) -> Result<Option<u8>, Failed>
    requires some { 1 ≤ file }
    requires file { file ≤ 2 }
    ensures gate { IfOk result (λ gate. IfReads (D.disk disk.old).told (λ all. gate ≡ first_of (pick file all))) }
    ensures disk { OnlyReads (D.disk disk.old) (D.disk disk.new) }
    ensures read { bytes_read 0 (D.disk disk.new).told ≡ bytes_read 0 (D.disk disk.old).told }
    ensures line { D.line disk.new ≡ D.line disk.old }
    ensures room { D.room disk.new ≡ D.room disk.old }
    ensures time { D.time disk.old ≤ D.time disk.new }
    ensures cause { HasCause (D.disk disk.old).faults (D.disk disk.new).faults result }
    ensures sure { D.tells_room ≡ true → DoesSurely result (D.disk disk.old) (D.disk disk.new) }
{
    let mut bytes = [0; 1];
    let n = disk.read_at(file, 0, &mut bytes)?;
    if n == 0 { Ok(None) } else { Ok(Some(bytes[0])) }
}

pub fn open_by(gate: Option<u8>) -> bool
    ensures { result ≡ open_by gate }
{
    match gate {
        None => false,
        Some(byte) => byte == 1,
    }
}

pub fn shut_by(gate: Option<u8>) -> bool
    ensures { result ≡ shut_by gate }
{
    match gate {
        None => false,
        Some(byte) => byte != 1,
    }
}
