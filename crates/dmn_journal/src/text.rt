//! Bytes of file 0.

ghost use Rattle.std.specs.Prelude.{◌≡◌, ◌+◌, ◌<◌, ◌≤◌, ◌^◌, length, take, drop, true, IfOk, IsErrOf};
ghost use Rattle.std.specs.Int.{w32, from_le_bytes, to_le_bytes};
ghost use Rattle.dmn_outside.specs.Changes.{OnlyReads, bytes_read};
ghost use Rattle.dmn_outside.specs.Counts.{HasCause, Rose};
ghost use Rattle.dmn_outside.specs.Disk.{IfReads};
ghost use Rattle.dmn_outside.specs.Failing.{DoesSurely};
ghost use Rattle.dmn_journal.specs.Sure.{NeverFails};

use crate::fault::TextFault;
use dmn_bytes::Bytes;
use dmn_outside::{Disk, Failed};
use std::alloc::Global;

/// The bytes from this place on, as many as there are and have room, and their number.
pub fn read_front<D: Disk>(disk: &mut D, at: u64, buffer: &mut [u8]) -> Result<usize, Failed>
    requires { at + length buffer.old < 2 ^ 64 }
    ensures most { IfOk result (λ n. n ≤ length buffer.old) }
    ensures text { IfOk result (λ n. IfReads (D.disk disk.old).told (λ all. take n buffer.new ≡ take (length buffer.old) (drop at all.zeroth))) }
    ensures disk { OnlyReads (D.disk disk.old) (D.disk disk.new) }
    ensures read { bytes_read 0 (D.disk disk.new).told ≤ bytes_read 0 (D.disk disk.old).told + length buffer.old }
    ensures line { D.line disk.new ≡ D.line disk.old }
    ensures room { D.room disk.new ≡ D.room disk.old }
    ensures time { D.time disk.old ≤ D.time disk.new }
    ensures cause { HasCause (D.disk disk.old).faults (D.disk disk.new).faults result }
    ensures sure { D.tells_room ≡ true → DoesSurely result (D.disk disk.old) (D.disk disk.new) }
{
    disk.read_at(0, at, buffer)
}

/// The length that four bytes say.
#[tactic(auto, using(crate::proofs::Heads::size_back))]
pub fn size_of(bytes: &[u8]) -> u32
    requires { length bytes.now ≡ 4 }
    ensures is { result ≡ from_le_bytes w32 bytes.now }
    ensures back { to_le_bytes w32 result ≡ bytes.now }
{
    u32::from_le_bytes([bytes[0], bytes[1], bytes[2], bytes[3]])
}

/// How many bytes are read at once.
const PIECE: u32 = 4096;

/// So many bytes from this place on, or as many as are there.
pub fn read_text<D: Disk>(
    alloc: Global,
    disk: &mut D,
    at: u64,
    len: u32,
) -> Result<Bytes, TextFault>
    requires { at < 2 ^ 63 }
    ensures text { IfOk result (λ text. IfReads (D.disk disk.old).told (λ all. text ≡ take len (drop at all.zeroth))) }
    ensures size { IfOk result (λ text. length text ≤ len) }
    ensures disk { OnlyReads (D.disk disk.old) (D.disk disk.new) }
    ensures read { bytes_read 0 (D.disk disk.new).told ≤ bytes_read 0 (D.disk disk.old).told + len }
    ensures line { D.line disk.new ≡ D.line disk.old }
    ensures room { D.room disk.new ≡ D.room disk.old }
    ensures time { D.time disk.old ≤ D.time disk.new }
    ensures later { (D.disk disk.old).faults ≤ (D.disk disk.new).faults }
    ensures fault { IsErrOf result TextFault.DiskFault → Rose (D.disk disk.old).faults (D.disk disk.new).faults }
    ensures sure { D.tells_room ≡ true → NeverFails result TextFault.DiskFault (D.disk disk.old) (D.disk disk.new) }
{
    let mut buffer = [0; 4096];
    let mut text = Bytes::new(alloc);
    let mut done: u32 = 0;
    'read: while done < len {
        let room = (len - done).min(PIECE);
        let n = disk.read_at(0, at + u64::from(done), &mut buffer[..room as usize])?;
        text.extend(&buffer[..n])?;
        if n < room as usize {
            return Ok(text);
        }
        done += room;
    }
    Ok(text)
}
