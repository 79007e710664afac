//! The header of file 0.

ghost use Rattle.std.specs.Prelude.{◌≡◌, ◌+◌, ◌<◌, ◌≤◌, ◌^◌, length, true, IfOk, IsErrOf};
ghost use Rattle.std.specs.Str.{bytes_eq};
ghost use Rattle.dmn_outside.specs.Changes.{OnlyReads, bytes_read};
ghost use Rattle.dmn_outside.specs.Counts.{HasCause, Rose};
ghost use Rattle.dmn_outside.specs.Failing.{DoesSurely};
ghost use Rattle.dmn_journal.specs.Reads.{Heads, IsPrefix, Prefixes};
ghost use Rattle.dmn_journal.specs.Sure.{NeverFails};

use crate::fault::JournalFault;
use crate::limits::MAGIC;
use crate::text::{read_front, read_text, size_of};
use dmn_outside::{Disk, Failed};
use dmn_rows::{StartFault, StartRecord, read_start};
use std::alloc::Global;

fn same_bytes(left: &[u8], right: &[u8]) -> bool
    ensures { result ≡ bytes_eq left.now right.now }
{
    left == right
}

/// What stands before a start record.
#[derive(Clone, Copy, Debug, PartialEq, Eq)]
pub enum Prefix {
    /// It departs from a header's form at this place.
    DepartsAt(u64),
    /// An open gate, the magic and this length.
    Of(u32),
}

fn read_prefix<D: Disk>(disk: &mut D) -> Result<Prefix, Failed>
    ensures prefix { Prefixes result (D.disk disk.old).told }
    ensures disk { OnlyReads (D.disk disk.old) (D.disk disk.new) }
    ensures read { bytes_read 0 (D.disk disk.new).told ≤ bytes_read 0 (D.disk disk.old).told + 12 }
    ensures line { D.line disk.new ≡ D.line disk.old }
    ensures room { D.room disk.new ≡ D.room disk.old }
    ensures time { D.time disk.old ≤ D.time disk.new }
    ensures cause { HasCause (D.disk disk.old).faults (D.disk disk.new).faults result }
    ensures sure { D.tells_room ≡ true → DoesSurely result (D.disk disk.old) (D.disk disk.new) }
{
    let mut gate = [0; 1];
    let n = read_front(disk, 0, &mut gate)?;
    if !same_bytes(&gate[..n], &[1]) {
        return Ok(Prefix::DepartsAt(0));
    }
    let mut magic = [0; 7];
    let m = read_front(disk, 1, &mut magic)?;
    if !same_bytes(&magic[..m], &MAGIC) {
        return Ok(Prefix::DepartsAt(1));
    }
    let mut sizes = [0; 4];
    let k = read_front(disk, 8, &mut sizes)?;
    if k < 4 {
        return Ok(Prefix::DepartsAt(8));
    }
    Ok(Prefix::Of(size_of(&sizes)))
}

// The start record of this length, and the place behind it.
fn start_behind<D: Disk>(
    alloc: Global,
    disk: &mut D,
    size: u32,
) -> Result<(StartRecord, u64), JournalFault>
    ensures heads { IsPrefix (D.disk disk.old).told size → Heads result (D.disk disk.old).told }
    ensures disk { OnlyReads (D.disk disk.old) (D.disk disk.new) }
    ensures read { IfOk result (λ r. bytes_read 0 (D.disk disk.new).told + 12 ≤ bytes_read 0 (D.disk disk.old).told + r.1) }
    ensures line { D.line disk.new ≡ D.line disk.old }
    ensures room { D.room disk.new ≡ D.room disk.old }
    ensures time { D.time disk.old ≤ D.time disk.new }
    ensures later { (D.disk disk.old).faults ≤ (D.disk disk.new).faults }
    ensures fault { IsErrOf result JournalFault.DiskFault → Rose (D.disk disk.old).faults (D.disk disk.new).faults }
    ensures sure { D.tells_room ≡ true → NeverFails result JournalFault.DiskFault (D.disk disk.old) (D.disk disk.new) }
{
    let text = read_text(alloc, disk, 12, size)?;
    if text.len() < size as usize {
        return Err(JournalFault::NotJournal { at: 12 });
    }
    match read_start(alloc, text.as_slice()) {
        Ok(start) => Ok((start, 12 + u64::from(size))),
        Err(StartFault::StartForm { at }) => Err(JournalFault::NotJournal { at: 12 + at as u64 }),
        Err(StartFault::Memory) => Err(JournalFault::Memory),
    }
}

/// The header, and the place behind it.
pub fn header<D: Disk>(alloc: Global, disk: &mut D) -> Result<(StartRecord, u64), JournalFault>
    ensures heads { Heads result (D.disk disk.old).told }
    ensures disk { OnlyReads (D.disk disk.old) (D.disk disk.new) }

    // Of the file no more is read than the header.
    ensures read { IfOk result (λ r. bytes_read 0 (D.disk disk.new).told ≤ bytes_read 0 (D.disk disk.old).told + r.1) }
    ensures line { D.line disk.new ≡ D.line disk.old }
    ensures room { D.room disk.new ≡ D.room disk.old }
    ensures time { D.time disk.old ≤ D.time disk.new }
    ensures later { (D.disk disk.old).faults ≤ (D.disk disk.new).faults }
    ensures fault { IsErrOf result JournalFault.DiskFault → Rose (D.disk disk.old).faults (D.disk disk.new).faults }
    ensures sure { D.tells_room ≡ true → NeverFails result JournalFault.DiskFault (D.disk disk.old) (D.disk disk.new) }
{
    match read_prefix(disk)? {
        Prefix::DepartsAt(at) => Err(JournalFault::NotJournal { at }),
        Prefix::Of(size) => start_behind(alloc, disk, size),
    }
}
