//! The records of file 0, one after another.

ghost use Rattle.std.specs.Prelude.{◌≡◌, ◌+◌, ◌-◌, ◌<◌, ◌≤◌, ◌^◌, length, true, IfOk, IfSome, IsErrOf};
ghost use Rattle.dmn_outside.specs.Changes.{OnlyReads, bytes_read};
ghost use Rattle.dmn_outside.specs.Counts.{Rose};
ghost use Rattle.dmn_journal.specs.Reading.{entry_departs};
ghost use Rattle.dmn_journal.specs.Reads.{Contents, Gates, Nexts, Sizeds, record_size};
ghost use Rattle.dmn_journal.specs.Sure.{NeverFails};

use crate::fault::JournalFault;
use crate::limits::{CONNECT, DISCONNECT, LONGEST_BODY};
use crate::text::{read_front, read_text, size_of};
use dmn_bytes::Bytes;
use dmn_outside::Disk;
use std::alloc::Global;

/// A record as it is read.
#[derive(Drop)]
pub struct JournalEntry {
    pub kind: u8,
    pub body: Bytes,
}

// Where a kind and a body depart from their form, counted from the kind.
#[tactic(auto, unfolding(crate::specs::Reading::entry_departs))]
fn entry_departs(kind: u8, body: &[u8]) -> Option<u64>
    ensures is { result ≡ entry_departs (record { kind = kind; body = body.now }) }
    ensures few { IfSome result (λ place. place ≤ 33) }
{
    if kind == CONNECT {
        if body.len() > LONGEST_BODY {
            Some(1)
        } else {
            None
        }
    } else if kind == DISCONNECT {
        if body.len() < 32 {
            Some(1)
        } else if body.len() > 32 {
            Some(33)
        } else {
            None
        }
    } else {
        Some(0)
    }
}

// What stands behind an open gate and this length, and the place behind it.
fn content<D: Disk>(
    alloc: Global,
    disk: &mut D,
    at: u64,
    size: u32,
) -> Result<(JournalEntry, u64), JournalFault>
    requires { at < 2 ^ 62 }
    ensures contents { Contents result (D.disk disk.old).told at size }
    ensures disk { OnlyReads (D.disk disk.old) (D.disk disk.new) }
    ensures read { bytes_read 0 (D.disk disk.new).told ≤ bytes_read 0 (D.disk disk.old).told + size }
    ensures line { D.line disk.new ≡ D.line disk.old }
    ensures room { D.room disk.new ≡ D.room disk.old }
    ensures time { D.time disk.old ≤ D.time disk.new }
    ensures later { (D.disk disk.old).faults ≤ (D.disk disk.new).faults }
    ensures fault { IsErrOf result JournalFault.DiskFault → Rose (D.disk disk.old).faults (D.disk disk.new).faults }
    ensures sure { D.tells_room ≡ true → NeverFails result JournalFault.DiskFault (D.disk disk.old) (D.disk disk.new) }
{
    let text = read_text(alloc, disk, at + 5, size)?;
    if text.len() < size as usize {
        return Err(JournalFault::NotJournal { at: at + 5 });
    }
    match text.as_slice() {
        [] => Err(JournalFault::NotJournal { at: at + 5 }),
        [kind, body @ ..] => match entry_departs(*kind, body) {
            Some(place) => Err(JournalFault::NotJournal { at: at + 5 + place }),
            None => match Bytes::from_slice(alloc, body) {
                Ok(copied) => Ok((
                    JournalEntry {
                        kind: *kind,
                        body: copied,
                    },
                    at + 5 + u64::from(size),
                )),
                Err(_) => Err(JournalFault::Memory),
            },
        },
    }
}

// The record behind an open gate at this place, and the place behind it.
fn record_behind<D: Disk>(
    alloc: Global,
    disk: &mut D,
    at: u64,
) -> Result<(JournalEntry, u64), JournalFault>
    requires { at < 2 ^ 62 }
    ensures sizeds { Sizeds result (D.disk disk.old).told at }
    ensures disk { OnlyReads (D.disk disk.old) (D.disk disk.new) }
    ensures read { IfOk result (λ r. bytes_read 0 (D.disk disk.new).told ≤ bytes_read 0 (D.disk disk.old).told + (r.1 - at - 1)) }
    ensures line { D.line disk.new ≡ D.line disk.old }
    ensures room { D.room disk.new ≡ D.room disk.old }
    ensures time { D.time disk.old ≤ D.time disk.new }
    ensures later { (D.disk disk.old).faults ≤ (D.disk disk.new).faults }
    ensures fault { IsErrOf result JournalFault.DiskFault → Rose (D.disk disk.old).faults (D.disk disk.new).faults }
    ensures sure { D.tells_room ≡ true → NeverFails result JournalFault.DiskFault (D.disk disk.old) (D.disk disk.new) }
{
    let mut sizes = [0; 4];
    let n = read_front(disk, at + 1, &mut sizes)?;
    if n < 4 {
        return Err(JournalFault::NotJournal { at: at + 1 });
    }
    match content(alloc, disk, at, size_of(&sizes)) {
        Ok(read) => Ok(read),
        Err(fault) => Err(fault),
    }
}

/// What a gate says.
#[derive(Clone, Copy, Debug, PartialEq, Eq)]
pub enum Gate {
    /// The file ends where the gate is due.
    Missing,
    /// It isn't 1.
    Closed,
    /// It is 1.
    Open,
}

fn gate_of(gate: &[u8]) -> Gate
    requires { length gate.now ≤ 1 }
    ensures { Gates result gate.now }
{
    match gate {
        [] => Gate::Missing,
        [gate, ..] => { if *gate == 1 { Gate::Open } else { Gate::Closed } }
    }
}

/// The record at a gate's place, and the place of the next gate. None exactly where the gate isn't 1.
pub fn next<D: Disk>(
    alloc: Global,
    disk: &mut D,
    at: u64,
) -> Result<Option<(JournalEntry, u64)>, JournalFault>
    requires { at < 2 ^ 62 }
    ensures nexts { Nexts result (D.disk disk.old).told at }
    ensures disk { OnlyReads (D.disk disk.old) (D.disk disk.new) }

    // Of the file no more is read than the gate, or the record and its gate.
    ensures read { IfOk result (λ r. bytes_read 0 (D.disk disk.new).told ≤ bytes_read 0 (D.disk disk.old).told + record_size at r) }
    ensures line { D.line disk.new ≡ D.line disk.old }
    ensures room { D.room disk.new ≡ D.room disk.old }
    ensures time { D.time disk.old ≤ D.time disk.new }
    ensures later { (D.disk disk.old).faults ≤ (D.disk disk.new).faults }
    ensures fault { IsErrOf result JournalFault.DiskFault → Rose (D.disk disk.old).faults (D.disk disk.new).faults }
    ensures sure { D.tells_room ≡ true → NeverFails result JournalFault.DiskFault (D.disk disk.old) (D.disk disk.new) }
{
    let mut gate = [0; 1];
    let n = read_front(disk, at, &mut gate)?;
    match gate_of(&gate[..n]) {
        Gate::Missing => Err(JournalFault::NotJournal { at }),
        Gate::Closed => Ok(None),
        Gate::Open => match record_behind(alloc, disk, at) {
            Ok(read) => Ok(Some(read)),
            Err(fault) => Err(fault),
        },
    }
}
