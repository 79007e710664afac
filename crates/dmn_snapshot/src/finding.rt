//! The newest of two slots.

ghost use Rattle.std.specs.Prelude.{◌≡◌, ◌+◌, ◌<◌, ◌≤◌, ◌^◌, length, take, drop, true, IfOk, IfSome, IsErrOf};
ghost use Rattle.dmn_outside.specs.Changes.{OnlyReads, bytes_read};
ghost use Rattle.dmn_outside.specs.Counts.{Rose};
ghost use Rattle.dmn_outside.specs.Disk.{IfReads, pick};
ghost use Rattle.dmn_snapshot.specs.Slot.{IsBounded, newer, newest_in, slot_in};
ghost use Rattle.dmn_snapshot.specs.Sure.{NeverFails};

use crate::fault::SnapFault;
use crate::part::{gate, open_by};
use crate::slot::{Slot, Stored, stored_behind};
use dmn_bytes::Memory;
use dmn_outside::Disk;
use std::alloc::Global;

// What stands behind the gate of a file of this size.
fn read_behind<D: Disk>(
    alloc: Global,
    disk: &mut D,
    file: u8,
    size: u64,
) -> Result<Vec<u8>, SnapFault>
    requires some { 1 ≤ file }
    requires file { file ≤ 2 }
    requires fits { 1 + size < 2 ^ 64 }
    ensures text { IfOk result (λ text. IfReads (D.disk disk.old).told (λ all. text.items ≡ take size (drop 1 (pick file all)))) }
    ensures disk { OnlyReads (D.disk disk.old) (D.disk disk.new) }
    ensures read { bytes_read 0 (D.disk disk.new).told ≡ bytes_read 0 (D.disk disk.old).told }
    ensures line { D.line disk.new ≡ D.line disk.old }
    ensures room { D.room disk.new ≡ D.room disk.old }
    ensures time { D.time disk.old ≤ D.time disk.new }
    ensures later { (D.disk disk.old).faults ≤ (D.disk disk.new).faults }
    ensures fault { IsErrOf result SnapFault.DiskFault → Rose (D.disk disk.old).faults (D.disk disk.new).faults }
    ensures sure { D.tells_room ≡ true → NeverFails result SnapFault.DiskFault (D.disk disk.old) (D.disk disk.new) }
{
    let mut text = vec![in alloc; 0u8; size as usize].map_err(|_| Memory)?;
    let n = disk.read_at(file, 1, text.as_mut_slice())?;
    text.truncate(n);
    Ok(text)
}

// What a slot's file holds. Nothing behind a closed gate is read.
fn read_slot<D: Disk>(alloc: Global, disk: &mut D, file: u8) -> Result<Option<Stored>, SnapFault>
    requires some { 1 ≤ file }
    requires file { file ≤ 2 }
    ensures slot { IfOk result (λ stored. IfReads (D.disk disk.old).told (λ all. stored ≡ slot_in (pick file all))) }
    ensures bounds { IfOk result (λ stored. IfSome stored IsBounded) }
    ensures disk { OnlyReads (D.disk disk.old) (D.disk disk.new) }
    ensures read { bytes_read 0 (D.disk disk.new).told ≡ bytes_read 0 (D.disk disk.old).told }
    ensures line { D.line disk.new ≡ D.line disk.old }
    ensures room { D.room disk.new ≡ D.room disk.old }
    ensures time { D.time disk.old ≤ D.time disk.new }
    ensures later { (D.disk disk.old).faults ≤ (D.disk disk.new).faults }
    ensures fault { IsErrOf result SnapFault.DiskFault → Rose (D.disk disk.old).faults (D.disk disk.new).faults }
    ensures sure { D.tells_room ≡ true → NeverFails result SnapFault.DiskFault (D.disk disk.old) (D.disk disk.new) }
{
    let byte = gate(disk, file)?;
    if !open_by(byte) {
        return Ok(None);
    }
    let size = disk.size(file)?;
    if size == 0 {
        return Ok(None);
    }
    let text = read_behind(alloc, disk, file, size - 1)?;
    match stored_behind(alloc, text.as_slice()) {
        Ok(stored) => Ok(stored),
        Err(_) => Err(SnapFault::Memory),
    }
}

fn newer(first: Option<Stored>, second: Option<Stored>) -> Option<Slot>
    ensures is { result ≡ newer first second }
    ensures bounds { IfSome first IsBounded → IfSome second IsBounded → IfSome result (λ slot. IsBounded slot.stored) }
{
    match first {
        None => match second {
            None => None,
            Some(b) => Some(Slot {
                number: 2,
                stored: b,
            }),
        },
        Some(a) => match second {
            None => Some(Slot {
                number: 1,
                stored: a,
            }),
            Some(b) => {
                if a.sequence < b.sequence {
                    Some(Slot {
                        number: 2,
                        stored: b,
                    })
                } else {
                    Some(Slot {
                        number: 1,
                        stored: a,
                    })
                }
            }
        },
    }
}

/// The valid slot with the greatest sequence number, slot 1 where both have the same. None exactly where no slot is valid, with
/// a text in its form. Nothing of file 0 is read.
pub fn newest<D: Disk>(alloc: Global, disk: &mut D) -> Result<Option<Slot>, SnapFault>
    ensures newest { IfOk result (λ slot. IfReads (D.disk disk.old).told (λ all. slot ≡ newest_in all)) }

    // Its numbers keep their bounds, whatever the disk tells.
    ensures bounds { IfOk result (λ slot. IfSome slot (λ slot. IsBounded slot.stored)) }
    ensures disk { OnlyReads (D.disk disk.old) (D.disk disk.new) }
    ensures read { bytes_read 0 (D.disk disk.new).told ≡ bytes_read 0 (D.disk disk.old).told }
    ensures line { D.line disk.new ≡ D.line disk.old }
    ensures room { D.room disk.new ≡ D.room disk.old }
    ensures time { D.time disk.old ≤ D.time disk.new }
    ensures later { (D.disk disk.old).faults ≤ (D.disk disk.new).faults }

    // DiskFault comes only where the count of disk faults rose.
    ensures fault { IsErrOf result SnapFault.DiskFault → Rose (D.disk disk.old).faults (D.disk disk.new).faults }

    // A disk that tells its room does not fail.
    ensures sure { D.tells_room ≡ true → NeverFails result SnapFault.DiskFault (D.disk disk.old) (D.disk disk.new) }
{
    let first = read_slot(alloc, disk, 1)?;
    let second = read_slot(alloc, disk, 2)?;
    Ok(newer(first, second))
}
