//! A registry of the stream's start record is made, and opened.

ghost use Rattle.std.specs.Prelude.{◌≡◌, ◌+◌, ◌≤◌, Err, false, true, length, IfOk, IsErrOf};
ghost use Rattle.dmn_generator.specs.Blocks.{start};
ghost use Rattle.dmn_journal.specs.Create.{IsBlank, IsBlankDisk};
ghost use Rattle.dmn_journal.specs.Sure.{NeverFails};
ghost use Rattle.dmn_outside.specs.Changes.{OnlyReads};
ghost use Rattle.dmn_outside.specs.Counts.{Rose};
ghost use Rattle.dmn_outside.specs.Crashes.{IsKnown, LeavesOnly};
ghost use Rattle.dmn_registry.specs.Machine.{begun};
ghost use Rattle.dmn_registry.specs.Opening.{Reading};
ghost use Rattle.dmn_registry.specs.Own.{IsBetween, IsOwn};
ghost use Rattle.dmn_rows.specs.Defs.{start_text};
ghost use Rattle.dmn_make.specs.Starting.{HasMade, IsBlankOrBegun, Opened};

use crate::fault::MakeFault;
use crate::maker::Maker;
use dmn_bytes::Bytes;
use dmn_generator::start_text;
use dmn_init::{is_blank, make};
use dmn_office::Office;
use dmn_outside::{Disk, Failed};
use dmn_status::Status;
use std::alloc::Global;

/// Makes the journal of the stream's start record, where file 0 is blank.
pub fn make_journal<D: Disk>(alloc: Global, disk: &mut D) -> Result<(), Status>
    ensures made { HasMade result (D.disk disk.old) (D.disk disk.new) }

    // Where file 0 is not blank nothing is written.
    ensures kept { Reading (λ all. ¬ IsBlank all.zeroth) (D.disk disk.old).told → OnlyReads (D.disk disk.old) (D.disk disk.new) }
    ensures moments { IsBlankDisk (D.disk disk.old).told → LeavesOnly (D.time disk.old) (D.disk disk.old) (D.disk disk.new) IsBlankOrBegun }
    ensures line { D.line disk.new ≡ D.line disk.old }
    ensures room { D.room disk.new ≡ D.room disk.old }
    ensures time { D.time disk.old ≤ D.time disk.new }
    ensures later { (D.disk disk.old).faults ≤ (D.disk disk.new).faults }
    ensures fault { result ≡ Err Status.DiskFault → Rose (D.disk disk.old).faults (D.disk disk.new).faults }
    ensures sure { D.tells_room ≡ true → 13 + length (start_text start) ≤ (D.disk disk.old).room → NeverFails result Status.DiskFault (D.disk disk.old) (D.disk disk.new) }
{
    match is_blank(disk) {
        Err(Failed) => Err(Status::DiskFault),
        Ok(false) => Err(Status::AlreadyInit),
        Ok(true) => {
            let Ok(text) = start_text(alloc) else {
                return Err(Status::Memory);
            };
            match make(alloc, disk, text.as_slice()) {
                Status::Done => Ok(()),
                status => Err(status),
            }
        }
    }
}

/// Opens the registry that was made, for a run with so many masternodes.
pub fn open<D: Disk>(alloc: Global, disk: &mut D, count: u32) -> Result<Maker, MakeFault>
    ensures opened { D.tells ≡ true → IsKnown (IsOwn (begun start)) (D.disk disk.old).told → Opened result (D.disk disk.new).told }
    ensures count { IfOk result (λ maker. maker.count ≡ count) }
    ensures usable { IfOk result (λ maker. maker.office.registry.spent ≡ false) }
    ensures moments { IsKnown (IsOwn (begun start)) (D.disk disk.old).told → LeavesOnly (D.time disk.old) (D.disk disk.old) (D.disk disk.new) (IsBetween (begun start) (begun start)) }
    ensures line { D.line disk.new ≡ D.line disk.old }
    ensures room { D.room disk.new ≡ D.room disk.old }
    ensures time { D.time disk.old ≤ D.time disk.new }
    ensures later { (D.disk disk.old).faults ≤ (D.disk disk.new).faults }
    ensures fault { IsErrOf result MakeFault.DiskFault → Rose (D.disk disk.old).faults (D.disk disk.new).faults }
    ensures sure { D.tells_room ≡ true → NeverFails result MakeFault.DiskFault (D.disk disk.old) (D.disk disk.new) }
{
    match Office::open(alloc, disk) {
        Err(fault) => Err(MakeFault::from(fault)),
        Ok(office) => Ok(Maker {
            office,
            count,
            pages: Bytes::new(alloc),
        }),
    }
}
