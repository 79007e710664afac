//! The whole run: a registry is made, all steps are taken, it is opened again, and seven lines are sent.

ghost use Rattle.std.specs.Prelude.{◌≡◌, ◌≤◌, true, IsErrOf};
ghost use Rattle.dmn_generator.specs.Blocks.{start};
ghost use Rattle.dmn_journal.specs.Create.{IsBlank, IsBlankDisk};
ghost use Rattle.dmn_journal.specs.Sure.{NeverFails};
ghost use Rattle.dmn_outside.specs.Changes.{OnlyReads};
ghost use Rattle.dmn_outside.specs.Counts.{Rose};
ghost use Rattle.dmn_outside.specs.Crashes.{IsKnown, LeavesOnly};
ghost use Rattle.dmn_outside.specs.Disk.{IfReads};
ghost use Rattle.dmn_outside.specs.Later.{IsLater};
ghost use Rattle.dmn_registry.specs.Machine.{Machine, begun};
ghost use Rattle.dmn_registry.specs.Opening.{Reading};
ghost use Rattle.dmn_registry.specs.Own.{IsBetween, IsOwn};
ghost use Rattle.dmn_make.specs.Going.{beginning};
ghost use Rattle.dmn_make.specs.Outcome.{EndsWell, IsOfRun, IsOnWay, Makes, OfMake};
ghost use Rattle.dmn_make.specs.Room.{EndsSurely, HasRoomForAll, Suffices};
ghost use Rattle.dmn_make.specs.Starting.{Ends, IsEnd, RunsAll};
ghost use Rattle.dmn_make.specs.Steps.{all_steps};

use crate::fault::MakeFault;
use crate::maker::Maker;
use crate::starting::{make_journal, open};
use crate::step::all_steps;
use crate::text::seven_lines;
use dmn_bytes::Bytes;
use dmn_outside::{Disk, Failed, Station, send_all};
use dmn_registry::Registry;
use dmn_status::Status;
use std::alloc::Global;

// The pages that were told. The registry is let go.
fn pages_of(maker: Maker) -> Bytes
    ensures { result ≡ maker.pages }
{
    maker.pages
}

// Opens the registry again, and tells what it is then.
fn finish<D: Disk>(alloc: Global, disk: &mut D, pages: &Bytes) -> Result<Bytes, MakeFault>
    ensures ends { D.tells ≡ true → (m : Machine) → IsEnd m (D.disk disk.old).told → Ends result m pages.now (D.disk disk.new).told }
    ensures moments { (m : Machine) → IsKnown (IsOwn m) (D.disk disk.old).told → LeavesOnly (D.time disk.old) (D.disk disk.old) (D.disk disk.new) (IsBetween m m) }
    ensures line { D.line disk.new ≡ D.line disk.old }
    ensures room { D.room disk.new ≡ D.room disk.old }
    ensures time { D.time disk.old ≤ D.time disk.new }
    ensures later { (D.disk disk.old).faults ≤ (D.disk disk.new).faults }
    ensures fault { IsErrOf result MakeFault.DiskFault → Rose (D.disk disk.old).faults (D.disk disk.new).faults }
    ensures sure { D.tells_room ≡ true → NeverFails result MakeFault.DiskFault (D.disk disk.old) (D.disk disk.new) }
{
    match Registry::open(alloc, disk) {
        Err(fault) => Err(MakeFault::from(fault)),
        Ok(registry) => {
            let audit = registry.summary();
            match seven_lines(alloc, &audit, registry.tail(), pages.as_slice()) {
                Ok(text) => Ok(text),
                Err(_) => Err(MakeFault::Memory),
            }
        }
    }
}

// Takes all steps, and tells what the registry is then.
fn run_all<D: Disk>(alloc: Global, disk: &mut D, count: u32) -> Result<Bytes, MakeFault>
    ensures runs { D.tells ≡ true → IsKnown (IsOwn (begun start)) (D.disk disk.old).told → RunsAll result count (D.disk disk.new).told }
    ensures moments { D.tells ≡ true → IsKnown (IsOwn (begun start)) (D.disk disk.old).told → LeavesOnly (D.time disk.old) (D.disk disk.old) (D.disk disk.new) (IsOnWay count) }
    ensures line { D.line disk.new ≡ D.line disk.old }
    ensures room { D.room disk.new ≡ D.room disk.old }
    ensures time { D.time disk.old ≤ D.time disk.new }
    ensures later { (D.disk disk.old).faults ≤ (D.disk disk.new).faults }
    ensures fault { IsErrOf result MakeFault.DiskFault → Rose (D.disk disk.old).faults (D.disk disk.new).faults }
    ensures sure { D.tells ≡ true → D.tells_room ≡ true → IsKnown (IsOwn (begun start)) (D.disk disk.old).told → HasRoomForAll count all_steps beginning (D.disk disk.old).room → NeverFails result MakeFault.DiskFault (D.disk disk.old) (D.disk disk.new) }
{
    let steps = all_steps(alloc)?;
    let mut maker = open(alloc, disk, count)?;
    maker.take_steps(alloc, disk, &steps)?;
    let pages = pages_of(maker);
    finish(alloc, disk, &pages)
}

/// Makes the stream with so many masternodes, runs it through a registry that it makes, and sends a summary.
pub fn make<T: Station>(alloc: Global, count: u32, station: &mut T) -> Status
    // What was sent and is on the disk, by the status.
    ensures outcome { T.tells ≡ true → Makes result count (T.disk station.old) (T.disk station.new) (T.line station.old).talk (T.line station.new).talk }
    ensures status { OfMake result }

    // Where file 0 is not blank nothing is written, however it ends.
    ensures kept { Reading (λ all. ¬ IsBlank all.zeroth) (T.disk station.old).told → OnlyReads (T.disk station.old) (T.disk station.new) }

    // Where each image was blank, a crash at any moment leaves a blank one, or one that is own with a front of the run's commands.
    ensures moments { T.tells ≡ true → IsBlankDisk (T.disk station.old).told → LeavesOnly (T.time station.old) (T.disk station.old) (T.disk station.new) (IsOfRun count) }

    // On a blank disk, and where no count rose, the end is Done or Memory.
    ensures complete { T.tells ≡ true → IfReads (T.disk station.old).told (λ all. IsBlank all.zeroth)
        → ¬ Rose (T.disk station.old).faults (T.disk station.new).faults → ¬ Rose (T.line station.old).faults (T.line station.new).faults → EndsWell result }

    // Nothing is taken. No count falls, time doesn't fall, and each byte that is sent has a moment of this run.
    ensures later { IsLater T.tells_moments (T.time station.old) (T.time station.new) (T.line station.old) (T.line station.new) }

    // A fault comes only where its count rose.
    ensures line_fault { result ≡ Status.LineFault → Rose (T.line station.old).faults (T.line station.new).faults }
    ensures disk_fault { result ≡ Status.DiskFault → Rose (T.disk station.old).faults (T.disk station.new).faults }
    ensures disk_later { (T.disk station.old).faults ≤ (T.disk station.new).faults }

    // Over a station that tells how many bytes more may be sent and how long a file may be, where that is enough for the text, for the
    // journal before each step with what that asks for, and for a snapshot there: no count of faults rises, and on a blank disk the
    // end is Done or Memory.
    ensures sure { T.tells ≡ true → T.tells_room ≡ true → Suffices count (T.room station.old) (T.disk station.old).room → EndsSurely result (T.disk station.old) (T.disk station.new) (T.line station.old) (T.line station.new) }
{
    match make_journal(alloc, station) {
        Err(status) => status,
        Ok(()) => match run_all(alloc, station, count) {
            Err(MakeFault::Memory) => Status::Memory,
            Err(MakeFault::DiskFault) => Status::DiskFault,
            Err(MakeFault::NotJournal { at }) => Status::NotJournal { at },
            Ok(text) => match send_all(station, text.as_slice()) {
                Ok(()) => Status::Done,
                Err(Failed) => Status::LineFault,
            },
        },
    }
}
