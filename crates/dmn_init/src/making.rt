//! The start record is read from the line, and the journal's header is written.

ghost use Rattle.std.specs.Prelude.{◌≡◌, ◌+◌, ◌<◌, ◌≤◌, ◌^◌, true, length, IfOk};
ghost use Rattle.dmn_outside.specs.Changes.{OnlyReads};
ghost use Rattle.dmn_outside.specs.Counts.{HasCause, Rose};
ghost use Rattle.dmn_outside.specs.Crashes.{LeavesOnly};
ghost use Rattle.dmn_outside.specs.Disk.{IfReads};
ghost use Rattle.dmn_outside.specs.Failing.{DoesSurely};
ghost use Rattle.dmn_outside.specs.Later.{IsQuiet};
ghost use Rattle.dmn_journal.specs.Create.{IsBlank, IsBlankDisk};
ghost use Rattle.dmn_registry.specs.Opening.{Reading};
ghost use Rattle.dmn_rows.specs.Defs.{IsStartText};
ghost use Rattle.dmn_rows.specs.declared.start.StartRecord.{StartRecord};
ghost use Rattle.dmn_init.specs.Init.{Blanks, ComesBefore, EndsWell, Inits, IsBlankOrMade, MakesSurely, Makes, NeverFaults, OfInit, OfMaking};
ghost use Rattle.dmn_init.specs.declared.input.TheConstants.{MOST_READ};

use crate::input::{InputFault, read_input};
use dmn_journal::create;
use dmn_outside::{Disk, DiskFault, Failed, Station};
use dmn_rows::{StartFault, read_start};
use dmn_status::Status;
use std::alloc::Global;

/// Whether file 0 is blank, so that a registry may be made.
pub fn is_blank<D: Disk>(disk: &mut D) -> Result<bool, Failed>
    ensures blank { IfOk result (λ blank. IfReads (D.disk disk.old).told (λ all. Blanks blank all.zeroth)) }
    ensures disk { OnlyReads (D.disk disk.old) (D.disk disk.new) }
    ensures line { D.line disk.new ≡ D.line disk.old }
    ensures room { D.room disk.new ≡ D.room disk.old }
    ensures time { D.time disk.old ≤ D.time disk.new }
    ensures cause { HasCause (D.disk disk.old).faults (D.disk disk.new).faults result }
    ensures sure { D.tells_room ≡ true → DoesSurely result (D.disk disk.old) (D.disk disk.new) }
{
    let mut front = [0; 2];
    let n = disk.read_at(0, 0, &mut front)?;
    Ok(n < 2 || front[0] != 1)
}

/// Makes the journal of the start record whose text this is.
pub fn make<D: Disk>(alloc: Global, disk: &mut D, text: &[u8]) -> Status
    requires { length text.now ≤ MOST_READ }
    ensures makes { Makes result text.now (D.disk disk.new).told }
    ensures status { OfMaking result }
    ensures before { ComesBefore result → D.disk disk.new ≡ D.disk disk.old }
    ensures moments { IsBlankDisk (D.disk disk.old).told → LeavesOnly (D.time disk.old) (D.disk disk.old) (D.disk disk.new) (IsBlankOrMade true text.now) }
    ensures line { D.line disk.new ≡ D.line disk.old }
    ensures room { D.room disk.new ≡ D.room disk.old }
    ensures time { D.time disk.old ≤ D.time disk.new }
    ensures later { (D.disk disk.old).faults ≤ (D.disk disk.new).faults }
    ensures fault { result ≡ Status.DiskFault → Rose (D.disk disk.old).faults (D.disk disk.new).faults }
    ensures sure { D.tells_room ≡ true → 13 + length text.now ≤ (D.disk disk.old).room → MakesSurely result (D.disk disk.old) (D.disk disk.new) }
{
    match read_start(alloc, text) {
        Err(StartFault::StartForm { at }) => Status::StartForm { at },
        Err(StartFault::Memory) => Status::Memory,
        Ok(_) => match create(disk, text) {
            Ok(()) => Status::Done,
            Err(DiskFault) => Status::DiskFault,
        },
    }
}

/// Makes a registry from the start record that is the input. Nothing is sent.
pub fn init<T: Station>(alloc: Global, station: &mut T) -> Status
    // What was read and made, by the status, where it is told.
    ensures outcome { T.tells ≡ true → Inits result (T.disk station.old) (T.disk station.new) (T.line station.old).talk (T.line station.new).talk }
    ensures status { OfInit result }

    // What comes before the first write leaves the files as they were.
    ensures before { ComesBefore result → OnlyReads (T.disk station.old) (T.disk station.new) }

    // Where file 0 is not blank nothing is written, however it ends.
    ensures kept { Reading (λ all. ¬ IsBlank all.zeroth) (T.disk station.old).told → OnlyReads (T.disk station.old) (T.disk station.new) }

    // Where each image was blank, a crash at any moment leaves a blank one, or one that is own, with the input's start
    // record and no command.
    ensures moments { IsBlankDisk (T.disk station.old).told → LeavesOnly (T.time station.old) (T.disk station.old) (T.disk station.new) (IsBlankOrMade T.tells (T.line station.old).talk.left) }

    // On a blank disk, with a start record as the input, and where no count rose, the end is Done or Memory.
    ensures complete { T.tells ≡ true → IfReads (T.disk station.old).told (λ all. IsBlank all.zeroth) → (start : StartRecord) → IsStartText (T.line station.old).talk.left start
        → ¬ Rose (T.disk station.old).faults (T.disk station.new).faults → ¬ Rose (T.line station.old).faults (T.line station.new).faults → EndsWell result }

    // Nothing is sent.
    ensures quiet { IsQuiet T.tells_moments (T.time station.old) (T.time station.new) (T.line station.old) (T.line station.new) }

    // A fault comes only where its count rose, and not over a station that tells its room and has as much.
    ensures line_fault { result ≡ Status.LineFault → Rose (T.line station.old).faults (T.line station.new).faults }
    ensures disk_fault { result ≡ Status.DiskFault → Rose (T.disk station.old).faults (T.disk station.new).faults }
    ensures disk_later { (T.disk station.old).faults ≤ (T.disk station.new).faults }
    ensures sure { T.tells ≡ true → T.tells_room ≡ true → 13 + length (T.line station.old).talk.left ≤ (T.disk station.old).room → NeverFaults result (T.disk station.old) (T.disk station.new) (T.line station.old) (T.line station.new) }
{
    match is_blank(station) {
        Err(Failed) => Status::DiskFault,
        Ok(false) => Status::AlreadyInit,
        Ok(true) => match read_input(alloc, station) {
            Err(InputFault::LineFault) => Status::LineFault,
            Err(InputFault::Memory) => Status::Memory,
            Ok(input) => make(alloc, station, input.as_slice()),
        },
    }
}
