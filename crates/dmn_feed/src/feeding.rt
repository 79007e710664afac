//! Frames, answered one after another.

ghost use Rattle.std.specs.Prelude.{◌≡◌, ◌≢◌, ◌≤◌, List, ℕ, true, false, IsErrOf, OnOk};
ghost use Rattle.dmn_outside.specs.Counts.{Rose};
ghost use Rattle.dmn_outside.specs.Crashes.{IsKnown};
ghost use Rattle.dmn_outside.specs.Later.{IsLater};
ghost use Rattle.dmn_frames.specs.Frames.{Cuts, Frame};
ghost use Rattle.dmn_frames.specs.Stamps.{StampsBehind};
ghost use Rattle.dmn_registry.specs.Machine.{Machine, at_rest};
ghost use Rattle.dmn_registry.specs.Opening.{HasTrueSlot, Reading};
ghost use Rattle.dmn_registry.specs.Own.{IsOwn};
ghost use Rattle.dmn_registry.specs.Snapshots.{HasRoomForSnapshot};
ghost use Rattle.dmn_office.specs.Offices.{StandsAt};
ghost use Rattle.dmn_feed.specs.Laws.{EndsExactly};
ghost use Rattle.dmn_feed.specs.Outcome.{IsRunning, OfFeed, OpensOn, Outcome, StopsFor};
ghost use Rattle.dmn_feed.specs.Room.{EndsSurely, HasPlaceNext, NeverFaults, Suffices, TurnsSurely};
ghost use Rattle.dmn_feed.specs.Stamps.{SentInTurns};
ghost use Rattle.dmn_feed.specs.Steps.{Turns};

use crate::asking::{Stop, ask};
use crate::reply::Reply;
use dmn_frames::{Head, read_head};
use dmn_office::Office;
use dmn_outside::{Failed, Station, send_all};
use dmn_registry::OpenFault;
use dmn_status::Status;
use std::alloc::Global;

/// As many frames as one run answers.
const MOST_FRAMES: u32 = 4_294_967_295;

/// What a turn did.
#[derive(Clone, Copy, Debug, PartialEq, Eq)]
pub enum Turn {
    /// A frame was answered.
    Answered,
    /// The input has ended.
    Ended,
    /// The input ended within a frame.
    Cut,
}

// Takes a frame, does what it asks for, and then sends its answer.
fn serve_frame<T: Station>(
    alloc: Global,
    station: &mut T,
    office: &mut Office,
) -> Result<Turn, Stop>
    requires usable { office.old.registry.spent ≡ false }
    ensures turns { T.tells ≡ true → Turns result T.tells_moments (T.time station.old) (T.disk station.old) (T.disk station.new) office.old office.new (T.line station.old) (T.line station.new) }
    ensures usable { OnOk result (office.new.registry.spent ≡ false) }
    ensures later { IsLater T.tells_moments (T.time station.old) (T.time station.new) (T.line station.old) (T.line station.new) }
    ensures in_turn { T.tells_moments ≡ true → StampsBehind (T.time station.old) (T.time station.new) (T.line station.old).moments (T.line station.new).moments }
    ensures time { Rose (T.time station.old) (T.time station.new) }
    ensures line_fault { IsErrOf result Stop.LineFault → Rose (T.line station.old).faults (T.line station.new).faults }
    ensures disk_later { (T.disk station.old).faults ≤ (T.disk station.new).faults }
    ensures disk_fault { IsErrOf result Stop.DiskFault → Rose (T.disk station.old).faults (T.disk station.new).faults }
    ensures sure { T.tells ≡ true → T.tells_room ≡ true → HasPlaceNext (T.line station.old).talk.left office.old.registry.journal.end (T.disk station.old).room → HasRoomForSnapshot office.old.registry (T.disk station.old).room
        → TurnsSurely result (T.time station.old) office.old office.new (T.room station.old) (T.room station.new) (T.line station.old) (T.line station.new) (T.disk station.old) (T.disk station.new) }
{
    match read_head(station) {
        Err(Failed) => Err(Stop::LineFault),
        Ok(Head::Ended) => Ok(Turn::Ended),
        Ok(Head::Cut) => Ok(Turn::Cut),
        Ok(Head::Of { kind, size }) => match ask(alloc, station, office, kind, size) {
            Err(stop) => Err(stop),
            Ok(None) => Ok(Turn::Cut),
            Ok(Some(answer)) => {
                let reply = Reply::to(alloc, &answer);
                match send_all(station, reply.as_slice()) {
                    Ok(()) => Ok(Turn::Answered),
                    Err(Failed) => Err(Stop::LineFault),
                }
            }
        },
    }
}

// Answers frames, one after another.
fn run<T: Station>(alloc: Global, station: &mut T, office: &mut Office) -> Status
    requires usable { office.old.registry.spent ≡ false }
    ensures outcome { T.tells ≡ true → (m : Machine) → StandsAt office.old m (T.disk station.old).told
        → Outcome result T.tells_moments (T.time station.old) m (T.disk station.old) (T.disk station.new) (T.line station.old) (T.line station.new) }
    ensures exact { T.tells ≡ true → (frames : List Frame) (left : List ℕ) → Cuts (T.line station.old).talk.left frames left → EndsExactly result frames left }
    ensures status { IsRunning result }
    ensures later { IsLater T.tells_moments (T.time station.old) (T.time station.new) (T.line station.old) (T.line station.new) }
    ensures in_turns { T.tells ≡ true → T.tells_moments ≡ true → SentInTurns (T.time station.old) (T.time station.new) (T.line station.old) (T.line station.new) }
    ensures time { Rose (T.time station.old) (T.time station.new) }
    ensures line_fault { result ≡ Status.LineFault → Rose (T.line station.old).faults (T.line station.new).faults }
    ensures disk_later { (T.disk station.old).faults ≤ (T.disk station.new).faults }
    ensures disk_fault { result ≡ Status.DiskFault → Rose (T.disk station.old).faults (T.disk station.new).faults }
    ensures sure { T.tells ≡ true → T.tells_room ≡ true → (m : Machine) → StandsAt office.old m (T.disk station.old).told → Suffices m (T.room station.old) (T.disk station.old).room (T.line station.old).talk.left
        → NeverFaults result (T.line station.old) (T.line station.new) (T.disk station.old) (T.disk station.new) }
{
    'run: for _ in 0..MOST_FRAMES {
        match serve_frame(alloc, station, office) {
            Ok(Turn::Answered) => {}
            Ok(Turn::Ended) => return Status::Done,
            Ok(Turn::Cut) => return Status::CutInput,
            Err(Stop::LineFault) => return Status::LineFault,
            Err(Stop::DiskFault) => return Status::DiskFault,
        }
    }
    Status::Enough
}

/// Opens the registry, and answers the frames of a line. Each command is durable before its answer is sent.
pub fn feed<T: Station>(alloc: Global, station: &mut T) -> Status
    // On a disk at rest whose image is own: the answers that were sent are the machine's, or Memory; since each answer's
    // send each image of a crash has its command; and since the start each image is own, with the commands of before and
    // then some front of those that were accepted.
    ensures outcome { T.tells ≡ true → (m : Machine) → IsKnown (IsOwn m) (T.disk station.old).told
        → Outcome result T.tells_moments (T.time station.old) (at_rest m) (T.disk station.old) (T.disk station.new) (T.line station.old) (T.line station.new) }
    ensures status { OfFeed result }

    // Done, CutInput and Enough come only where the text's frames say so, whatever the disk holds.
    ensures exact { T.tells ≡ true → (frames : List Frame) (left : List ℕ) → Cuts (T.line station.old).talk.left frames left → EndsExactly result frames left }

    // Where the newest slot is true of file 0: frames are answered only where this is a journal image, and NotJournal tells the
    // place where it departs from one. Whatever the slots hold, NotJournal comes only for a cause that is in the file.
    ensures opens { Reading HasTrueSlot (T.disk station.old).told → OpensOn result (T.disk station.old).told }
    ensures cause { StopsFor result (T.disk station.old).told }

    // Memory and NotJournal come before anything is taken or sent.
    ensures unserved { ¬ IsRunning result → T.line station.new ≡ T.line station.old }

    // The line's other meanings: no count falls, that of callers' faults is as before, time doesn't fall, and each byte
    // that is sent has a moment of this run, behind the moment at which its turn began.
    ensures later { IsLater T.tells_moments (T.time station.old) (T.time station.new) (T.line station.old) (T.line station.new) }
    ensures in_turns { T.tells ≡ true → T.tells_moments ≡ true → SentInTurns (T.time station.old) (T.time station.new) (T.line station.old) (T.line station.new) }

    // A fault comes only where its count rose.
    ensures line_fault { result ≡ Status.LineFault → Rose (T.line station.old).faults (T.line station.new).faults }
    ensures disk_later { (T.disk station.old).faults ≤ (T.disk station.new).faults }
    ensures disk_fault { result ≡ Status.DiskFault → Rose (T.disk station.old).faults (T.disk station.new).faults }

    // Over a station that tells how many bytes more may be sent and how long a file may be, where that is enough for whatever
    // may be answered and kept: no count of faults rises, and the run ends as its text says, unless memory to start is wanting.
    ensures sure { T.tells ≡ true → T.tells_room ≡ true → (m : Machine) → IsKnown (IsOwn m) (T.disk station.old).told → Suffices (at_rest m) (T.room station.old) (T.disk station.old).room (T.line station.old).talk.left
        → EndsSurely result (T.line station.old) (T.line station.new) (T.disk station.old) (T.disk station.new) }
{
    match Office::open(alloc, station) {
        Err(OpenFault::NotJournal { at }) => Status::NotJournal { at },
        Err(OpenFault::DiskFault) => Status::DiskFault,
        Err(OpenFault::Memory) => Status::Memory,
        Ok(mut office) => run(alloc, station, &mut office),
    }
}
