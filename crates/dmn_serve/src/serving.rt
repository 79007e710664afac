//! Callers, served one after the other.

ghost use Rattle.std.specs.Prelude.{◌≡◌, ◌≤◌, false, true, IsErrOf, OnOk};
ghost use Rattle.dmn_outside.specs.Counts.{Rose};
ghost use Rattle.dmn_outside.specs.Crashes.{IsKnown};
ghost use Rattle.dmn_registry.specs.Machine.{Machine, at_rest};
ghost use Rattle.dmn_registry.specs.Opening.{HasTrueSlot, Reading};
ghost use Rattle.dmn_registry.specs.Own.{IsOwn};
ghost use Rattle.dmn_registry.specs.Snapshots.{HasRoomForSnapshot};
ghost use Rattle.dmn_office.specs.Offices.{StandsAt};
ghost use Rattle.dmn_serve.specs.Outcome.{EndsExactly, IsRunning, OfServe, OpensOn, Outcome, StopsFor};
ghost use Rattle.dmn_serve.specs.Passing.{IsPassing};
ghost use Rattle.dmn_serve.specs.Room.{EndsSurely, HasPlaceNext, NeverFaults, Suffices, TurnsSurely};
ghost use Rattle.dmn_serve.specs.Steps.{Turns};

use crate::caller::serve_caller;
use dmn_http::Routes;
use dmn_office::Office;
use dmn_outside::{DiskFault, Failed, Station};
use dmn_registry::OpenFault;
use dmn_status::Status;
use std::alloc::Global;

/// What a turn did.
#[derive(Clone, Copy, Debug, PartialEq, Eq)]
pub enum Turn {
    /// A caller was served, or given up.
    Served,
    /// No caller comes any more.
    Ended,
}

/// Why a run stops.
#[derive(Clone, Copy, Debug, PartialEq, Eq)]
pub enum Stop {
    /// The next caller could not be taken.
    CallerFault,
    DiskFault,
}

// Goes on to the next caller, and serves it.
fn serve_next<T: Station>(
    alloc: Global,
    station: &mut T,
    routes: &Routes,
    office: &mut Office,
) -> Result<Turn, Stop>
    requires usable { office.old.registry.spent ≡ false }
    ensures turns { T.tells ≡ true → Turns result T.tells_moments (T.time station.old) (T.disk station.old) (T.disk station.new) office.old office.new (T.line station.old) (T.line station.new) }
    ensures usable { OnOk result (office.new.registry.spent ≡ false) }
    ensures passing { IsPassing T.tells_moments (T.time station.old) (T.time station.new) (T.line station.old) (T.line station.new) }
    ensures caller_fault { IsErrOf result Stop.CallerFault → Rose (T.line station.old).caller_faults (T.line station.new).caller_faults }
    ensures disk_later { (T.disk station.old).faults ≤ (T.disk station.new).faults }
    ensures disk_fault { IsErrOf result Stop.DiskFault → Rose (T.disk station.old).faults (T.disk station.new).faults }
    ensures sure { T.tells ≡ true → T.tells_room ≡ true → HasPlaceNext (T.line station.old).talk.later office.old.registry.journal.end (T.disk station.old).room → HasRoomForSnapshot office.old.registry (T.disk station.old).room
        → TurnsSurely result (T.room station.old) (T.room station.new) office.old (T.line station.old) (T.line station.new) (T.disk station.old) (T.disk station.new) }
{
    match station.next_caller() {
        Err(Failed) => Err(Stop::CallerFault),
        Ok(false) => Ok(Turn::Ended),
        Ok(true) => match serve_caller(alloc, station, routes, office) {
            Ok(()) => Ok(Turn::Served),
            Err(DiskFault) => Err(Stop::DiskFault),
        },
    }
}

// Serves the next callers, at most so many.
fn run<T: Station>(
    alloc: Global,
    most: u32,
    station: &mut T,
    routes: &Routes,
    office: &mut Office,
) -> Status
    requires usable { office.old.registry.spent ≡ false }
    ensures outcome { T.tells ≡ true → (m : Machine) → StandsAt office.old m (T.disk station.old).told
        → Outcome result most T.tells_moments (T.time station.old) m (T.disk station.old) (T.disk station.new) (T.line station.old) (T.line station.new) }
    ensures exact { T.tells ≡ true → EndsExactly result most (T.line station.old).talk (T.line station.new).talk }
    ensures status { IsRunning result }
    ensures passing { IsPassing T.tells_moments (T.time station.old) (T.time station.new) (T.line station.old) (T.line station.new) }
    ensures caller_fault { result ≡ Status.LineFault → Rose (T.line station.old).caller_faults (T.line station.new).caller_faults }
    ensures disk_later { (T.disk station.old).faults ≤ (T.disk station.new).faults }
    ensures disk_fault { result ≡ Status.DiskFault → Rose (T.disk station.old).faults (T.disk station.new).faults }
    ensures sure { T.tells ≡ true → T.tells_room ≡ true → (m : Machine) → StandsAt office.old m (T.disk station.old).told → Suffices m most (T.room station.old) (T.disk station.old).room (T.line station.old).talk.later
        → NeverFaults result (T.line station.old) (T.line station.new) (T.disk station.old) (T.disk station.new) }
{
    'run: for _ in 0..most {
        match serve_next(alloc, station, routes, office) {
            Ok(Turn::Served) => {}
            Ok(Turn::Ended) => return Status::Done,
            Err(Stop::CallerFault) => return Status::LineFault,
            Err(Stop::DiskFault) => return Status::DiskFault,
        }
    }
    Status::Done
}

/// Opens the registry, and serves the next callers of a line, at most so many: one HTTP request and one reply each. Each command
/// is durable before its reply is sent. A caller whose line fails is given up, and the next one is served.
pub fn serve<T: Station>(alloc: Global, most: u32, station: &mut T) -> Status
    // On a disk at rest whose image is own: each caller was sent the machine's reply to its bytes, or the 503 of Memory; since
    // each reply's send each image of a crash has its command; and since the start each image is own, with the commands of before
    // and then some front of those that were accepted.
    ensures outcome { T.tells ≡ true → (m : Machine) → IsKnown (IsOwn m) (T.disk station.old).told
        → Outcome result most T.tells_moments (T.time station.old) (at_rest m) (T.disk station.old) (T.disk station.new) (T.line station.old) (T.line station.new) }
    ensures status { OfServe result }

    // Done and LineFault come only where as many callers came as they say, whatever the disk holds.
    ensures exact { T.tells ≡ true → EndsExactly result most (T.line station.old).talk (T.line station.new).talk }

    // Where the newest slot is true of file 0: callers are served only where this is a journal image, and NotJournal tells the
    // place where it departs from one. Whatever the slots hold, NotJournal comes only for a cause that is in the file.
    ensures opens { Reading HasTrueSlot (T.disk station.old).told → OpensOn result (T.disk station.old).told }
    ensures cause { StopsFor result (T.disk station.old).told }

    // Memory and NotJournal come before a caller is taken.
    ensures unserved { ¬ IsRunning result → T.line station.new ≡ T.line station.old }

    // The line's other meanings: no count falls, time doesn't fall, and each byte that is sent has a moment of this run, behind
    // the moment at which its caller's turn began.
    ensures passing { IsPassing T.tells_moments (T.time station.old) (T.time station.new) (T.line station.old) (T.line station.new) }

    // A fault comes only where its count rose: LineFault where that of callers did.
    ensures caller_fault { result ≡ Status.LineFault → Rose (T.line station.old).caller_faults (T.line station.new).caller_faults }
    ensures disk_later { (T.disk station.old).faults ≤ (T.disk station.new).faults }
    ensures disk_fault { result ≡ Status.DiskFault → Rose (T.disk station.old).faults (T.disk station.new).faults }

    // Over a station that tells how many bytes more may be sent and how long a file may be, where that is enough for whatever may
    // be sent to callers and kept: no count of faults rises, and all callers are served whole, unless memory to start is wanting.
    ensures sure { T.tells ≡ true → T.tells_room ≡ true → (m : Machine) → IsKnown (IsOwn m) (T.disk station.old).told → Suffices (at_rest m) most (T.room station.old) (T.disk station.old).room (T.line station.old).talk.later
        → EndsSurely result (T.line station.old) (T.line station.new) (T.disk station.old) (T.disk station.new) }
{
    let Ok(routes) = Routes::new(alloc) else {
        return Status::Memory;
    };
    match Office::open(alloc, station) {
        Err(OpenFault::NotJournal { at }) => Status::NotJournal { at },
        Err(OpenFault::DiskFault) => Status::DiskFault,
        Err(OpenFault::Memory) => Status::Memory,
        Ok(mut office) => run(alloc, most, station, &routes, &mut office),
    }
}
