//! A frame's body is taken, and what it asks for is done.

ghost use Rattle.std.specs.Prelude.{◌≡◌, ◌≤◌, true, false, IfOk, IfSome, IsErrOf, OnOk};
ghost use Rattle.dmn_registry.specs.Snapshots.{HasRoomForSnapshot};
ghost use Rattle.dmn_outside.specs.Counts.{Rose};
ghost use Rattle.dmn_outside.specs.Later.{IsQuiet};
ghost use Rattle.dmn_desk.specs.Texts.{IsBounded};
ghost use Rattle.dmn_feed.specs.Room.{AsksSurely, HasPlaceBody};
ghost use Rattle.dmn_feed.specs.Steps.{Asks, some_of};
ghost use Rattle.dmn_feed.specs.declared.asking.Stop.TheVariants.{DiskFault as DiskStop, LineFault as LineStop};

use crate::answering::{answer_frame, reading_of};
use dmn_desk::{Answer, ShortAnswer};
use dmn_frames::{Body, read_body};
use dmn_office::Office;
use dmn_outside::{DiskFault, Failed, Station};
use std::alloc::Global;

/// Why a run stops.
#[derive(Clone, Copy, Debug, PartialEq, Eq)]
pub enum Stop {
    DiskFault,
    LineFault,
}

fn some_of(answer: Result<Answer, DiskFault>) -> Result<Option<Answer>, Stop>
    ensures { result ≡ some_of answer }
{
    match answer {
        Ok(answer) => Ok(Some(answer)),
        Err(DiskFault) => Err(Stop::DiskFault),
    }
}

/// Takes a frame's body, and does what it asks for. None means that the input ended before.
pub fn ask<T: Station>(
    alloc: Global,
    station: &mut T,
    office: &mut Office,
    kind: u8,
    size: u32,
) -> Result<Option<Answer>, Stop>
    requires usable { office.old.registry.spent ≡ false }
    ensures asks { T.tells ≡ true → Asks result (T.time station.old) (T.disk station.old) (T.disk station.new) office.old kind size office.new (T.line station.old).talk (T.line station.new).talk }
    ensures usable { OnOk result (office.new.registry.spent ≡ false) }
    ensures bounded { IfOk result (λ answer. IfSome answer IsBounded) }
    ensures quiet { IsQuiet T.tells_moments (T.time station.old) (T.time station.new) (T.line station.old) (T.line station.new) }
    ensures line_fault { IsErrOf result Stop.LineFault → Rose (T.line station.old).faults (T.line station.new).faults }
    ensures disk_later { (T.disk station.old).faults ≤ (T.disk station.new).faults }
    ensures disk_fault { IsErrOf result Stop.DiskFault → Rose (T.disk station.old).faults (T.disk station.new).faults }
    ensures sure { T.tells ≡ true → T.tells_room ≡ true → HasPlaceBody kind size (T.line station.old).talk.left office.old.registry.journal.end (T.disk station.old).room → HasRoomForSnapshot office.old.registry (T.disk station.old).room
        → AsksSurely result (T.room station.old) (T.room station.new) (T.line station.old) (T.line station.new) (T.disk station.old) (T.disk station.new) }
{
    let reading = reading_of(kind, size);
    match read_body(alloc, station, reading, size as usize) {
        Err(Failed) => Err(Stop::LineFault),
        Ok(Body::Cut) => Ok(None),
        Ok(Body::Lacking) => Ok(Some(Answer::Short(ShortAnswer::Memory))),
        Ok(Body::Kept(kept)) => {
            let answer = answer_frame(alloc, station, office, kind, size, kept.as_slice());
            some_of(answer)
        }
    }
}
