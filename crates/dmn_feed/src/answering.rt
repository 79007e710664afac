//! How much of a frame's body is read, and what is answered to it.

ghost use Rattle.std.specs.Prelude.{◌≡◌, ◌≤◌, true, false, length, IfOk, IsErr, OnOk};
ghost use Rattle.dmn_outside.specs.Counts.{Rose};
ghost use Rattle.dmn_desk.specs.Asked.{AnswersSurely};
ghost use Rattle.dmn_desk.specs.Texts.{IsBounded};
ghost use Rattle.dmn_registry.specs.Snapshots.{HasRoomForSnapshot};
ghost use Rattle.dmn_feed.specs.Bodies.{Decides, Gives};
ghost use Rattle.dmn_feed.specs.Room.{HasPlaceKept};

use dmn_desk::{Answer, Kind, RequestFault, ShortAnswer, read_request};
use dmn_frames::{HEAD, LONGEST_BODY, Reading};
use dmn_office::Office;
use dmn_outside::{Disk, DiskFault};
use std::alloc::Global;

/// How much of a body is read to answer a frame of this kind and size.
pub fn reading_of(number: u8, size: u32) -> Reading
    ensures { Decides result number size }
{
    if size > LONGEST_BODY {
        return Reading::Nothing;
    }
    match Kind::of(number) {
        None => Reading::Nothing,
        Some(kind) => kind.reading(),
    }
}

/// The answer to a frame of this kind and size, by what was kept of its body.
pub fn answer_frame<D: Disk>(
    alloc: Global,
    disk: &mut D,
    office: &mut Office,
    number: u8,
    size: u32,
    kept: &[u8],
) -> Result<Answer, DiskFault>
    requires usable { office.old.registry.spent ≡ false }
    requires fits { length kept.now ≤ size }
    ensures gives { Gives result number size kept.now (D.time disk.old) (D.disk disk.old) (D.disk disk.new) office.old office.new }
    ensures bounded { IfOk result IsBounded }
    ensures usable { OnOk result (office.new.registry.spent ≡ false) }
    ensures line { D.line disk.new ≡ D.line disk.old }
    ensures room { D.room disk.new ≡ D.room disk.old }
    ensures time { D.time disk.old ≤ D.time disk.new }
    ensures later { (D.disk disk.old).faults ≤ (D.disk disk.new).faults }
    ensures fault { IsErr result → Rose (D.disk disk.old).faults (D.disk disk.new).faults }
    ensures sure { D.tells_room ≡ true → HasPlaceKept number size kept.now office.old.registry.journal.end (D.disk disk.old).room → HasRoomForSnapshot office.old.registry (D.disk disk.old).room → AnswersSurely result (D.disk disk.old) (D.disk disk.new) }
{
    if size > LONGEST_BODY {
        return Ok(Answer::Short(ShortAnswer::BadRequest { at: 1 }));
    }
    let Some(kind) = Kind::of(number) else {
        return Ok(Answer::Short(ShortAnswer::BadRequest { at: 0 }));
    };
    match read_request(alloc, kind, kept) {
        Ok(request) => office.answer(alloc, disk, &request),
        Err(RequestFault::BadRequest { at }) => {
            Ok(Answer::Short(ShortAnswer::BadRequest {
                at: HEAD + at as u32,
            }))
        }
        Err(RequestFault::Memory) => Ok(Answer::Short(ShortAnswer::Memory)),
    }
}
