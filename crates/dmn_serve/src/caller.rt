//! One caller: its request is read, done, and replied to.

ghost use Rattle.std.specs.Prelude.{◌≡◌, ◌≤◌, false, true, IsErr, OnOk};
ghost use Rattle.dmn_outside.specs.Counts.{Rose};
ghost use Rattle.dmn_outside.specs.Later.{IsLater};
ghost use Rattle.dmn_desk.specs.Asked.{HasRoom, entry_by};
ghost use Rattle.dmn_desk.specs.Requests.{IsRequest};
ghost use Rattle.dmn_serve.specs.Room.{AnswersSurely, HasPlace, ServesSurely};
ghost use Rattle.dmn_serve.specs.Steps.{AnswersCaller, IsNew, ServesCaller};
ghost use Rattle.dmn_registry.specs.Snapshots.{HasRoomForSnapshot};

use dmn_desk::Request;
use dmn_http::{Exchange, Routes, read_exchange, reply_of, write_reply};
use dmn_office::Office;
use dmn_outside::{DiskFault, LineFault, Station};
use std::alloc::Global;

// Does what a caller asks for, and then sends the reply, or a front of it where the line fails.
fn answer_caller<T: Station>(
    alloc: Global,
    station: &mut T,
    office: &mut Office,
    request: &Request,
) -> Result<(), DiskFault>
    requires usable { office.old.registry.spent ≡ false }
    requires request { IsRequest request.now }
    ensures answers { T.tells ≡ true → AnswersCaller result T.tells_moments (T.time station.old) (T.disk station.old) (T.disk station.new) office.old request.now office.new (T.line station.old) (T.line station.new) }
    ensures usable { OnOk result (office.new.registry.spent ≡ false) }
    ensures later { IsLater T.tells_moments (T.time station.old) (T.time station.new) (T.line station.old) (T.line station.new) }
    ensures disk_later { (T.disk station.old).faults ≤ (T.disk station.new).faults }
    ensures disk_fault { IsErr result → Rose (T.disk station.old).faults (T.disk station.new).faults }
    ensures sure { T.tells ≡ true → T.tells_room ≡ true → HasRoom (entry_by request.now) office.old.registry.journal.end (T.disk station.old).room → HasRoomForSnapshot office.old.registry (T.disk station.old).room
        → AnswersSurely result request.now (T.room station.old) (T.room station.new) office.old (T.line station.old) (T.line station.new) (T.disk station.old) (T.disk station.new) }
{
    let answer = office.answer(alloc, station, request)?;
    let reply = reply_of(alloc, request, &answer);
    let _ = write_reply(station, &reply);
    Ok(())
}

/// Reads what a caller asks for, does it, and then sends the reply. A caller whose line fails is given up. After a disk fault
/// nothing was sent to it.
pub fn serve_caller<T: Station>(
    alloc: Global,
    station: &mut T,
    routes: &Routes,
    office: &mut Office,
) -> Result<(), DiskFault>
    requires usable { office.old.registry.spent ≡ false }
    ensures serves { T.tells ≡ true → IsNew T.tells_moments (T.line station.old) → ServesCaller result T.tells_moments (T.time station.old) (T.disk station.old) (T.disk station.new) office.old office.new (T.line station.old) (T.line station.new) }
    ensures usable { OnOk result (office.new.registry.spent ≡ false) }
    ensures later { IsLater T.tells_moments (T.time station.old) (T.time station.new) (T.line station.old) (T.line station.new) }
    ensures disk_later { (T.disk station.old).faults ≤ (T.disk station.new).faults }
    ensures disk_fault { IsErr result → Rose (T.disk station.old).faults (T.disk station.new).faults }
    ensures sure { T.tells ≡ true → T.tells_room ≡ true → HasPlace (T.line station.old).talk.left office.old.registry.journal.end (T.disk station.old).room → HasRoomForSnapshot office.old.registry (T.disk station.old).room
        → ServesSurely result (T.room station.old) (T.room station.new) office.old (T.line station.old) (T.line station.new) (T.disk station.old) (T.disk station.new) }
{
    match read_exchange(alloc, station, routes) {
        Ok(Exchange::Ask(request)) => answer_caller(alloc, station, office, &request),
        Ok(Exchange::Reply(reply)) => {
            let _ = write_reply(station, &reply);
            Ok(())
        }
        Ok(Exchange::Gone) => Ok(()),
        Err(LineFault) => Ok(()),
    }
}
