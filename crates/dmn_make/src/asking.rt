//! What a run asks of its office.

ghost use Rattle.std.specs.Prelude.{◌≡◌, ◌≤◌, Some, false, true, IsErrOf, OnOk};
ghost use Rattle.dmn_journal.specs.Sure.{NeverFails};
ghost use Rattle.dmn_outside.specs.Counts.{Rose};
ghost use Rattle.dmn_desk.specs.Ask.{ask};
ghost use Rattle.dmn_desk.specs.Asked.{entry_by};
ghost use Rattle.dmn_desk.specs.Requests.{IsRequest};
ghost use Rattle.dmn_registry.specs.Machine.{Machine, connecting};
ghost use Rattle.dmn_registry.specs.Snapshots.{SnapshotsFit};
ghost use Rattle.dmn_make.specs.Asking.{Answers, Does, Stands, is_memory};
ghost use Rattle.dmn_make.specs.Going.{added};
ghost use Rattle.dmn_make.specs.Room.{HasPlace};

use crate::fault::MakeFault;
use dmn_desk::{
    Answer, HEAD, Kind, LONGEST_BODY, Request, RequestFault, ShortAnswer, read_request,
};
use dmn_office::Office;
use dmn_outside::{Disk, DiskFault};
use std::alloc::Global;

fn is_memory(answer: &Answer) -> bool
    ensures { result ≡ is_memory answer.now }
{
    matches!(answer, Answer::Short(ShortAnswer::Memory))
}

/// The answer to a request. A command that is accepted is durable before this.
pub fn ask<D: Disk>(
    alloc: Global,
    disk: &mut D,
    office: &mut Office,
    request: &Request,
) -> Result<Answer, MakeFault>
    requires usable { office.old.registry.spent ≡ false }
    requires request { IsRequest request.now }
    ensures does { D.tells ≡ true → Does result (λ m. (ask m request.now).1) (D.time disk.old) (D.disk disk.old) (D.disk disk.new) office.old office.new }
    ensures answers { D.tells ≡ true → Answers result (λ m. (ask m request.now).0) office.old (D.disk disk.old).told }
    ensures usable { OnOk result (office.new.registry.spent ≡ false) }
    ensures line { D.line disk.new ≡ D.line disk.old }
    ensures room { D.room disk.new ≡ D.room disk.old }
    ensures time { D.time disk.old ≤ D.time disk.new }
    ensures later { (D.disk disk.old).faults ≤ (D.disk disk.new).faults }
    ensures fault { IsErrOf result MakeFault.DiskFault → Rose (D.disk disk.old).faults (D.disk disk.new).faults }
    ensures sure { D.tells_room ≡ true → (m : Machine) → Stands office.old m (D.disk disk.old).told → HasPlace m (entry_by request.now) (D.disk disk.old).room → SnapshotsFit m (D.disk disk.old).room → NeverFails result MakeFault.DiskFault (D.disk disk.old) (D.disk disk.new) }
{
    match office.answer(alloc, disk, request) {
        Err(DiskFault) => Err(MakeFault::DiskFault),
        Ok(answer) => {
            if is_memory(&answer) {
                Err(MakeFault::Memory)
            } else {
                Ok(answer)
            }
        }
    }
}

/// The answer to the request that has this body and adds a block.
pub fn add_body<D: Disk>(
    alloc: Global,
    disk: &mut D,
    office: &mut Office,
    body: &[u8],
) -> Result<Answer, MakeFault>
    requires usable { office.old.registry.spent ≡ false }
    ensures does { D.tells ≡ true → Does result (λ m. (added body.now m).1) (D.time disk.old) (D.disk disk.old) (D.disk disk.new) office.old office.new }
    ensures answers { D.tells ≡ true → Answers result (λ m. (added body.now m).0) office.old (D.disk disk.old).told }
    ensures usable { OnOk result (office.new.registry.spent ≡ false) }
    ensures line { D.line disk.new ≡ D.line disk.old }
    ensures room { D.room disk.new ≡ D.room disk.old }
    ensures time { D.time disk.old ≤ D.time disk.new }
    ensures later { (D.disk disk.old).faults ≤ (D.disk disk.new).faults }
    ensures fault { IsErrOf result MakeFault.DiskFault → Rose (D.disk disk.old).faults (D.disk disk.new).faults }
    ensures sure { D.tells_room ≡ true → (m : Machine) → Stands office.old m (D.disk disk.old).told → HasPlace m (Some (connecting body.now)) (D.disk disk.old).room → SnapshotsFit m (D.disk disk.old).room → NeverFails result MakeFault.DiskFault (D.disk disk.old) (D.disk disk.new) }
{
    if body.len() > LONGEST_BODY as usize {
        return Ok(Answer::Short(ShortAnswer::BadRequest { at: 1 }));
    }
    match read_request(alloc, Kind::Connect, body) {
        Ok(request) => ask(alloc, disk, office, &request),
        Err(RequestFault::BadRequest { at }) => {
            Ok(Answer::Short(ShortAnswer::BadRequest {
                at: HEAD + at as u32,
            }))
        }
        Err(RequestFault::Memory) => Err(MakeFault::Memory),
    }
}
