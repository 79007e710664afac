//! Requests, answered by what a registry holds.

ghost use Rattle.std.specs.Prelude.{◌≡◌, ◌≤◌, true, false, IfOk, IsErr, IsOk, OnErr, OnOk};
ghost use Rattle.dmn_branch.specs.Machine.{MachineState};
ghost use Rattle.dmn_branch.specs.Stands as branches;
ghost use Rattle.dmn_outside.specs.Counts.{Rose};
ghost use Rattle.dmn_outside.specs.Crashes.{LeavesOnly};
ghost use Rattle.dmn_registry.specs.Machine.{Machine, state_of};
ghost use Rattle.dmn_registry.specs.Own.{StandsOn};
ghost use Rattle.dmn_registry.specs.Snapshots.{HasRoomForSnapshot};
ghost use Rattle.dmn_desk.specs.Ask.{ask, tip_of};
ghost use Rattle.dmn_desk.specs.Asked.{Answers, AnswersSurely, HasRoom, IsIdle, Marks, MayHold, TellsOrLacks, entry_by};
ghost use Rattle.dmn_desk.specs.Kept.{IsTrueTo, StayChanges};
ghost use Rattle.dmn_desk.specs.Requests.{IsRequest, is_question};
ghost use Rattle.dmn_desk.specs.Texts.{IsBounded};

use crate::answer::{Answer, ShortAnswer};
use crate::changes::Changes;
use crate::commands::connect;
use crate::diff::diff_at;
use crate::list::list_at;
use crate::members::members_at;
use crate::page::page_at;
use crate::payees::payees_at;
use crate::pins::{pin, release};
use crate::quorums::quorums_at;
use crate::request::Request;
use crate::row::row_at;
use dmn_branch::Branch;
use dmn_bytes::Memory;
use dmn_outside::{Disk, DiskFault};
use dmn_registry::Registry;
use std::alloc::Global;

/// What answers the requests to one registry. It keeps the changes between lists that were asked last: all disconnects of the
/// registry go through it.
#[derive(Drop)]
pub struct Desk {
    pub(crate) changes: Changes,
}

fn tip_of(branch: &Branch) -> ShortAnswer
    ensures { (m : MachineState) → branches.StandsFor branch.now m → result ≡ tip_of m }
{
    let tip = branch.tip();
    ShortAnswer::Tip {
        height: tip.height,
        hash: tip.hash,
        low: tip.low,
        top: tip.top,
    }
}

impl Desk {
    /// A desk that keeps nothing, and so is true to every machine.
    pub fn new(alloc: Global) -> Result<Desk, Memory>
        ensures true_to_each { IfOk result (λ desk. (m : MachineState) → IsTrueTo desk m) }
        ensures walks { IfOk result (λ desk. desk.changes.walks ≡ 0) }
    {
        Ok(Desk {
            changes: Changes::new(alloc)?,
        })
    }

    /// How many changes between lists this desk had the branch make. The count stands still at its type's end.
    pub fn walks(&self) -> u64
        ensures { result ≡ self.now.changes.walks }
    {
        self.changes.walks()
    }

    /// The answer to a request, by what the registry holds. A command that is accepted is durable before this. Memory changes
    /// nothing, and is never the answer to a request that takes none. The disk is the one on which the registry was opened.
    pub fn answer<D: Disk>(
        &mut self,
        alloc: Global,
        registry: &mut Registry,
        disk: &mut D,
        request: &Request,
    ) -> Result<Answer, DiskFault>
        requires usable { registry.old.spent ≡ false }
        requires request { IsRequest request.now }

        // It is the machine's answer, and the registry stands for the machine behind it; or it is Memory. The desk stays true to
        // the machine for which the registry stands.
        ensures answers { Answers request.now result self.old self.new registry.old registry.new (D.disk disk.old).told (D.disk disk.new).told }
        ensures bounded { IfOk result IsBounded }

        // A crash at any moment leaves an own image, of the commands of before; where this is a command, with it or without.
        ensures moments { (m : Machine) → StandsOn registry.old m (D.disk disk.old).told
            → LeavesOnly (D.time disk.old) (D.disk disk.old) (D.disk disk.new) (MayHold m (entry_by request.now)) }

        // A snapshot is written exactly where one is due for a block that is added.
        ensures mark { (m : Machine) → StandsOn registry.old m (D.disk disk.old).told → Marks request.now result m registry.old registry.new (D.disk disk.new).told }

        // Only a command that is accepted, or a disk fault, makes a call of the disk.
        ensures idle { IsIdle result → D.disk disk.new ≡ D.disk disk.old }
        ensures usable { OnOk result (registry.new.spent ≡ false) }
        ensures spent { OnErr result (registry.new.spent ≡ true) }
        ensures line { D.line disk.new ≡ D.line disk.old }
        ensures room { D.room disk.new ≡ D.room disk.old }
        ensures time { D.time disk.old ≤ D.time disk.new }

        // DiskFault comes only where the count of disk faults rose, and not over a disk that tells its room, where the record and
        // a snapshot fit.
        ensures later { (D.disk disk.old).faults ≤ (D.disk disk.new).faults }
        ensures fault { IsErr result → Rose (D.disk disk.old).faults (D.disk disk.new).faults }
        ensures sure { D.tells_room ≡ true → HasRoom (entry_by request.now) registry.old.journal.end (D.disk disk.old).room → HasRoomForSnapshot registry.old (D.disk disk.old).room → AnswersSurely result (D.disk disk.old) (D.disk disk.new) }
    {
        match request {
            Request::Connect { block, body } => {
                connect(alloc, registry, disk, block, body.as_slice())
            }
            Request::Disconnect { hash } => self.disconnect(registry, disk, hash),
            Request::Pin { height } => Ok(pin(registry, *height)),
            Request::Release { pin } => Ok(release(registry, *pin)),
            Request::Tip
            | Request::List { .. }
            | Request::Row { .. }
            | Request::Payees { .. }
            | Request::Members { .. }
            | Request::Quorums { .. }
            | Request::Diff { .. }
            | Request::Page { .. } => Ok(self.tell_or_memory(alloc, registry.branch(), request)),
        }
    }

    // The answer to a question, or Memory.
    fn tell_or_memory(&mut self, alloc: Global, branch: &Branch, request: &Request) -> Answer
        requires { is_question request.now ≡ true }
        ensures question { is_question request.now ≡ true }
        ensures tells { TellsOrLacks request.now result self.old branch.now }
        ensures stay { StayChanges branch.now self.old.changes self.new.changes }
        ensures bounded { IsBounded result }
    {
        match self.tell(alloc, branch, request) {
            Ok(answer) => answer,
            Err(_) => Answer::Short(ShortAnswer::Memory),
        }
    }

    // The answer to a question, which changes nothing.
    #[tactic(auto, unfolding(crate::specs::Ask::ask))]
    fn tell(&mut self, alloc: Global, branch: &Branch, request: &Request) -> Result<Answer, Memory>
        requires { is_question request.now ≡ true }
        ensures tells { (m : Machine) → branches.StandsFor branch.now (state_of m) → IsTrueTo self.old (state_of m) → IfOk result (λ answer. ask m request.now ≡ (answer, m)) }
        ensures tip { request.now ≡ Request.Tip → IsOk result }
        ensures stay { StayChanges branch.now self.old.changes self.new.changes }
        ensures bounded { IfOk result IsBounded }
    {
        match request {
            Request::Tip => Ok(Answer::Short(tip_of(branch))),
            Request::List { height } => list_at(alloc, branch, *height),
            Request::Row { height, hash } => Ok(row_at(branch, *height, hash)),
            Request::Payees { height, count } => payees_at(alloc, branch, *height, *count),
            Request::Members { kind, base } => members_at(alloc, branch, *kind, *base),
            Request::Quorums { height } => quorums_at(alloc, branch, *height),
            Request::Page { pin, from, count } => page_at(alloc, branch, *pin, *from, *count),
            Request::Diff { base, block } => {
                diff_at(alloc, branch, &mut self.changes, base, block)
            }
            Request::Connect { .. }
            | Request::Disconnect { .. }
            | Request::Pin { .. }
            | Request::Release { .. } => unreachable!(),
        }
    }
}
