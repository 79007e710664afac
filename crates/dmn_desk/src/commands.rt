//! Blocks, added and taken back: each is durable before it is answered.

ghost use Rattle.std.specs.Prelude.{◌≡◌, ◌≤◌, true, false, IfOk, IsErr, OnErr, OnOk, Some, length};
ghost use Rattle.dmn_block.specs.Defs.{IsBlock, IsBlockText, most_items};
ghost use Rattle.dmn_outside.specs.Counts.{Rose};
ghost use Rattle.dmn_outside.specs.Crashes.{LeavesOnly};
ghost use Rattle.dmn_registry.specs.Machine.{Machine, connecting, disconnecting};
ghost use Rattle.dmn_registry.specs.Own.{OwnWith, StandsOn};
ghost use Rattle.dmn_registry.specs.Snapshots.{HasRoomForSnapshot};
ghost use Rattle.dmn_desk.specs.Asked.{Answers, AnswersSurely, HasRoom, IsIdle, MarksBlock};
ghost use Rattle.dmn_desk.specs.declared.request.Request.TheVariants as requests;
ghost use Rattle.dmn_desk.specs.Texts.{IsBounded};

use crate::answer::{Answer, ShortAnswer};
use crate::desk::Desk;
use dmn_block::BlockFrame;
use dmn_bytes::Hash256;
use dmn_outside::{Disk, DiskFault};
use dmn_registry::{ConnectFault, DisconnectFault, Registry};
use std::alloc::Global;

/// Adds a block behind the tip, or tells why not.
pub fn connect<D: Disk>(
    alloc: Global,
    registry: &mut Registry,
    disk: &mut D,
    block: &BlockFrame,
    body: &[u8],
) -> Result<Answer, DiskFault>
    requires usable { registry.old.spent ≡ false }
    requires block { IsBlock block.now }
    requires text { IsBlockText body.now block.now }
    requires fits { length body.now ≤ most_items }
    ensures answers { (desk : Desk) → Answers (requests.Connect block.now body.now) result desk desk registry.old registry.new (D.disk disk.old).told (D.disk disk.new).told }
    ensures bounded { IfOk result IsBounded }
    ensures moments { (m : Machine) → StandsOn registry.old m (D.disk disk.old).told
        → LeavesOnly (D.time disk.old) (D.disk disk.old) (D.disk disk.new) (OwnWith m (connecting body.now)) }
    ensures mark { (m : Machine) → StandsOn registry.old m (D.disk disk.old).told → MarksBlock result m registry.old registry.new (D.disk disk.new).told }
    ensures idle { IsIdle result → D.disk disk.new ≡ D.disk disk.old }
    ensures usable { OnOk result (registry.new.spent ≡ false) }
    ensures spent { OnErr result (registry.new.spent ≡ true) }
    ensures line { D.line disk.new ≡ D.line disk.old }
    ensures room { D.room disk.new ≡ D.room disk.old }
    ensures time { D.time disk.old ≤ D.time disk.new }
    ensures later { (D.disk disk.old).faults ≤ (D.disk disk.new).faults }
    ensures fault { IsErr result → Rose (D.disk disk.old).faults (D.disk disk.new).faults }
    ensures sure { D.tells_room ≡ true → HasRoom (Some (connecting body.now)) registry.old.journal.end (D.disk disk.old).room → HasRoomForSnapshot registry.old (D.disk disk.old).room → AnswersSurely result (D.disk disk.old) (D.disk disk.new) }
{
    match registry.connect(alloc, disk, block, body) {
        Ok(()) => {
            let tip = registry.branch().tip();
            Ok(Answer::Short(ShortAnswer::Connected {
                height: tip.height,
                hash: tip.hash,
            }))
        }
        Err(ConnectFault::Refused(refusal)) => Ok(Answer::Short(ShortAnswer::Refused(refusal))),
        Err(ConnectFault::JournalFull) => Ok(Answer::Short(ShortAnswer::JournalFull)),
        Err(ConnectFault::Memory) => Ok(Answer::Short(ShortAnswer::Memory)),
        Err(ConnectFault::DiskFault) => Err(DiskFault),
    }
}

impl Desk {
    /// Takes the last block back, or tells why not. Where it is taken back, what is kept of the branch with it is forgotten. This
    /// takes no memory.
    pub fn disconnect<D: Disk>(
        &mut self,
        registry: &mut Registry,
        disk: &mut D,
        hash: &Hash256,
    ) -> Result<Answer, DiskFault>
        requires usable { registry.old.spent ≡ false }
        ensures answers { Answers (requests.Disconnect hash.now) result self.old self.new registry.old registry.new (D.disk disk.old).told (D.disk disk.new).told }
        ensures bounded { IfOk result IsBounded }
        ensures moments { (m : Machine) → StandsOn registry.old m (D.disk disk.old).told
            → LeavesOnly (D.time disk.old) (D.disk disk.old) (D.disk disk.new) (OwnWith m (disconnecting hash.now)) }
        ensures newest { registry.new.newest ≡ registry.old.newest }
        ensures idle { IsIdle result → D.disk disk.new ≡ D.disk disk.old }
        ensures usable { OnOk result (registry.new.spent ≡ false) }
        ensures spent { OnErr result (registry.new.spent ≡ true) }
        ensures line { D.line disk.new ≡ D.line disk.old }
        ensures room { D.room disk.new ≡ D.room disk.old }
        ensures time { D.time disk.old ≤ D.time disk.new }
        ensures later { (D.disk disk.old).faults ≤ (D.disk disk.new).faults }
        ensures fault { IsErr result → Rose (D.disk disk.old).faults (D.disk disk.new).faults }
        ensures sure { D.tells_room ≡ true → HasRoom (Some (disconnecting hash.now)) registry.old.journal.end (D.disk disk.old).room → AnswersSurely result (D.disk disk.old) (D.disk disk.new) }
    {
        match registry.disconnect(disk, hash) {
            Ok(()) => {
                self.changes.forget();
                let tip = registry.branch().tip();
                Ok(Answer::Short(ShortAnswer::Disconnected {
                    height: tip.height,
                    hash: tip.hash,
                }))
            }
            Err(DisconnectFault::NotTip { tip }) => Ok(Answer::Short(ShortAnswer::NotTip { tip })),
            Err(DisconnectFault::AtStart) => Ok(Answer::Short(ShortAnswer::AtStart)),
            Err(DisconnectFault::TooDeep { floor }) => {
                Ok(Answer::Short(ShortAnswer::TooDeep { floor }))
            }
            Err(DisconnectFault::JournalFull) => Ok(Answer::Short(ShortAnswer::JournalFull)),
            Err(DisconnectFault::DiskFault) => Err(DiskFault),
        }
    }
}
