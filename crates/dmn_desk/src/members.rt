//! The members of a quorum.

ghost use Rattle.std.specs.Prelude.{◌≡◌, IfOk};
ghost use Rattle.dmn_branch.specs.Machine.{MachineState};
ghost use Rattle.dmn_branch.specs.Stands.{StandsFor};
ghost use Rattle.dmn_desk.specs.Ask.{members_at};
ghost use Rattle.dmn_desk.specs.Texts.{IsBounded};

use crate::answer::{Answer, GrownAnswer, ShortAnswer};
use crate::height::{is_held, not_held};
use dmn_branch::Branch;
use dmn_bytes::{Items, Memory};
use dmn_quorums::params_of;
use std::alloc::Global;

/// The members of the quorum of a type whose base block is that of a height. The type is asked for first, then whether the
/// height is held, and then whether it is a base.
pub fn members_at(alloc: Global, branch: &Branch, kind: u8, height: u32) -> Result<Answer, Memory>
    ensures answer { IfOk result (λ answer. (m : MachineState) → StandsFor branch.now m → answer ≡ members_at m kind height) }
    ensures bounded { IfOk result IsBounded }
{
    if params_of(&branch.profile().quorums, kind).is_none() {
        return Ok(Answer::Short(ShortAnswer::NoSuch));
    }
    let tip = branch.tip();
    if !is_held(&tip, height) {
        return Ok(not_held(&tip));
    }
    match branch.members_at(alloc, kind, height)? {
        None => Ok(Answer::Short(ShortAnswer::NoSuch)),
        Some(members) => Ok(Answer::Grown(GrownAnswer::Members(Items::from_vec(members)))),
    }
}
