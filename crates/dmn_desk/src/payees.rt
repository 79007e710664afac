//! Who is paid next after a height.

ghost use Rattle.std.specs.Prelude.{◌≡◌, IfOk};
ghost use Rattle.dmn_branch.specs.Machine.{MachineState};
ghost use Rattle.dmn_branch.specs.Stands.{StandsFor};
ghost use Rattle.dmn_desk.specs.Ask.{payees_at};
ghost use Rattle.dmn_desk.specs.Texts.{IsBounded};

use crate::answer::{Answer, GrownAnswer};
use crate::height::{is_held, not_held};
use dmn_branch::Branch;
use dmn_bytes::{Items, Memory};
use std::alloc::Global;

/// The next `count` masternodes to be paid after a height.
pub fn payees_at(alloc: Global, branch: &Branch, height: u32, count: u16) -> Result<Answer, Memory>
    ensures answer { IfOk result (λ answer. (m : MachineState) → StandsFor branch.now m → answer ≡ payees_at m height count) }
    ensures bounded { IfOk result IsBounded }
{
    let tip = branch.tip();
    if !is_held(&tip, height) {
        return Ok(not_held(&tip));
    }
    let hashes = branch.payees_at(alloc, height, count)?;
    Ok(Answer::Grown(GrownAnswer::Payees(Items::from_vec(hashes))))
}
