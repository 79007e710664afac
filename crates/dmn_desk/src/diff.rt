//! What changed in the list between two blocks, and the frame of that.

ghost use Rattle.std.specs.Prelude.{◌≡◌, ◌-◌, ◌<◌, ◌^◌, IfOk, IfSome, IsTrue, length, min};
ghost use Rattle.dmn_branch.specs.Asked.{rows_at};
ghost use Rattle.dmn_branch.specs.Machine.{MachineState, height_of, state_at};
ghost use Rattle.dmn_branch.specs.Stands.{IsHeld, StandsFor};
ghost use Rattle.dmn_bytes.specs.Sending.{Appends};
ghost use Rattle.dmn_diff.specs.Defs.{diff_text};
ghost use Rattle.dmn_desk.specs.Ask.{diff, diff_to, diff_until, is_above, of_state};
ghost use Rattle.dmn_frames.specs.Frames.{framed};
ghost use Rattle.dmn_desk.specs.Kept.{AreChanges, StayChanges};
ghost use Rattle.dmn_desk.specs.Texts.{IsBounded};

use crate::answer::{Answer, GrownAnswer, ShortAnswer};
use crate::changes::{Changes, Heights};
use crate::height::not_held;
use crate::length::text_length;
use dmn_branch::Branch;
use dmn_bytes::{Hash256, Memory, Sink, Text, feed_count, is_zero};
use dmn_diff::Diff;
use std::alloc::Global;
use std::array;

// How many bytes the text of a diff has, as far as the type tells.
fn length_of(diff: &Diff) -> u64
    ensures { result ≡ min (2 ^ 64 - 1) (length (diff_text diff.now)) }
{
    text_length(array::from_ref(diff))
}

// Whether the length of the text fits its field.
fn is_sendable(diff: &Diff) -> bool
    ensures { IsTrue result → length (diff_text diff.now) < 2 ^ 32 }
{
    length_of(diff) <= u64::from(u32::MAX)
}

/// Sends the frame of a diff. Its length is known before it is sent.
pub fn feed_diff<S: Sink>(diff: &Diff, sink: &mut S)
    requires { length (diff_text diff.now) < 2 ^ 32 }
    ensures { Appends S.holds S.kept sink.old sink.new (framed 0 (diff_text diff.now)) }
{
    sink.put(&[0]);
    feed_count(length_of(diff) as usize, sink);
    diff.feed(sink);
}

// The diff to the block of a height, where there is a block.
fn diff_to(
    alloc: Global,
    branch: &Branch,
    changes: &mut Changes,
    base: &Hash256,
    heights: Heights,
) -> Result<Answer, Memory>
    requires base { IfSome heights.base (IsHeld branch.now) }
    requires target { IsHeld branch.now heights.target }
    ensures answer { (m : MachineState) → StandsFor branch.now m → AreChanges m changes.old.kept.entries → IfOk result (λ answer. answer ≡ of_state m (diff_to base.now (rows_at m heights.base)) (state_at m heights.target)) }
    ensures stay { StayChanges branch.now changes.old changes.new }
    ensures bounded { IfOk result IsBounded }
{
    let Some((coinbase, proof)) = branch.coinbase_at(heights.target) else {
        return Ok(Answer::Short(ShortAnswer::NoSuch));
    };
    let change = changes.between(alloc, branch, heights)?;
    let diff = Diff {
        base: *base,
        block: branch.list_at(heights.target).hash(),
        branch: proof.copy(alloc)?,
        coinbase: coinbase.copy(alloc)?,
        deleted: change.deleted,
        entries: change.entries,
    };
    if !is_sendable(&diff) {
        return Err(Memory);
    }
    Ok(Answer::Grown(GrownAnswer::Diff(diff)))
}

// Whether a base's height is above a target's. No base is the empty list.
fn is_above(from: Option<u32>, height: u32) -> bool
    ensures { result ≡ is_above from height }
{
    match from {
        Some(from) => height < from,
        None => false,
    }
}

// The diff to a block, which is to be held and not below the base.
fn diff_until(
    alloc: Global,
    branch: &Branch,
    changes: &mut Changes,
    base: &Hash256,
    from: Option<u32>,
    block: &Hash256,
) -> Result<Answer, Memory>
    requires { IfSome from (IsHeld branch.now) }
    ensures answer { (m : MachineState) → StandsFor branch.now m → AreChanges m changes.old.kept.entries → IfOk result (λ answer. answer ≡ diff_until m base.now from (height_of m block.now)) }
    ensures stay { StayChanges branch.now changes.old changes.new }
    ensures bounded { IfOk result IsBounded }
{
    let Some(height) = branch.height_of(block) else {
        return Ok(not_held(&branch.tip()));
    };
    if is_above(from, height) {
        return Ok(Answer::Short(ShortAnswer::BaseAbove));
    }
    let heights = Heights {
        base: from,
        target: height,
    };
    diff_to(alloc, branch, changes, base, heights)
}

/// What changed in the list between two blocks, by the changes that were kept. A zero base is the empty list. That the base is
/// held is asked first, then whether the block is, whether it is not below the base, and whether it is one. What no frame can
/// tell would be answered like want of memory.
#[tactic(auto, unfolding(crate::specs::Ask::diff))]
pub fn diff_at(
    alloc: Global,
    branch: &Branch,
    changes: &mut Changes,
    base: &Hash256,
    block: &Hash256,
) -> Result<Answer, Memory>
    ensures answer { (m : MachineState) → StandsFor branch.now m → AreChanges m changes.old.kept.entries → IfOk result (λ answer. answer ≡ diff m base.now block.now) }
    ensures stay { StayChanges branch.now changes.old changes.new }
    ensures bounded { IfOk result IsBounded }
{
    if is_zero(&base.0) {
        return diff_until(alloc, branch, changes, base, None, block);
    }
    match branch.height_of(base) {
        Some(from) => diff_until(alloc, branch, changes, base, Some(from), block),
        None => Ok(not_held(&branch.tip())),
    }
}
