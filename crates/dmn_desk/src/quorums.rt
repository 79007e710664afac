//! The active quorums of a height, and the frame of that.

ghost use Rattle.std.specs.Prelude.{◌≡◌, IfOk, IsTrue};
ghost use Rattle.dmn_branch.specs.Machine.{MachineState};
ghost use Rattle.dmn_branch.specs.Stands.{StandsFor};
ghost use Rattle.dmn_bytes.specs.Sending.{Appends};
ghost use Rattle.dmn_desk.specs.Ask.{quorums_at};
ghost use Rattle.dmn_desk.specs.Framed.{quorums_body};
ghost use Rattle.dmn_frames.specs.Frames.{framed};
ghost use Rattle.dmn_desk.specs.Texts.{IsBounded, IsSendable};

use crate::answer::{Answer, GrownAnswer};
use crate::height::{is_held, not_held};
use crate::length::text_length;
use dmn_branch::Branch;
use dmn_bytes::{Items, Memory, Sink, Text, feed_count, feed_many};
use dmn_payloads::Commitment;
use std::alloc::Global;

/// The bytes of the count before the commitments.
const COUNT: u64 = 2;

// Whether the count and the length of these commitments fit their fields.
#[tactic(auto, unfolding(crate::specs::Framed::quorums_body))]
fn is_sendable(commitments: &[Commitment]) -> bool
    ensures { IsTrue result → IsSendable commitments.now }
{
    commitments.len() <= usize::from(u16::MAX)
        && text_length(commitments) <= u64::from(u32::MAX) - COUNT
}

/// Sends the frame of quorums. Its length is known before the commitments are sent.
pub fn feed_quorums<S: Sink>(commitments: &[Commitment], sink: &mut S)
    requires { IsSendable commitments.now }
    ensures { Appends S.holds S.kept sink.old sink.new (framed 0 (quorums_body commitments.now)) }
{
    sink.put(&[0]);
    feed_count((COUNT + text_length(commitments)) as usize, sink);
    (commitments.len() as u16).feed(sink);
    feed_many(commitments, sink);
}

/// The active quorums of a height. What no frame can tell would be answered like want of memory.
pub fn quorums_at(alloc: Global, branch: &Branch, height: u32) -> Result<Answer, Memory>
    ensures answer { IfOk result (λ answer. (m : MachineState) → StandsFor branch.now m → answer ≡ quorums_at m height) }
    ensures bounded { IfOk result IsBounded }
{
    let tip = branch.tip();
    if !is_held(&tip, height) {
        return Ok(not_held(&tip));
    }
    let quorums = branch.quorums_at(alloc, height)?;
    if !is_sendable(&quorums) {
        return Err(Memory);
    }
    Ok(Answer::Grown(GrownAnswer::Quorums(Items::from_vec(quorums))))
}
