//! The frames of answers.

ghost use Rattle.std.specs.Prelude.{◌≡◌, ◌≤◌, ◌++◌, true, length, IfSome, OnOk, OnErr, is_some};
ghost use Rattle.dmn_desk.specs.Texts.{Fits, IsBounded, frame_of, is_short, short_body, short_frame, short_status};

use crate::answer::{Answer, GrownAnswer, ShortAnswer};
use crate::body::{
    connected_body, empty_body, framed, hash_body, held_body, number_body, refused_body, tip_body,
};
use crate::diff::feed_diff;
use crate::hashes::feed_hashes;
use crate::list::feed_list;
use crate::page::feed_page;
use crate::quorums::feed_quorums;
use crate::row::put_row;
use dmn_bytes::{Bytes, Draft, Memory};
use dmn_frames::Short;

impl ShortAnswer {
    /// The number of its status.
    pub fn status(&self) -> u8
        ensures { result ≡ short_status self.now }
    {
        match self {
            ShortAnswer::Connected { .. }
            | ShortAnswer::Disconnected { .. }
            | ShortAnswer::Tip { .. }
            | ShortAnswer::Pinned { .. }
            | ShortAnswer::Released => 0,
            ShortAnswer::Memory => 1,
            ShortAnswer::BadRequest { .. } => 2,
            ShortAnswer::NotHeld { .. } => 3,
            ShortAnswer::NoSuch => 4,
            ShortAnswer::BaseAbove => 5,
            ShortAnswer::PinsFull => 6,
            ShortAnswer::PinUnknown => 7,
            ShortAnswer::Refused(_) => 8,
            ShortAnswer::NotTip { .. } => 9,
            ShortAnswer::AtStart => 10,
            ShortAnswer::TooDeep { .. } => 11,
            ShortAnswer::JournalFull => 12,
        }
    }

    #[tactic(auto, unfolding(crate::specs::Texts::short_body))]
    fn body(&self) -> Short
        ensures text { result ≡ short_body self.now }
        ensures length { length result ≤ 100 }
    {
        match self {
            ShortAnswer::Released
            | ShortAnswer::Memory
            | ShortAnswer::NoSuch
            | ShortAnswer::BaseAbove
            | ShortAnswer::PinsFull
            | ShortAnswer::PinUnknown
            | ShortAnswer::AtStart
            | ShortAnswer::JournalFull => empty_body(),
            ShortAnswer::Connected { height, hash } | ShortAnswer::Disconnected { height, hash } =>
                { connected_body(*height, hash) }
            ShortAnswer::Tip {
                height,
                hash,
                low,
                top,
            } => tip_body(*height, hash, *low, *top),
            ShortAnswer::Pinned { pin } => number_body(*pin),
            ShortAnswer::BadRequest { at } => number_body(*at),
            ShortAnswer::NotHeld { low, high } => held_body(*low, *high),
            ShortAnswer::Refused(refusal) => refused_body(refusal),
            ShortAnswer::NotTip { tip } => hash_body(tip),
            ShortAnswer::TooDeep { floor } => number_body(*floor),
        }
    }

    /// Its frame, in a fixed array. This takes no memory.
    pub fn frame(&self) -> Short
        ensures text { result ≡ short_frame self.now }
        ensures fits { Fits (Answer.Short self.now) }
    {
        framed(self.status(), self.body().as_slice())
    }
}

impl GrownAnswer {
    // Appends its frame. Without memory nothing changes.
    #[tactic(auto, unfolding(crate::specs::Texts::grown_body))]
    fn put(&self, out: &mut Bytes) -> Result<(), Memory>
        requires { IsBounded (Answer.Grown self.now) }
        ensures ok { OnOk result (out.new ≡ out.old ++ frame_of (Answer.Grown self.now)) }
        ensures err { OnErr result (out.new ≡ out.old) }
        ensures fits { Fits (Answer.Grown self.now) }
    {
        match self {
            GrownAnswer::List {
                height,
                hash,
                root,
                entries,
            } => {
                let mut draft = Draft::on(out);
                feed_list(*height, hash, root, entries.as_slice(), &mut draft);
                draft.finish(out)
            }
            GrownAnswer::Row(row) => put_row(row, out),
            GrownAnswer::Payees(hashes) | GrownAnswer::Members(hashes) => {
                let mut draft = Draft::on(out);
                feed_hashes(hashes.as_slice(), &mut draft);
                draft.finish(out)
            }
            GrownAnswer::Quorums(commitments) => {
                let mut draft = Draft::on(out);
                feed_quorums(commitments.as_slice(), &mut draft);
                draft.finish(out)
            }
            GrownAnswer::Page(entries) => {
                let mut draft = Draft::on(out);
                feed_page(entries.as_slice(), &mut draft);
                draft.finish(out)
            }
            GrownAnswer::Diff(diff) => {
                let mut draft = Draft::on(out);
                feed_diff(diff, &mut draft);
                draft.finish(out)
            }
        }
    }
}

/// The frame of an answer in a fixed array; none for one that grows. It takes no memory.
pub fn short_text(answer: &Answer) -> Option<Short>
    ensures text { IfSome result (λ text. text ≡ frame_of answer.now) }
    ensures some { is_some result ≡ is_short answer.now }
{
    match answer {
        Answer::Short(answer) => Some(answer.frame()),
        Answer::Grown(_) => None,
    }
}

/// Appends the frame of an answer. Without memory nothing changes.
pub fn answer_text(answer: &Answer, out: &mut Bytes) -> Result<(), Memory>
    requires { IsBounded answer.now }
    ensures ok { OnOk result (out.new ≡ out.old ++ frame_of answer.now) }
    ensures err { OnErr result (out.new ≡ out.old) }
    ensures fits { Fits answer.now }
{
    match answer {
        Answer::Short(answer) => out.extend(answer.frame().as_slice()),
        Answer::Grown(answer) => answer.put(out),
    }
}
