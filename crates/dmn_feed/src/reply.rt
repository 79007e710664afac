//! The frame of an answer, as it is sent.

ghost use Rattle.std.specs.Prelude.{◌≡◌};
ghost use Rattle.dmn_desk.specs.Texts.{IsBounded};
ghost use Rattle.dmn_feed.specs.Steps.{RepliesGrown, RepliesTo, reply_bytes};

use dmn_bytes::Bytes;
use dmn_desk::{Answer, ShortAnswer, answer_text};
use dmn_frames::Short;
use std::alloc::Global;

/// The frame of an answer, as it is sent.
#[derive(Drop)]
pub enum Reply {
    /// In a fixed array, which took no memory.
    Fixed(Short),
    Grown(Bytes),
}

impl Reply {
    pub fn as_slice(&self) -> &[u8]
        ensures { result.now ≡ reply_bytes self.now }
    {
        match self {
            Reply::Fixed(bytes) => bytes.as_slice(),
            Reply::Grown(bytes) => bytes.as_slice(),
        }
    }

    /// The reply of an answer; where there is no memory for one that grows, that of Memory.
    pub fn to(alloc: Global, answer: &Answer) -> Reply
        requires { IsBounded answer.now }
        ensures { RepliesTo (reply_bytes result) answer.now }
    {
        match answer {
            Answer::Short(answer) => Reply::Fixed(answer.frame()),
            Answer::Grown(_) => Reply::grown(alloc, answer),
        }
    }

    fn grown(alloc: Global, answer: &Answer) -> Reply
        requires { IsBounded answer.now }
        ensures { RepliesGrown (reply_bytes result) answer.now }
    {
        let mut bytes = Bytes::new(alloc);
        match answer_text(answer, &mut bytes) {
            Ok(()) => Reply::Grown(bytes),
            Err(_) => Reply::Fixed(ShortAnswer::Memory.frame()),
        }
    }
}
