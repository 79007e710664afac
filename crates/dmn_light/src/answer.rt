//! Answers, and their frames.

ghost use Rattle.std.specs.Prelude.{◌≡◌, ◌≤◌, length};
ghost use Rattle.std.specs.Int.{w32, to_le_bytes};
ghost use Rattle.dmn_light.specs.Answers.{Fits, IsBounded, body_of, fault_body, fault_status, frame_of, held_body, status_of};

use dmn_bytes::Hash256;
use dmn_client::{Applied, ClientFault};
use dmn_frames::{Short, short_frame};

/// What a light client answers to a frame.
#[derive(Clone, Copy, Debug, PartialEq, Eq)]
pub enum Answer {
    /// The header is there.
    Added,
    /// What is held: after a diff, or as it is.
    Holds(Applied),
    /// The frame departs from its form at this place, counted from the frame's first byte.
    BadRequest { at: u32 },
    /// The client refuses, or memory ran out; nothing changed.
    Refused(ClientFault),
}

fn number_body(number: u32) -> Short
    ensures text { result ≡ to_le_bytes w32 number }
    ensures length { length result ≤ 32 }
{
    let mut text = Short::new();
    text.put(&number.to_le_bytes());
    text
}

fn hash_body(hash: &Hash256) -> Short
    ensures text { result ≡ hash.now.0 }
    ensures length { length result ≤ 32 }
{
    let mut text = Short::new();
    text.put(&hash.0);
    text
}

#[tactic(auto, unfolding(crate::specs::Answers::held_body))]
fn held_body(applied: &Applied) -> Short
    ensures text { result ≡ held_body applied.now }
    ensures length { length result ≤ 100 }
{
    let mut text = Short::new();
    text.put(&applied.held.0);
    text.put(&applied.root.0);
    text.put(&applied.count.to_le_bytes());
    text
}

fn fault_status(fault: &ClientFault) -> u8
    ensures { result ≡ fault_status fault.now }
{
    match fault {
        ClientFault::Memory => 1,
        ClientFault::DiffForm { .. } => 21,
        ClientFault::WrongBase { .. } => 22,
        ClientFault::UnknownHeader => 23,
        ClientFault::BadBranch => 24,
        ClientFault::BadCoinbase => 25,
        ClientFault::BadRoot { .. } => 26,
        ClientFault::HeaderDiffers { .. } => 27,
        ClientFault::HeadersFull => 28,
    }
}

#[tactic(auto, unfolding(crate::specs::Answers::fault_body))]
fn fault_body(fault: &ClientFault) -> Short
    requires { IsBounded (Answer.Refused fault.now) }
    ensures text { result ≡ fault_body fault.now }
    ensures length { length result ≤ 100 }
{
    match fault {
        ClientFault::DiffForm { at } => number_body(*at as u32),
        ClientFault::WrongBase { held } | ClientFault::HeaderDiffers { held } => hash_body(held),
        ClientFault::BadRoot {
            committed,
            computed,
        } => {
            let mut text = hash_body(committed);
            text.put(&computed.0);
            text
        }
        ClientFault::Memory
        | ClientFault::UnknownHeader
        | ClientFault::BadBranch
        | ClientFault::BadCoinbase
        | ClientFault::HeadersFull => Short::new(),
    }
}

impl Answer {
    /// The number of its status.
    pub fn status(&self) -> u8
        ensures { result ≡ status_of self.now }
    {
        match self {
            Answer::Added | Answer::Holds(_) => 0,
            Answer::BadRequest { .. } => 2,
            Answer::Refused(fault) => fault_status(fault),
        }
    }

    fn body(&self) -> Short
        requires { IsBounded self.now }
        ensures text { result ≡ body_of self.now }
        ensures length { length result ≤ 100 }
    {
        match self {
            Answer::Added => Short::new(),
            Answer::Holds(applied) => held_body(applied),
            Answer::BadRequest { at } => number_body(*at),
            Answer::Refused(fault) => fault_body(fault),
        }
    }

    /// Its frame, in a fixed array. This takes no memory.
    pub fn frame(&self) -> Short
        requires { IsBounded self.now }
        ensures text { result ≡ frame_of self.now }
        ensures fits { Fits self.now }
    {
        short_frame(self.status(), self.body().as_slice())
    }
}
