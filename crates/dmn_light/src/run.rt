//! Frames, answered one after another.

ghost use Rattle.std.specs.Prelude.{◌≡◌, List, ℕ, true, IfOk, IfSome};
ghost use Rattle.dmn_frames.specs.Frames.{Cuts, Frame};
ghost use Rattle.dmn_outside.specs.Counts.{HasCause, Rose};
ghost use Rattle.dmn_outside.specs.Failing.{KeepsSurely};
ghost use Rattle.dmn_outside.specs.Later.{IsLater, IsQuiet};
ghost use Rattle.dmn_light.specs.Answers.{IsBounded};
ghost use Rattle.dmn_light.specs.Laws.{EndsExactly, ending_of};
ghost use Rattle.dmn_light.specs.Outcome.{IsEnding, Outcome};
ghost use Rattle.dmn_light.specs.Room.{EndsSurely, NeverFaults, Suffices};
ghost use Rattle.dmn_light.specs.Steps.{Asks, Turns, TurnsSurely};

use crate::answer::Answer;
use crate::machine::{answer, reading};
use dmn_client::{Client, ClientFault};
use dmn_frames::{Body, Head, read_body, read_head};
use dmn_outside::{Failed, Line, send_all};
use dmn_status::Status;
use std::alloc::Global;

/// As many frames as one run answers.
const MOST_FRAMES: u32 = 4_294_967_295;

/// What a turn did.
#[derive(Clone, Copy, Debug, PartialEq, Eq)]
pub enum Turn {
    /// A frame was answered.
    Answered,
    /// The input has ended.
    Ended,
    /// The input ended within a frame.
    Cut,
}

// Takes a frame's body, and says the answer; none where the input ended before.
fn ask<L: Line>(
    alloc: Global,
    line: &mut L,
    client: &mut Client,
    kind: u8,
    size: u32,
) -> Result<Option<Answer>, Failed>
    ensures asks { L.tells ≡ true → Asks result client.old kind size client.new (L.line line.old).talk (L.line line.new).talk }
    ensures bounded { IfOk result (λ answer. IfSome answer IsBounded) }
    ensures quiet { IsQuiet L.tells_moments (L.time line.old) (L.time line.new) (L.line line.old) (L.line line.new) }
    ensures disk { L.disk line.new ≡ L.disk line.old }
    ensures sure { L.tells_room ≡ true → KeepsSurely result (L.room line.old) (L.room line.new) (L.line line.old) (L.line line.new) }
    ensures cause { HasCause (L.line line.old).faults (L.line line.new).faults result }
{
    let reading = reading(kind, size);
    match read_body(alloc, line, reading, size as usize)? {
        Body::Cut => Ok(None),
        Body::Lacking => Ok(Some(Answer::Refused(ClientFault::Memory))),
        Body::Kept(kept) => Ok(Some(answer(client, alloc, kind, size, kept.as_slice()))),
    }
}

// Takes a frame and sends its answer.
fn serve_frame<L: Line>(alloc: Global, line: &mut L, client: &mut Client) -> Result<Turn, Failed>
    ensures turns { L.tells ≡ true → Turns result client.old client.new (L.line line.old).talk (L.line line.new).talk }
    ensures later { IsLater L.tells_moments (L.time line.old) (L.time line.new) (L.line line.old) (L.line line.new) }
    ensures disk { L.disk line.new ≡ L.disk line.old }
    ensures time { Rose (L.time line.old) (L.time line.new) }
    ensures sure { L.tells ≡ true → L.tells_room ≡ true → TurnsSurely result client.old (L.room line.old) (L.room line.new) (L.line line.old) (L.line line.new) }
    ensures cause { HasCause (L.line line.old).faults (L.line line.new).faults result }
{
    match read_head(line)? {
        Head::Ended => Ok(Turn::Ended),
        Head::Cut => Ok(Turn::Cut),
        Head::Of { kind, size } => match ask(alloc, line, client, kind, size)? {
            None => Ok(Turn::Cut),
            Some(answer) => {
                let frame = answer.frame();
                send_all(line, frame.as_slice())?;
                Ok(Turn::Answered)
            }
        },
    }
}

// Answers the frames of a line, by a new client.
fn serve<L: Line>(alloc: Global, line: &mut L) -> Status
    ensures outcome { L.tells ≡ true → Outcome result (L.line line.old).talk (L.line line.new).talk }
    ensures ends { IsEnding result }
    ensures fault { result ≡ Status.LineFault → Rose (L.line line.old).faults (L.line line.new).faults }
    ensures later { IsLater L.tells_moments (L.time line.old) (L.time line.new) (L.line line.old) (L.line line.new) }
    ensures disk { L.disk line.new ≡ L.disk line.old }
    ensures time { Rose (L.time line.old) (L.time line.new) }
    ensures sure { L.tells ≡ true → L.tells_room ≡ true → Suffices (L.room line.old) (L.line line.old).talk.left → NeverFaults result (L.line line.old) (L.line line.new) }
{
    let mut client = Client::new(alloc);
    'serve: for _ in 0..MOST_FRAMES {
        match serve_frame(alloc, line, &mut client) {
            Ok(Turn::Answered) => {}
            Ok(Turn::Ended) => return Status::Done,
            Ok(Turn::Cut) => return Status::CutInput,
            Err(Failed) => return Status::LineFault,
        }
    }
    Status::Enough
}

/// A light client over a line: answers its frames, from a client without headers and with an empty list on.
pub fn client<L: Line>(alloc: Global, line: &mut L) -> Status
    // Where the line tells its bytes: what was read and sent, by the ending. Each answer is the client's, or Memory, and
    // then nothing changed.
    ensures outcome { L.tells ≡ true → Outcome result (L.line line.old).talk (L.line line.new).talk }

    // Nothing else is answered than Done, CutInput, Enough and LineFault: no memory is taken at the start.
    ensures ends { IsEnding result }

    // Done, CutInput and Enough come only where the text's frames say so, and where no count rose one of them comes.
    ensures exact { L.tells ≡ true → (frames : List Frame) (left : List ℕ) → Cuts (L.line line.old).talk.left frames left → EndsExactly result frames left }
    ensures complete { L.tells ≡ true → ¬ Rose (L.line line.old).faults (L.line line.new).faults → (frames : List Frame) (left : List ℕ) → Cuts (L.line line.old).talk.left frames left → result ≡ ending_of frames left }

    // Where the line tells how many bytes more may be sent, and that is enough for whatever may be answered: no count
    // rises, and the run ends as its text says.
    ensures sure { L.tells ≡ true → L.tells_room ≡ true → Suffices (L.room line.old) (L.line line.old).talk.left → EndsSurely result (L.line line.old) (L.line line.new) }

    // No disk call is made.
    ensures disk { L.disk line.new ≡ L.disk line.old }

    // The line's other meanings: no count falls, that of callers' faults is as before, time rises, and each byte that is
    // sent has a moment of this call.
    ensures later { IsLater L.tells_moments (L.time line.old) (L.time line.new) (L.line line.old) (L.line line.new) }
    ensures time { Rose (L.time line.old) (L.time line.new) }

    // LineFault comes only where the count of line faults rose.
    ensures fault { result ≡ Status.LineFault → Rose (L.line line.old).faults (L.line line.new).faults }
{
    serve(alloc, line)
}
