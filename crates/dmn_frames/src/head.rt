//! The head of a frame.

ghost use Rattle.std.specs.Prelude.{◌≡◌, true};
ghost use Rattle.dmn_outside.specs.Counts.{HasCause, Rose};
ghost use Rattle.dmn_outside.specs.Failing.{KeepsSurely};
ghost use Rattle.dmn_outside.specs.Later.{IsQuiet};
ghost use Rattle.dmn_frames.specs.Steps.{Heads};

use dmn_outside::{Failed, Line, fill};

/// What stands at the front of the bytes to come.
#[derive(Clone, Copy, Debug, PartialEq, Eq)]
pub enum Head {
    /// Nothing.
    Ended,
    /// Less than a frame's kind and length.
    Cut,
    /// The number of a frame's kind, and its body's length.
    Of { kind: u8, size: u32 },
}

/// The bytes of a frame's kind and length.
const BYTES: usize = 5;

/// Takes a frame's kind and length.
pub fn read_head<L: Line>(line: &mut L) -> Result<Head, Failed>
    ensures heads { L.tells ≡ true → Heads result (L.line line.old).talk (L.line line.new).talk }
    ensures quiet { IsQuiet L.tells_moments (L.time line.old) (L.time line.new) (L.line line.old) (L.line line.new) }
    ensures time { Rose (L.time line.old) (L.time line.new) }
    ensures disk { L.disk line.new ≡ L.disk line.old }
    ensures sure { L.tells_room ≡ true → KeepsSurely result (L.room line.old) (L.room line.new) (L.line line.old) (L.line line.new) }
    ensures cause { HasCause (L.line line.old).faults (L.line line.new).faults result }
{
    let mut head = [0; 5];
    let n = fill(line, &mut head)?;
    if n == 0 {
        return Ok(Head::Ended);
    }
    if n < 5 {
        return Ok(Head::Cut);
    }
    let [kind, a, b, c, d] = head;
    Ok(Head::Of {
        kind,
        size: u32::from_le_bytes([a, b, c, d]),
    })
}
