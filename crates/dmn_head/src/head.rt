//! The bytes of a request's head, taken from a line.

ghost use Rattle.std.specs.Prelude.{◌≡◌, ◌+◌, ◌≤◌, true, length, IfOk};
ghost use Rattle.dmn_outside.specs.Counts.{HasCause, Rose};
ghost use Rattle.dmn_outside.specs.Failing.{KeepsSurely};
ghost use Rattle.dmn_outside.specs.Later.{IsQuiet};
ghost use Rattle.dmn_head.specs.Head.{ends_at, head_limit};
ghost use Rattle.dmn_head.specs.Steps.{FindsFrom, LiesWithin, TakesHead};

use dmn_outside::{Failed, Line};

/// As many bytes as a head may have.
pub const HEAD_LIMIT: usize = 8192;

/// How a caller's input is cut into head and rest.
#[derive(Clone, Copy, Debug, PartialEq, Eq)]
pub enum Cut {
    /// The head has so many bytes.
    Whole(usize),
    /// Its end does not come within the limit.
    TooLong,
    /// The input ends before its end.
    Short,
}

/// How many bytes were taken, and where the head among them ends.
#[derive(Clone, Copy, Debug, PartialEq, Eq)]
pub struct Taken {
    pub cut: Cut,
    pub filled: usize,
}

// Whether CR LF CR LF stands here.
fn is_end(bytes: &[u8], at: usize) -> bool
    requires { at + 4 ≤ length bytes.now }
    ensures { result ≡ ends_at bytes.now at }
{
    bytes[at] == b'\r' && bytes[at + 1] == b'\n' && bytes[at + 2] == b'\r' && bytes[at + 3] == b'\n'
}

// How many bytes there are up to and with the first CR LF CR LF that begins here or later.
fn find_end(bytes: &[u8], from: usize) -> Option<usize>
    requires { from ≤ length bytes.now }
    ensures { FindsFrom from bytes.now result }
{
    let mut at = from;
    'scan: while bytes.len() - at >= 4 {
        if is_end(bytes, at) {
            return Some(at + 4);
        }
        at += 1;
    }
    None
}

/// Takes bytes until a head's end has come, or as many as a head may have, or the input ends.
pub fn read_head<L: Line>(line: &mut L, buffer: &mut [u8]) -> Result<Taken, Failed>
    requires { length buffer.old ≡ head_limit }
    ensures within { IfOk result (λ taken. (taken.filled ≤ head_limit) × LiesWithin taken.cut taken.filled) }
    ensures takes { L.tells ≡ true → TakesHead result buffer.new (L.line line.old).talk (L.line line.new).talk }
    ensures quiet { IsQuiet L.tells_moments (L.time line.old) (L.time line.new) (L.line line.old) (L.line line.new) }
    ensures time { Rose (L.time line.old) (L.time line.new) }
    ensures disk { L.disk line.new ≡ L.disk line.old }
    ensures sure { L.tells_room ≡ true → KeepsSurely result (L.room line.old) (L.room line.new) (L.line line.old) (L.line line.new) }
    ensures cause { HasCause (L.line line.old).faults (L.line line.new).faults result }
{
    let mut filled = 0;
    'head: while filled < buffer.len() {
        let n = line.take(&mut buffer[filled..])?;
        if n == 0 {
            return Ok(Taken {
                cut: Cut::Short,
                filled,
            });
        }
        let from = filled.saturating_sub(3);
        filled += n;
        if let Some(size) = find_end(&buffer[..filled], from) {
            return Ok(Taken {
                cut: Cut::Whole(size),
                filled,
            });
        }
    }
    Ok(Taken {
        cut: Cut::TooLong,
        filled,
    })
}
