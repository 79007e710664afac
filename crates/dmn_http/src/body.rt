//! The body of a request, taken from a line.

ghost use Rattle.std.specs.Prelude.{◌≡◌, ◌+◌, true, length, take, IfOk, ℕ, List};
ghost use Rattle.dmn_outside.specs.Counts.{HasCause};
ghost use Rattle.dmn_outside.specs.Failing.{KeepsSurely};
ghost use Rattle.dmn_outside.specs.Later.{IsQuiet};
ghost use Rattle.dmn_http.specs.Steps.{HasSize, TakesBody};

use dmn_bytes::Bytes;
use dmn_outside::{Failed, Gathered, Line, gather, skip};
use std::alloc::Global;

/// How a body was taken.
#[derive(Drop)]
pub enum Taking {
    Whole(Bytes),
    /// There was no memory for it, and it was dropped.
    Lacking,
    /// The input ended before it did.
    Cut,
}

// Takes the rest of a body whose front is there.
fn rest_of_body<L: Line>(line: &mut L, mut body: Bytes, size: usize) -> Result<Taking, Failed>
    ensures takes { L.tells ≡ true → TakesBody result body (length body + size) (L.line line.old).talk (L.line line.new).talk }
    ensures size { IfOk result (HasSize (length body + size)) }
    ensures quiet { IsQuiet L.tells_moments (L.time line.old) (L.time line.new) (L.line line.old) (L.line line.new) }
    ensures disk { L.disk line.new ≡ L.disk line.old }
    ensures sure { L.tells_room ≡ true → KeepsSurely result (L.room line.old) (L.room line.new) (L.line line.old) (L.line line.new) }
    ensures cause { HasCause (L.line line.old).faults (L.line line.new).faults result }
{
    match gather(line, size, &mut body)? {
        Gathered::Whole => Ok(Taking::Whole(body)),
        Gathered::Lacking => Ok(Taking::Lacking),
        Gathered::Cut => Ok(Taking::Cut),
    }
}

// Drops the rest of a body for whose front there was no memory.
fn skip_body<L: Line>(line: &mut L, size: usize) -> Result<Taking, Failed>
    ensures takes { L.tells ≡ true → (front : List ℕ) → TakesBody result front (length front + size) (L.line line.old).talk (L.line line.new).talk }
    ensures size { (n : ℕ) → IfOk result (HasSize n) }
    ensures quiet { IsQuiet L.tells_moments (L.time line.old) (L.time line.new) (L.line line.old) (L.line line.new) }
    ensures disk { L.disk line.new ≡ L.disk line.old }
    ensures sure { L.tells_room ≡ true → KeepsSurely result (L.room line.old) (L.room line.new) (L.line line.old) (L.line line.new) }
    ensures cause { HasCause (L.line line.old).faults (L.line line.new).faults result }
{
    if skip(line, size)? {
        Ok(Taking::Lacking)
    } else {
        Ok(Taking::Cut)
    }
}

/// Takes a body of this size whose front is there, with or without what comes behind it.
pub fn read_body<L: Line>(
    alloc: Global,
    line: &mut L,
    front: &[u8],
    size: usize,
) -> Result<Taking, Failed>
    ensures takes { L.tells ≡ true → TakesBody result (take size front.now) size (L.line line.old).talk (L.line line.new).talk }
    ensures size { IfOk result (HasSize size) }
    ensures quiet { IsQuiet L.tells_moments (L.time line.old) (L.time line.new) (L.line line.old) (L.line line.new) }
    ensures disk { L.disk line.new ≡ L.disk line.old }
    ensures sure { L.tells_room ≡ true → KeepsSurely result (L.room line.old) (L.room line.new) (L.line line.old) (L.line line.new) }
    ensures cause { HasCause (L.line line.old).faults (L.line line.new).faults result }
{
    let have = front.len().min(size);
    match Bytes::from_slice(alloc, &front[..have]) {
        Ok(body) => rest_of_body(line, body, size - have),
        Err(_) => skip_body(line, size - have),
    }
}
