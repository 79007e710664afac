//! The body of a frame, as much of it as is read.

ghost use Rattle.std.specs.Prelude.{◌≡◌, ◌≤◌, true, length, IfOk, IfSome};
ghost use Rattle.dmn_outside.specs.Counts.{HasCause};
ghost use Rattle.dmn_outside.specs.Failing.{KeepsSurely};
ghost use Rattle.dmn_outside.specs.Later.{IsQuiet};
ghost use Rattle.dmn_frames.specs.Steps.{BodyOf, Fronts, IsWithin, kept_bytes};

use crate::limits::FRONT;
use crate::reading::Reading;
use crate::short::Short;
use dmn_bytes::Bytes;
use dmn_outside::{Failed, Gathered, Line, fill, gather, skip};
use std::alloc::Global;

/// What is kept of a body.
#[derive(Drop)]
pub enum Kept {
    Nothing,
    /// Its front, which took no memory.
    Front(Short),
    /// All of it.
    Whole(Bytes),
}

impl Kept {
    pub fn as_slice(&self) -> &[u8]
        ensures { result.now ≡ kept_bytes self.now }
    {
        match self {
            Kept::Nothing => &[],
            Kept::Front(bytes) => bytes.as_slice(),
            Kept::Whole(bytes) => bytes.as_slice(),
        }
    }
}

/// A body that was taken.
#[derive(Drop)]
pub enum Body {
    /// The input ended before it did.
    Cut,
    /// There was no memory for it, and it was dropped.
    Lacking,
    Kept(Kept),
}

// Takes so many bytes and keeps the first 64 of them.
fn read_front<L: Line>(line: &mut L, size: usize) -> Result<Option<Short>, Failed>
    ensures fronts { L.tells ≡ true → Fronts size result (L.line line.old).talk (L.line line.new).talk }
    ensures fits { IfOk result (λ front. IfSome front (λ bytes. length bytes ≤ size)) }
    ensures quiet { IsQuiet L.tells_moments (L.time line.old) (L.time line.new) (L.line line.old) (L.line line.new) }
    ensures disk { L.disk line.new ≡ L.disk line.old }
    ensures sure { L.tells_room ≡ true → KeepsSurely result (L.room line.old) (L.room line.new) (L.line line.old) (L.line line.new) }
    ensures cause { HasCause (L.line line.old).faults (L.line line.new).faults result }
{
    let mut buffer = [0; FRONT];
    let want = size.min(FRONT);
    let n = fill(line, &mut buffer[..want])?;
    if n < want {
        return Ok(None);
    }
    let whole = skip(line, size - want)?;
    if !whole {
        return Ok(None);
    }
    let mut front = Short::new();
    front.put(&buffer[..want]);
    Ok(Some(front))
}

// Takes a body, and keeps all of it.
fn read_whole<L: Line>(alloc: Global, line: &mut L, size: usize) -> Result<Body, Failed>
    ensures bodies { L.tells ≡ true → BodyOf Reading.Whole size result (L.line line.old).talk (L.line line.new).talk }
    ensures fits { IfOk result (IsWithin size) }
    ensures quiet { IsQuiet L.tells_moments (L.time line.old) (L.time line.new) (L.line line.old) (L.line line.new) }
    ensures disk { L.disk line.new ≡ L.disk line.old }
    ensures sure { L.tells_room ≡ true → KeepsSurely result (L.room line.old) (L.room line.new) (L.line line.old) (L.line line.new) }
    ensures cause { HasCause (L.line line.old).faults (L.line line.new).faults result }
{
    let mut body = Bytes::new(alloc);
    match gather(line, size, &mut body)? {
        Gathered::Whole => Ok(Body::Kept(Kept::Whole(body))),
        Gathered::Lacking => Ok(Body::Lacking),
        Gathered::Cut => Ok(Body::Cut),
    }
}

/// Takes a body of this size, and keeps as much of it as is read.
pub fn read_body<L: Line>(
    alloc: Global,
    line: &mut L,
    reading: Reading,
    size: usize,
) -> Result<Body, Failed>
    ensures bodies { L.tells ≡ true → BodyOf reading size result (L.line line.old).talk (L.line line.new).talk }
    ensures lacking { IfOk result (λ body. body ≡ Body.Lacking → reading ≡ Reading.Whole) }
    ensures fits { IfOk result (IsWithin size) }
    ensures quiet { IsQuiet L.tells_moments (L.time line.old) (L.time line.new) (L.line line.old) (L.line line.new) }
    ensures disk { L.disk line.new ≡ L.disk line.old }
    ensures sure { L.tells_room ≡ true → KeepsSurely result (L.room line.old) (L.room line.new) (L.line line.old) (L.line line.new) }
    ensures cause { HasCause (L.line line.old).faults (L.line line.new).faults result }
{
    match reading {
        Reading::Nothing => match skip(line, size)? {
            true => Ok(Body::Kept(Kept::Nothing)),
            false => Ok(Body::Cut),
        },
        Reading::Front => match read_front(line, size)? {
            Some(front) => Ok(Body::Kept(Kept::Front(front))),
            None => Ok(Body::Cut),
        },
        Reading::Whole => read_whole(alloc, line, size),
    }
}
