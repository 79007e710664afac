//! One request, read from a line.

ghost use Rattle.std.specs.Prelude.{◌≡◌, ◌≤◌, true, length, IfOk};
ghost use Rattle.dmn_frames.specs.declared.limits.TheConstants.{LONGEST_BODY};
ghost use Rattle.dmn_outside.specs.Counts.{HasCause, Rose};
ghost use Rattle.dmn_outside.specs.Failing.{KeepsSurely};
ghost use Rattle.dmn_outside.specs.Later.{IsQuiet};
ghost use Rattle.dmn_http.specs.Exchanges.{AsksWell, ReadsExchange, ReadsSurely};
ghost use Rattle.dmn_http.specs.Steps.{AsksBody, ReadsBehind, ShowsBody};

use crate::body::{Taking, read_body};
use crate::reply::{HttpReply, memory_reply, refuse};
use dmn_bytes::Bytes;
use dmn_desk::{Kind, Request, RequestFault, read_request};
use dmn_head::{Cut, HEAD_LIMIT, HttpFault, Plan, Routes, plan_of, read_head};
use dmn_outside::{Failed, Line, LineFault};
use std::alloc::Global;

/// What came of reading a request.
#[derive(Drop)]
pub enum Exchange {
    /// A request.
    Ask(Request),
    /// No request, or no memory to read it, and the reply to it.
    Reply(HttpReply),
    /// The caller's input ended before its request did.
    Gone,
}

// What a body that was taken asks for.
fn asked_by(alloc: Global, body: &Bytes) -> Exchange
    requires { length body.now ≤ LONGEST_BODY }
    ensures shows { ShowsBody body.now result }
    ensures well { AsksWell result }
{
    match read_request(alloc, Kind::Connect, body.as_slice()) {
        Ok(request) => Exchange::Ask(request),
        Err(RequestFault::BadRequest { at }) => {
            Exchange::Reply(refuse(alloc, HttpFault::BadRequest { at }))
        }
        Err(RequestFault::Memory) => Exchange::Reply(memory_reply()),
    }
}

// Takes a body, and says what it asks for.
fn read_connect<L: Line>(
    alloc: Global,
    line: &mut L,
    front: &[u8],
    size: usize,
) -> Result<Exchange, Failed>
    requires { size ≤ LONGEST_BODY }
    ensures asks { L.tells ≡ true → AsksBody result front.now size (L.line line.old).talk (L.line line.new).talk }
    ensures well { IfOk result AsksWell }
    ensures quiet { IsQuiet L.tells_moments (L.time line.old) (L.time line.new) (L.line line.old) (L.line line.new) }
    ensures disk { L.disk line.new ≡ L.disk line.old }
    ensures sure { L.tells_room ≡ true → KeepsSurely result (L.room line.old) (L.room line.new) (L.line line.old) (L.line line.new) }
    ensures cause { HasCause (L.line line.old).faults (L.line line.new).faults result }
{
    match read_body(alloc, line, front, size)? {
        Taking::Whole(body) => Ok(asked_by(alloc, &body)),
        Taking::Lacking => Ok(Exchange::Reply(memory_reply())),
        Taking::Cut => Ok(Exchange::Gone),
    }
}

// Reads what a head asks for, where these bytes behind it are there.
fn read_behind<L: Line>(
    alloc: Global,
    line: &mut L,
    routes: &Routes,
    head: &[u8],
    front: &[u8],
) -> Result<Exchange, Failed>
    ensures reads { L.tells ≡ true → ReadsBehind result head.now front.now (L.line line.old).talk (L.line line.new).talk }
    ensures well { IfOk result AsksWell }
    ensures quiet { IsQuiet L.tells_moments (L.time line.old) (L.time line.new) (L.line line.old) (L.line line.new) }
    ensures disk { L.disk line.new ≡ L.disk line.old }
    ensures sure { L.tells_room ≡ true → KeepsSurely result (L.room line.old) (L.room line.new) (L.line line.old) (L.line line.new) }
    ensures cause { HasCause (L.line line.old).faults (L.line line.new).faults result }
{
    match plan_of(routes, head) {
        Plan::Refuse(fault) => Ok(Exchange::Reply(refuse(alloc, fault))),
        Plan::Ask(request) => Ok(Exchange::Ask(request)),
        Plan::Body(size) => read_connect(alloc, line, front, size),
    }
}

// Reads a request.
fn read_whole<L: Line>(alloc: Global, line: &mut L, routes: &Routes) -> Result<Exchange, Failed>
    ensures reads { L.tells ≡ true → ReadsExchange result (L.line line.old).talk (L.line line.new).talk }
    ensures well { IfOk result AsksWell }
    ensures quiet { IsQuiet L.tells_moments (L.time line.old) (L.time line.new) (L.line line.old) (L.line line.new) }
    ensures time { Rose (L.time line.old) (L.time line.new) }
    ensures disk { L.disk line.new ≡ L.disk line.old }
    ensures sure { L.tells_room ≡ true → KeepsSurely result (L.room line.old) (L.room line.new) (L.line line.old) (L.line line.new) }
    ensures cause { HasCause (L.line line.old).faults (L.line line.new).faults result }
{
    let mut buffer = [0; HEAD_LIMIT];
    let taken = read_head(line, &mut buffer)?;
    match taken.cut {
        Cut::Whole(size) => {
            let head = &buffer[..size];
            let front = &buffer[size..taken.filled];
            read_behind(alloc, line, routes, head, front)
        }
        Cut::TooLong => Ok(Exchange::Reply(refuse(alloc, HttpFault::HeadTooLong))),
        Cut::Short => Ok(Exchange::Gone),
    }
}

/// Reads what this caller asks for, from its bytes up to the end of a head and of the body that the head asks to read.
pub fn read_exchange<L: Line>(
    alloc: Global,
    line: &mut L,
    routes: &Routes,
) -> Result<Exchange, LineFault>
    // What all of the caller's bytes ask for: the request, or the first check that fails; a fault comes before the bytes
    // that were taken decide it.
    ensures reads { L.tells ≡ true → ReadsExchange result (L.line line.old).talk (L.line line.new).talk }
    ensures well { IfOk result AsksWell }
    ensures quiet { IsQuiet L.tells_moments (L.time line.old) (L.time line.new) (L.line line.old) (L.line line.new) }
    ensures time { Rose (L.time line.old) (L.time line.new) }
    ensures disk { L.disk line.new ≡ L.disk line.old }
    ensures sure { L.tells_room ≡ true → ReadsSurely result (L.room line.old) (L.room line.new) (L.line line.old) (L.line line.new) }
    ensures cause { HasCause (L.line line.old).faults (L.line line.new).faults result }
{
    match read_whole(alloc, line, routes) {
        Ok(exchange) => Ok(exchange),
        Err(Failed) => Err(LineFault),
    }
}
