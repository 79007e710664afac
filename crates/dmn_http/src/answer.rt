//! The replies to answers.

ghost use Rattle.std.specs.Prelude.{◌≡◌, ◌≤◌, true, drop, length};
ghost use Rattle.hex.specs.Hex.{encode_lower};
ghost use Rattle.dmn_desk.specs.Texts.{IsBounded, body_of};
ghost use Rattle.dmn_http.specs.Answered.{ShowsAnswer, block_body, pin_body, pin_of, released_body};
ghost use Rattle.dmn_http.specs.Steps.{ShowsBytes, ShowsShort};
ghost use Rattle.dmn_http.specs.Texts.{reply_text, text_of};

use crate::answer_json::{
    not_held_json, not_tip_json, payees_json, refusal_json, tip_json, too_deep_json,
};
use crate::reply::{HttpReply, ReplyBody, error_json, json_reply, memory_reply, place_json};
use dmn_bytes::{Bytes, Hash256};
use dmn_desk::{Answer, GrownAnswer, HEAD, Request, Short, ShortAnswer, answer_text};
use hex::encode_to_slice;
use itoa::Buffer;
use std::alloc::Global;

// A reply with JSON in a fixed array.
fn fixed_reply(body: Short) -> HttpReply
    ensures { reply_text result ≡ text_of 200 true body }
{
    HttpReply {
        status: 200,
        json: true,
        body: ReplyBody::Fixed(body),
    }
}

// The 64 digits of a hash.
fn digits_of(bytes: &[u8]) -> [u8; 64]
    requires { length bytes.now ≡ 32 }
    ensures { result ≡ encode_lower bytes.now }
{
    let mut digits = [0; 64];
    match encode_to_slice(bytes, &mut digits) {
        Ok(()) => digits,
        Err(_) => unreachable!(),
    }
}

// Where a block stands.
fn block_text(hash: &Hash256, height: u32) -> Short
    ensures { result ≡ block_body hash.now.0 height }
{
    let mut body = Short::new();
    let mut buffer = Buffer::new();
    body.put(b"{\"hash\":\"");
    body.put(&digits_of(&hash.0));
    body.put(b"\",\"height\":");
    body.put(buffer.format(height).as_bytes());
    body.put(b"}");
    body
}

// A pin that was made.
fn pin_text(pin: u32) -> Short
    ensures { result ≡ pin_body pin }
{
    let mut body = Short::new();
    let mut buffer = Buffer::new();
    body.put(b"{\"pin\":");
    body.put(buffer.format(pin).as_bytes());
    body.put(b"}");
    body
}

// A pin that was released.
fn released_text(pin: u32) -> Short
    ensures { result ≡ released_body pin }
{
    let mut body = Short::new();
    let mut buffer = Buffer::new();
    body.put(b"{\"released\":");
    body.put(buffer.format(pin).as_bytes());
    body.put(b"}");
    body
}

// The pin that a request releases.
fn pin_of(request: &Request) -> u32
    ensures { result ≡ pin_of request.now }
{
    match request {
        Request::Release { pin } => *pin,
        Request::Connect { .. }
        | Request::Disconnect { .. }
        | Request::Tip
        | Request::List { .. }
        | Request::Row { .. }
        | Request::Payees { .. }
        | Request::Members { .. }
        | Request::Quorums { .. }
        | Request::Diff { .. }
        | Request::Pin { .. }
        | Request::Page { .. } => 0,
    }
}

// A reply whose body is these bytes, or that of Memory.
fn bytes_reply(alloc: Global, bytes: &[u8]) -> HttpReply
    ensures { ShowsBytes bytes.now result }
{
    match Bytes::from_slice(alloc, bytes) {
        Ok(body) => HttpReply {
            status: 200,
            json: false,
            body: ReplyBody::Grown(body),
        },
        Err(_) => memory_reply(),
    }
}

// The body of a frame.
fn body_behind(frame: &[u8]) -> &[u8]
    requires { 5 ≤ length frame.now }
    ensures { result.now ≡ drop 5 frame.now }
{
    &frame[HEAD as usize..]
}

// The reply whose body is that of the answer's frame, or that of Memory.
fn frame_reply(alloc: Global, answer: &Answer) -> HttpReply
    requires { IsBounded answer.now }
    ensures { ShowsBytes (body_of answer.now) result }
{
    let mut frame = Bytes::new(alloc);
    match answer_text(answer, &mut frame) {
        Ok(()) => bytes_reply(alloc, body_behind(frame.as_slice())),
        Err(_) => memory_reply(),
    }
}

// The reply to an answer whose length is bounded.
fn short_reply(alloc: Global, request: &Request, answer: &ShortAnswer) -> HttpReply
    ensures { ShowsShort request.now answer.now result }
{
    match answer {
        ShortAnswer::Memory => memory_reply(),
        ShortAnswer::Connected { height, hash } | ShortAnswer::Disconnected { height, hash } => {
            fixed_reply(block_text(hash, *height))
        }
        ShortAnswer::Tip {
            height,
            hash,
            low,
            top,
        } => json_reply(200, tip_json(alloc, &hash.0, *height, *low, *top)),
        ShortAnswer::Pinned { pin } => fixed_reply(pin_text(*pin)),
        ShortAnswer::Released => fixed_reply(released_text(pin_of(request))),
        ShortAnswer::BadRequest { at } => json_reply(400, place_json(alloc, *at as usize)),
        ShortAnswer::NotHeld { low, high } => json_reply(410, not_held_json(alloc, *low, *high)),
        ShortAnswer::NoSuch => json_reply(404, error_json(alloc, "NoSuch")),
        ShortAnswer::BaseAbove => json_reply(409, error_json(alloc, "BaseAbove")),
        ShortAnswer::PinsFull => json_reply(409, error_json(alloc, "PinsFull")),
        ShortAnswer::PinUnknown => json_reply(404, error_json(alloc, "PinUnknown")),
        ShortAnswer::Refused(refusal) => {
            json_reply(409, refusal_json(alloc, refusal.rule.number(), refusal.tx))
        }
        ShortAnswer::NotTip { tip } => json_reply(409, not_tip_json(alloc, &tip.0)),
        ShortAnswer::AtStart => json_reply(409, error_json(alloc, "AtStart")),
        ShortAnswer::JournalFull => json_reply(507, error_json(alloc, "JournalFull")),
        ShortAnswer::TooDeep { floor } => json_reply(409, too_deep_json(alloc, *floor)),
    }
}

/// The reply to the answer of a request. That to a command that was accepted takes no memory; where there is none for
/// another, it is the reply of Memory.
pub fn reply_of(alloc: Global, request: &Request, answer: &Answer) -> HttpReply
    requires { IsBounded answer.now }
    ensures { ShowsAnswer request.now answer.now result }
{
    match answer {
        Answer::Short(answer) => short_reply(alloc, request, answer),
        Answer::Grown(GrownAnswer::Payees(hashes)) => {
            json_reply(200, payees_json(alloc, hashes.as_slice()))
        }
        Answer::Grown(
            GrownAnswer::List { .. }
            | GrownAnswer::Row(_)
            | GrownAnswer::Members(_)
            | GrownAnswer::Quorums(_)
            | GrownAnswer::Page(_)
            | GrownAnswer::Diff(_),
        ) => frame_reply(alloc, answer),
    }
}
