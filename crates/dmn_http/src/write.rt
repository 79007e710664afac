//! Replies, sent.

ghost use Rattle.std.specs.Prelude.{◌≡◌, ◌<◌, ◌≤◌, ◌++◌, true, length};
ghost use Rattle.dmn_outside.specs.Counts.{HasCause, Rose};
ghost use Rattle.dmn_outside.specs.Later.{IsLater};
ghost use Rattle.dmn_http.specs.Replies.{SendsReply, SendsReplySurely, StampsReply};
ghost use Rattle.dmn_http.specs.Texts.{words_of, type_of, reply_head, reply_text};

use crate::front::Front;
use crate::reply::HttpReply;
use dmn_outside::{Failed, Line, LineFault, send_all};
use itoa::Buffer;

// The number of a status, and its words.
#[tactic(auto, unfolding(crate::specs::Texts::words_of))]
fn words(status: u16) -> &'static [u8]
    ensures text { result.now ≡ words_of status }
    ensures short { length result.now ≤ 24 }
{
    if status == 200 {
        return b"200 OK";
    }
    if status == 400 {
        return b"400 Bad Request";
    }
    if status == 404 {
        return b"404 Not Found";
    }
    if status == 405 {
        return b"405 Method Not Allowed";
    }
    if status == 409 {
        return b"409 Conflict";
    }
    if status == 410 {
        return b"410 Gone";
    }
    if status == 413 {
        return b"413 Content Too Large";
    }
    if status == 507 {
        return b"507 Insufficient Storage";
    }
    b"503 Service Unavailable"
}

#[tactic(auto, unfolding(crate::specs::Texts::type_of))]
fn content_type(json: bool) -> &'static [u8]
    ensures text { result.now ≡ type_of json }
    ensures short { length result.now ≤ 24 }
{
    if json {
        return b"application/json";
    }
    b"application/octet-stream"
}

// A reply up to its body.
fn head_text(status: u16, json: bool, size: usize) -> Front
    ensures text { result ≡ reply_head status json size }
    ensures some { 0 < length result }
{
    let mut head = Front::new();
    let mut buffer = Buffer::new();
    head.put(b"HTTP/1.1 ");
    head.put(words(status));
    head.put(b"\r\nContent-Type: ");
    head.put(content_type(json));
    head.put(b"\r\nContent-Length: ");
    head.put(buffer.format(size).as_bytes());
    head.put(b"\r\nConnection: close\r\n\r\n");
    head
}

// Sends two texts, one behind the other.
fn send_both<L: Line>(line: &mut L, head: &[u8], body: &[u8]) -> Result<(), Failed>
    requires { 0 < length head.now }
    ensures sends { L.tells ≡ true → SendsReply result (head.now ++ body.now) (L.line line.old).talk (L.line line.new).talk }
    ensures moments { L.tells_moments ≡ true → StampsReply result (L.time line.old) (L.time line.new) (length (head.now ++ body.now)) (L.line line.old).moments (L.line line.new).moments }
    ensures later { IsLater L.tells_moments (L.time line.old) (L.time line.new) (L.line line.old) (L.line line.new) }
    ensures time { Rose (L.time line.old) (L.time line.new) }
    ensures disk { L.disk line.new ≡ L.disk line.old }
    ensures sure { L.tells_room ≡ true → SendsReplySurely result (length (head.now ++ body.now)) (L.room line.old) (L.room line.new) (L.line line.old) (L.line line.new) }
    ensures cause { HasCause (L.line line.old).faults (L.line line.new).faults result }
{
    match send_all(line, head) {
        Ok(()) => send_all(line, body),
        Err(failed) => Err(failed),
    }
}

/// Sends a reply. This takes no memory.
pub fn write_reply<L: Line>(line: &mut L, reply: &HttpReply) -> Result<(), LineFault>
    // All of its bytes are sent, or a front of them.
    ensures sends { L.tells ≡ true → SendsReply result (reply_text reply.now) (L.line line.old).talk (L.line line.new).talk }
    ensures moments { L.tells_moments ≡ true → StampsReply result (L.time line.old) (L.time line.new) (length (reply_text reply.now)) (L.line line.old).moments (L.line line.new).moments }
    ensures later { IsLater L.tells_moments (L.time line.old) (L.time line.new) (L.line line.old) (L.line line.new) }
    ensures time { Rose (L.time line.old) (L.time line.new) }
    ensures disk { L.disk line.new ≡ L.disk line.old }
    // Over a line that tells its room they are sent where they fit.
    ensures sure { L.tells_room ≡ true → SendsReplySurely result (length (reply_text reply.now)) (L.room line.old) (L.room line.new) (L.line line.old) (L.line line.new) }
    ensures cause { HasCause (L.line line.old).faults (L.line line.new).faults result }
{
    let body = reply.body.as_slice();
    let head = head_text(reply.status, reply.json, body.len());
    match send_both(line, head.as_slice(), body) {
        Ok(()) => Ok(()),
        Err(Failed) => Err(LineFault),
    }
}
