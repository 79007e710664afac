//! Replies.

ghost use Rattle.std.specs.Prelude.{◌≡◌, codes, IfOk, true, false};
ghost use Rattle.serde_json.specs.Data.{number, unsigned, string, object, member, no_members};
ghost use Rattle.serde_json.specs.View.{view};
ghost use Rattle.serde_json.specs.Written.{compact_text, has_float};
ghost use Rattle.std.specs.List.{list_all};
ghost use Rattle.dmn_http.specs.Steps.{ShowsFault, JsonReply, is_plain};
ghost use Rattle.dmn_http.specs.Texts.{body_bytes, reply_text, memory_text, error_body, place_body};

use dmn_bytes::{Bytes, Memory};
use dmn_desk::Short;
use dmn_head::HttpFault;
use serde_json::{Value, json};
use std::alloc::{AllocError, Global};

/// A reply.
#[derive(Drop)]
pub struct HttpReply {
    /// The number of the status.
    pub status: u16,
    /// Whether the body is JSON.
    pub json: bool,
    pub body: ReplyBody,
}

/// The body of a reply.
#[derive(Drop)]
pub enum ReplyBody {
    /// In a fixed array, which took no memory.
    Fixed(Short),
    Grown(Bytes),
}

impl ReplyBody {
    pub fn as_slice(&self) -> &[u8]
        ensures { result.now ≡ body_bytes self.now }
    {
        match self {
            ReplyBody::Fixed(short) => short.as_slice(),
            ReplyBody::Grown(bytes) => bytes.as_slice(),
        }
    }
}

/// The reply that says that there was no memory. It takes none.
pub fn memory_reply() -> HttpReply
    ensures { reply_text result ≡ memory_text }
{
    let mut body = Short::new();
    body.put(b"{\"error\":\"Memory\"}");
    HttpReply {
        status: 503,
        json: true,
        body: ReplyBody::Fixed(body),
    }
}

/// The text of JSON.
pub fn json_text(alloc: Global, value: &Value) -> Result<Bytes, Memory>
    ensures { IfOk result (λ text. has_float (view value.now) ≡ false → text ≡ compact_text (view value.now)) }
{
    let text = value.to_string(alloc)?;
    Bytes::from_slice(alloc, text.as_bytes())
}

fn error_value(alloc: Global, name: &str) -> Result<Value, AllocError>
    ensures { IfOk result (λ v. view v ≡ object (member (codes "error") (string name.now) no_members)) }
{
    json!(in alloc; {"error": name})
}

/// JSON with a name as its one field.
pub fn error_json(alloc: Global, name: &str) -> Result<Bytes, Memory>
    requires { list_all is_plain name.now ≡ true }
    ensures { IfOk result (λ body. body ≡ error_body name.now) }
{
    let value = error_value(alloc, name)?;
    json_text(alloc, &value)
}

fn place_value(alloc: Global, at: usize) -> Result<Value, AllocError>
    ensures { IfOk result (λ v. view v ≡ object (member (codes "at") (number (unsigned at)) (member (codes "error") (string (codes "BadRequest")) no_members))) }
{
    json!(in alloc; {"at": at, "error": "BadRequest"})
}

/// JSON of the place at which a body departs.
pub fn place_json(alloc: Global, at: usize) -> Result<Bytes, Memory>
    ensures { IfOk result (λ body. body ≡ place_body at) }
{
    let value = place_value(alloc, at)?;
    json_text(alloc, &value)
}

/// A reply with JSON, or that of Memory where there was none for it.
pub fn json_reply(status: u16, body: Result<Bytes, Memory>) -> HttpReply
    ensures { JsonReply status body result }
{
    match body {
        Ok(bytes) => HttpReply {
            status,
            json: true,
            body: ReplyBody::Grown(bytes),
        },
        Err(_) => memory_reply(),
    }
}

/// The reply of a check that fails, or that of Memory.
pub fn refuse(alloc: Global, fault: HttpFault) -> HttpReply
    ensures { ShowsFault fault result }
{
    match fault {
        HttpFault::HeadTooLong => json_reply(413, error_json(alloc, "HeadTooLong")),
        HttpFault::BadHead => json_reply(400, error_json(alloc, "BadHead")),
        HttpFault::Encoding => json_reply(400, error_json(alloc, "Encoding")),
        HttpFault::NoRoute => json_reply(404, error_json(alloc, "NoRoute")),
        HttpFault::Method => json_reply(405, error_json(alloc, "Method")),
        HttpFault::BadPath => json_reply(400, error_json(alloc, "BadPath")),
        HttpFault::Length => json_reply(400, error_json(alloc, "Length")),
        HttpFault::BodyTooLong => json_reply(413, error_json(alloc, "BodyTooLong")),
        HttpFault::BadRequest { at } => json_reply(400, place_json(alloc, at)),
    }
}
