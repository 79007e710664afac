//! What a light client answers to a frame.

ghost use Rattle.std.specs.Prelude.{◌≤◌, length};
ghost use Rattle.dmn_bytes.specs.Format.{whole};
ghost use Rattle.dmn_client.specs.Step.{client_step};
ghost use Rattle.dmn_light.specs.Answers.{IsBounded};
ghost use Rattle.dmn_light.specs.Ask.{answered, applied, asked_header, asked_kind, shown};
ghost use Rattle.dmn_light.specs.Header.{header_body};
ghost use Rattle.dmn_light.specs.Serving.{OrLack};
ghost use Rattle.dmn_light.specs.Steps.{Decides};

use crate::answer::Answer;
use crate::header::HeaderBody;
use crate::kind::Kind;
use dmn_bytes::{Departure, ReadError, read_whole};
use dmn_client::{Applied, Client, ClientFault, count_of};
use dmn_frames::{HEAD, LONGEST_BODY, Reading};
use dmn_sml::list_root;
use std::alloc::Global;

/// How much of a body is read to answer a frame of this kind and size.
pub fn reading(number: u8, size: u32) -> Reading
    ensures { Decides result number size }
{
    if size > LONGEST_BODY {
        return Reading::Nothing;
    }
    match Kind::of(number) {
        None => Reading::Nothing,
        Some(kind) => kind.reading(),
    }
}

// Adds a header by its frame's body.
fn add(client: &mut Client, alloc: Global, body: &[u8]) -> Answer
    requires { length body.now ≤ LONGEST_BODY }
    ensures answers { OrLack (asked_header client.old (whole header_body body.now)) client.old result client.new }
    ensures bounded { IsBounded result }
{
    match read_whole::<HeaderBody>(alloc, body) {
        Ok(header) => match client.add_header(&header.hash, &header.root()) {
            Ok(()) => Answer::Added,
            Err(fault) => Answer::Refused(fault),
        },
        Err(ReadError::Memory) => Answer::Refused(ClientFault::Memory),
        Err(ReadError::Departs(Departure::Form { at } | Departure::Beyond { at })) => {
            Answer::BadRequest {
                at: HEAD + at as u32,
            }
        }
    }
}

// Takes the text of a diff.
fn apply(client: &mut Client, text: &[u8]) -> Answer
    requires { length text.now ≤ LONGEST_BODY }
    ensures answers { OrLack (applied client.old (client_step client.old text.now)) client.old result client.new }
    ensures bounded { IsBounded result }
{
    match client.apply(text) {
        Ok(applied) => Answer::Holds(applied),
        Err(fault) => Answer::Refused(fault),
    }
}

// Says what is held.
fn show(client: &Client, alloc: Global, body: &[u8]) -> Answer
    ensures answers { OrLack (shown client.now body.now) client.now result client.now }
    ensures bounded { IsBounded result }
{
    if body.len() > 0 {
        return Answer::BadRequest { at: HEAD };
    }
    match list_root(alloc, client.list()) {
        Ok(root) => Answer::Holds(Applied {
            held: client.held(),
            root,
            count: count_of(client.list()),
        }),
        Err(_) => Answer::Refused(ClientFault::Memory),
    }
}

/// The answer to a frame of this kind and size, by what was kept of its body.
#[tactic(auto, unfolding(crate::specs::Ask::answered, crate::specs::Ask::asked_kind))]
pub fn answer(client: &mut Client, alloc: Global, number: u8, size: u32, body: &[u8]) -> Answer
    requires { length body.now ≤ size }
    ensures answers { OrLack (answered client.old number size body.now) client.old result client.new }
    ensures bounded { IsBounded result }
{
    if size > LONGEST_BODY {
        return Answer::BadRequest { at: 1 };
    }
    match Kind::of(number) {
        None => Answer::BadRequest { at: 0 },
        Some(Kind::Header) => add(client, alloc, body),
        Some(Kind::Apply) => apply(client, body),
        Some(Kind::Show) => show(client, alloc, body),
    }
}
