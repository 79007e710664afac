//! Requests, and what is answered to them by what a registry holds.
#![tactic(auto)]

mod answer;
mod body;
mod changes;
mod commands;
mod desk;
mod diff;
mod hashes;
mod height;
mod kind;
mod length;
mod list;
mod members;
mod page;
mod payees;
mod pins;
mod quorums;
mod request;
mod row;
mod rule_fields;
mod text;
mod walk;

pub use answer::{Answer, GrownAnswer, ShortAnswer};
pub use desk::Desk;
pub use dmn_frames::{FRONT, HEAD, LONGEST_BODY, Reading, Short};
pub use kind::Kind;
pub use request::{Request, RequestFault, read_request};
pub use text::{answer_text, short_text};
