//! HTTP: one request and one reply for each caller.
#![tactic(auto)]

mod answer;
mod answer_json;
mod body;
mod exchange;
mod front;
mod laws;
mod reply;
mod write;

pub use answer::reply_of;
pub use dmn_head::{HttpFault, Routes};
pub use exchange::{Exchange, read_exchange};
pub use laws::{each_text_asks_once, each_text_has_one_reply, what_comes_behind_changes_nothing};
pub use reply::{HttpReply, ReplyBody};
pub use write::write_reply;
