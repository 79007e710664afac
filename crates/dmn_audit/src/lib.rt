//! An audit of a journal, sent as text.
#![tactic(auto)]

mod sending;
mod text;

pub use sending::audit;
pub use text::{add_line, add_number, audit_text};
