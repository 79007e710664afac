//! Frames of a line, answered over a registry on a disk: each command is durable before its answer is sent.
#![tactic(auto)]

mod answering;
mod asking;
mod feeding;
mod laws;
mod reply;

pub use feeding::feed;
pub use laws::{answers_tell_of_memory, each_front_is_served, statuses_are_exact};
