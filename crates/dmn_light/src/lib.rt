//! A light client over a line: frames that hand in headers and diffs, or ask what is held, each answered once.
#![tactic(auto)]

mod answer;
mod header;
mod kind;
mod laws;
mod machine;
mod run;

pub use answer::Answer;
pub use kind::Kind;
pub use laws::{
    answers_tell_of_memory, bytes_without_memory, each_front_is_served, endings_are_exact,
};
pub use run::client;
