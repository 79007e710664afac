//! Callers of a line, served over HTTP one after the other by a registry on a disk: each command is durable before its reply is
//! sent.
#![tactic(auto)]

mod caller;
mod serving;

pub use serving::serve;
