//! A stream of blocks that anybody can make again is run through a registry, and summed up in seven lines.
#![tactic(auto)]

mod asking;
mod blocks;
mod fault;
mod maker;
mod making;
mod starting;
mod step;
mod text;

pub use making::make;
pub use step::{Chain, Step};
