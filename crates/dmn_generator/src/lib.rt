//! A stream of blocks that anybody can make again: masternodes, commitments and blocks by their numbers.
#![tactic(auto)]

mod blocks;
mod commitments;
mod masternodes;
mod tags;

pub use blocks::{FIRST, PER_BLOCK, Place, block_body, start_text};
pub use commitments::commitment_tx;
pub use masternodes::masternode;
pub use tags::tag;
