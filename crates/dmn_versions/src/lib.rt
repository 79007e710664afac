//! Search trees whose versions share nodes. A node never changes, so each older root reads as before.
#![tactic(auto)]

mod arena;
mod key;
mod node;

pub use arena::Arena;
pub use key::Key;
pub use node::{Node, Root};
