//! Walks over search trees whose versions share nodes: how two versions differ, a page of one, and a copy of some.
#![tactic(auto)]

mod compaction;
mod pages;
mod walk;

pub use compaction::compact;
pub use pages::{Pairs, page};
pub use walk::{Delta, changes};
