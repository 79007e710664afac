//! Snapshots in two slots: of the two the newest valid one is found, and the other one is written, so that whenever a write
//! stops a crash leaves each slot as it was, without a valid text, or with the new one whole.
#![tactic(auto)]

mod fault;
mod finding;
mod law;
mod laying;
mod part;
mod slot;
mod writing;

pub use fault::SnapFault;
pub use finding::newest;
pub use law::{slots_keep_bounds, written_slots_are_valid};
pub use laying::write;
pub use slot::{Slot, Stored};
pub use writing::text;
