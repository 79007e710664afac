//! What changes between two simplified lists, as a message (MNLISTDIFF of DIP-0004) and as a change that is applied.
#![tactic(auto)]

mod apply;
mod change;
mod diff;
mod fault;
mod fields;
mod law;
mod message;
mod walk;

pub use apply::apply_change;
pub use change::{ListChange, diff_of};
pub use diff::Diff;
pub use fault::DiffFault;
pub use law::{changes_by_look_ups, changes_of_rows, restored_by_its_change, texts_of_diffs};
pub use message::{one_text, read_diff, write_diff};
