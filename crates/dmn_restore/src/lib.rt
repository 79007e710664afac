//! The trees of all heights of a snapshot, made of what it holds; and what changes from one height to the next, told by its
//! trees.
#![tactic(auto)]

mod differing;
mod fault;
mod fields;
mod forms;
mod height;
mod making;
mod puts;

pub use differing::{Difference, Lists, difference_of, lists_of};
pub use fault::DataFault;
pub use forms::{check_commitments, check_mined, check_part};
pub use making::{Marked, Restored, restore};
