//! The root of a Merkle tree (the transactions of a block, the entries of a simplified list), and the branch that
//! proves the first of its leaves.
#![tactic(auto)]

mod branch;
mod builder;
mod halves;
mod law;
mod roots;

pub use branch::{BranchFault, Branching, check_branch, coinbase_branch};
pub use builder::RootBuilder;
pub use law::{depth_is_the_least, root_by_levels};
pub use roots::root;
