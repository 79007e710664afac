//! A desk and the registry that it serves, over one disk.
#![tactic(auto)]

mod office;

pub use office::Office;
