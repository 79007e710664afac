//! What no contract of the lower crates says: hashes and roots of public chains, what trees share, which image of a disk a pick
//! gives, and files that are found again. In a crate of their own: a crate that has tests is proved twice.
#![tactic(auto)]

#[cfg(test)]
mod blocks;
#[cfg(test)]
mod disk;
#[cfg(test)]
mod host;
#[cfg(test)]
mod transactions;
#[cfg(test)]
mod trees;
