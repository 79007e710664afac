//! What no contract of the upper crates says: that nodes fall where trees are compacted, and that a change of lists is made once.
//! In a crate of their own: a crate that has tests is proved twice.
#![tactic(auto)]

#[cfg(test)]
mod stream;
#[cfg(test)]
mod walks;
