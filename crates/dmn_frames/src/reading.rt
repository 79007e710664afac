//! How much of a frame's body is read.

/// How much of a frame's body is read before it is answered. The rest is dropped.
#[derive(Clone, Copy, Debug, PartialEq, Eq)]
pub enum Reading {
    /// Nothing: kind and length say the answer.
    Nothing,
    /// Its front, in a fixed array: a question's body is shorter than that.
    Front,
    /// All of it, in memory that is taken.
    Whole,
}
