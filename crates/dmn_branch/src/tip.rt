//! The tip of a branch.

use dmn_bytes::Hash256;

/// The tip of a branch, and which heights are held.
#[derive(Clone, Copy, Debug, PartialEq, Eq)]
pub struct Tip {
    pub height: u32,
    /// The hash of its block.
    pub hash: Hash256,
    /// The lowest height that is held; the greatest is the tip's.
    pub low: u32,
    /// The greatest height that the tip had so far.
    pub top: u32,
}
