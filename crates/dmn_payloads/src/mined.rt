//! A commitment that was mined.

use crate::commitment::Commitment;

/// A quorum's commitment that isn't null, and the height of the block in which it was mined (DIP-0006).
#[derive(Debug, Drop)]
pub struct MinedAt {
    pub height: u32,
    pub commitment: Commitment,
}
