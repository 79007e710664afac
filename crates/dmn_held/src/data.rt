//! What a snapshot holds of a branch.

use crate::coinbase::CoinbasePart;
use dmn_bytes::{Hash256, Items, OutPoint};
use dmn_payloads::{Commitment, MinedAt};
use dmn_rows::{MnRow, StartOutput};

/// One height, as the difference to the height before it: what is removed goes before what is put or added.
#[derive(Debug, Drop)]
pub struct HeightData {
    /// The hash of the block.
    pub hash: Hash256,
    pub coinbase: CoinbasePart,
    /// The rows that are new or differ, as they are stored, in strictly ascending order of their hashes.
    pub put: Items<MnRow>,
    /// The hashes of the rows that are gone, strictly ascending.
    pub removed: Items<Hash256>,
    /// The outputs that are new or differ, in strictly ascending order of their outpoints.
    pub added: Items<StartOutput>,
    /// The outpoints of the outputs that are gone, strictly ascending.
    pub spent: Items<OutPoint>,
    /// The commitments of the block that aren't null, in their order.
    pub mined: Items<Commitment>,
}

/// All heights that a branch holds, the lowest one whole and each other one as a difference.
#[derive(Debug, Drop)]
pub struct SnapshotData {
    /// The greatest height that the tip had.
    pub top: u32,
    /// The lowest height that is held.
    pub low: u32,
    /// The hash of its block.
    pub low_hash: Hash256,
    /// Its rows, as they are stored, in strictly ascending order of their hashes; at most 65,535.
    pub rows: Items<MnRow>,
    /// Its outputs, in strictly ascending order of their outpoints; at most 1,048,576.
    pub outputs: Items<StartOutput>,
    /// The quorums that are active after it, ascending by type, and then the oldest first.
    pub active: Items<MinedAt>,
    /// None exactly at the height before the first block's.
    pub coinbase: Option<CoinbasePart>,
    /// The heights above it, up to the tip.
    pub heights: Items<HeightData>,
}
