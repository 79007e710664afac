//! A block as the rules see it.

use dmn_bytes::{Hash256, Items};
use dmn_rows::Verdict;
use dmn_tx::Tx;

/// A block to be connected. The other numbers of its header (version, time, bits and nonce) aren't kept: no rule asks
/// for them.
#[derive(Debug, Drop)]
pub struct BlockFrame {
    /// The hash of the block, as it is handed in with it.
    pub hash: Hash256,
    /// The hash of the block before it, by its header.
    pub prev: Hash256,
    /// The Merkle root of its transactions, by its header.
    pub merkle: Hash256,
    /// Its transactions, the coinbase first.
    pub txs: Items<Tx>,
    /// Their ids, in order.
    pub ids: Items<Hash256>,
    /// Verdicts on the signatures in it, as they are handed in with it.
    pub verdicts: Items<Verdict>,
}
