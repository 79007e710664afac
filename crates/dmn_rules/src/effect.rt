//! What an accepted transaction does to the list.

use dmn_bytes::Hash256;
use dmn_rows::MnRow;

/// What an accepted transaction does to the list.
#[derive(Clone, Copy, Debug, PartialEq, Eq)]
pub enum Effect {
    /// The row is added, once the row of the other hash is removed.
    Register {
        row: MnRow,
        replaced: Option<Hash256>,
    },
    /// The row takes the place of the one of its hash.
    Update {
        row: MnRow,
    },
}
