//! Why a transaction could not be read.

use dmn_bytes::{Departure, ReadError};
use thiserror::Error;

/// Why a transaction could not be read. Places count from the text's first byte.
#[derive(Clone, Copy, Debug, PartialEq, Eq, Error)]
pub enum TxFault {
    /// The first byte of the first field that departs.
    #[error("the transaction departs from its form at byte {at}")]
    TxForm { at: usize },
    /// A payload's length is above 10,000. The place is the first byte of that length.
    #[error("the payload whose length stands at byte {at} is too long")]
    PayloadTooLong { at: usize },
    /// Memory ran out.
    #[error("memory ran out")]
    Memory,
}

impl From<ReadError> for TxFault {
    ghost use Rattle.std.specs.Prelude.{◌≡◌};
    ghost use Rattle.dmn_tx.specs.Fault.{tx_fault};

    ghost from_gives = { λ e f. f ≡ tx_fault e };

    fn from(error: ReadError) -> TxFault {
        match error {
            ReadError::Memory => TxFault::Memory,
            ReadError::Departs(Departure::Form { at }) => TxFault::TxForm { at },
            ReadError::Departs(Departure::Beyond { at }) => TxFault::PayloadTooLong { at },
        }
    }
}
