//! Why a payload could not be read.

use dmn_bytes::{Departure, ReadError};
use thiserror::Error;

/// Why a payload could not be read.
#[derive(Clone, Copy, Debug, PartialEq, Eq, Error)]
pub enum PayloadFault {
    /// Two bytes are there, and they give another version than 1. This comes before any other fault.
    #[error("the payload has version {found}, and not 1")]
    PayloadVersion { found: u16 },
    /// The first byte of the first field that departs, or of bytes left over.
    #[error("the payload departs from its form at byte {at}")]
    PayloadForm { at: usize },
    /// Memory ran out.
    #[error("memory ran out")]
    Memory,
}

impl From<ReadError> for PayloadFault {
    ghost use Rattle.std.specs.Prelude.{◌≡◌};
    ghost use Rattle.dmn_payloads.specs.Fault.{payload_fault};

    ghost from_gives = { λ e f. f ≡ payload_fault e };

    fn from(error: ReadError) -> PayloadFault {
        match error {
            ReadError::Memory => PayloadFault::Memory,
            ReadError::Departs(Departure::Form { at }) => PayloadFault::PayloadForm { at },
            ReadError::Departs(Departure::Beyond { at }) => PayloadFault::PayloadForm { at },
        }
    }
}
