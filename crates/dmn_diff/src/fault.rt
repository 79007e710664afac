//! Why a text is no diff.

use dmn_bytes::{Departure, ReadError};
use thiserror::Error;

/// Why a diff could not be read. The place counts from the text's first byte.
#[derive(Clone, Copy, Debug, PartialEq, Eq, Error)]
pub enum DiffFault {
    /// The first byte of the first field that departs, or of bytes left over.
    #[error("the diff departs from its form at byte {at}")]
    DiffForm { at: usize },
    /// Memory ran out.
    #[error("memory ran out")]
    Memory,
}

impl From<ReadError> for DiffFault {
    ghost use Rattle.std.specs.Prelude.{◌≡◌};
    ghost use Rattle.dmn_diff.specs.Fault.{diff_fault};

    ghost from_gives = { λ error fault. fault ≡ diff_fault error };

    fn from(error: ReadError) -> DiffFault {
        match error {
            ReadError::Memory => DiffFault::Memory,
            ReadError::Departs(Departure::Form { at }) => DiffFault::DiffForm { at },
            ReadError::Departs(Departure::Beyond { at }) => DiffFault::DiffForm { at },
        }
    }
}
