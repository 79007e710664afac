//! Why nothing is made of what a snapshot holds.

use dmn_bytes::Memory;
use thiserror::Error;

/// Why nothing is made of what a snapshot holds.
#[derive(Clone, Copy, Debug, PartialEq, Eq, Error)]
pub enum DataFault {
    /// No branch of the start record holds this.
    #[error("no branch of this start record holds this")]
    Misfit,
    /// Memory ran out.
    #[error("memory ran out")]
    Memory,
}

impl From<Memory> for DataFault {
    ghost use Rattle.std.specs.Prelude.{◌≡◌};
    ghost use Rattle.dmn_restore.specs.declared.fault.DataFault.TheVariants.{Memory as NoMemory};

    ghost from_gives = { λ _ fault. fault ≡ NoMemory };

    fn from(_: Memory) -> DataFault {
        DataFault::Memory
    }
}
