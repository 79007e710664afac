//! Why a block could not be read, or is refused by its shape.

use crate::refusal::Refusal;
use dmn_bytes::{Departure, Memory, ReadError};
use thiserror::Error;

/// Why a block could not be read.
#[derive(Clone, Copy, Debug, PartialEq, Eq, Error)]
pub enum BlockFault {
    /// The first byte of the first field that departs, counted from the body's first byte. A payload of more than
    /// 10,000 bytes departs at its length.
    #[error("the block departs from its form at byte {at}")]
    BlockForm { at: usize },
    /// Memory ran out.
    #[error("memory ran out")]
    Memory,
}

impl From<ReadError> for BlockFault {
    ghost use Rattle.std.specs.Prelude.{◌≡◌};
    ghost use Rattle.dmn_block.specs.Fault.{block_fault};

    ghost from_gives = { λ error fault. fault ≡ block_fault error };

    fn from(error: ReadError) -> BlockFault {
        match error {
            ReadError::Memory => BlockFault::Memory,
            ReadError::Departs(Departure::Form { at }) => BlockFault::BlockForm { at },
            ReadError::Departs(Departure::Beyond { at }) => BlockFault::BlockForm { at },
        }
    }
}

impl From<Memory> for BlockFault {
    ghost use Rattle.std.specs.Prelude.{◌≡◌};
    ghost use Rattle.dmn_block.specs.declared.fault.BlockFault.TheVariants.{Memory as NoMemory};

    ghost from_gives = { λ _ fault. fault ≡ NoMemory };

    fn from(_: Memory) -> BlockFault {
        BlockFault::Memory
    }
}

/// Why a block may not follow the tip.
#[derive(Clone, Copy, Debug, PartialEq, Eq, Error)]
pub enum ShapeFault {
    /// By the first rule that is broken.
    #[error("the block is refused: {0}")]
    Broken(Refusal),
    /// Memory ran out.
    #[error("memory ran out")]
    Memory,
}

impl From<Memory> for ShapeFault {
    ghost use Rattle.std.specs.Prelude.{◌≡◌};
    ghost use Rattle.dmn_block.specs.declared.fault.ShapeFault.TheVariants.{Memory as NoMemory};

    ghost from_gives = { λ _ fault. fault ≡ NoMemory };

    fn from(_: Memory) -> ShapeFault {
        ShapeFault::Memory
    }
}
