//! Why a block could not be prepared, and why one is not taken back.

use dmn_block::{Refusal, ShapeFault};
use dmn_bytes::{Hash256, Memory};
use thiserror::Error;

/// Why a block could not be prepared. The branch is as before.
#[derive(Clone, Copy, Debug, PartialEq, Eq, Error)]
pub enum PrepareFault {
    /// By the first rule that the block breaks.
    #[error("the block is refused: {0}")]
    Refused(Refusal),
    /// Memory ran out.
    #[error("memory ran out")]
    Memory,
}

/// Why a list is not pinned. The branch is as before.
#[derive(Clone, Copy, Debug, PartialEq, Eq, Error)]
pub enum PinFault {
    /// As many pins are live as may be, or the last number was given.
    #[error("no further pin")]
    PinsFull,
    /// Memory ran out.
    #[error("memory ran out")]
    Memory,
}

/// Why the last block is not taken back.
#[derive(Clone, Copy, Debug, PartialEq, Eq, Error)]
pub enum DisconnectRefusal {
    /// The last block has another hash, which is this.
    #[error("the last block has another hash")]
    NotTip { tip: Hash256 },
    /// There is no block.
    #[error("there is no block")]
    AtStart,
    /// The tip stands at this floor, or below: no block at or below it is taken back.
    #[error("no block at or below height {floor} is taken back")]
    TooDeep { floor: u32 },
}

impl From<Memory> for PrepareFault {
    ghost use Rattle.std.specs.Prelude.{◌≡◌};
    ghost use Rattle.dmn_branch.specs.declared.fault.PrepareFault.TheVariants.{Memory as NoMemory};

    ghost from_gives = { λ _ fault. fault ≡ NoMemory };

    fn from(_: Memory) -> PrepareFault {
        PrepareFault::Memory
    }
}

impl From<ShapeFault> for PrepareFault {
    ghost use Rattle.std.specs.Prelude.{◌≡◌};
    ghost use Rattle.dmn_branch.specs.Fault.{of_shape};

    ghost from_gives = { λ shape fault. fault ≡ of_shape shape };

    fn from(fault: ShapeFault) -> PrepareFault {
        match fault {
            ShapeFault::Broken(refusal) => PrepareFault::Refused(refusal),
            ShapeFault::Memory => PrepareFault::Memory,
        }
    }
}
