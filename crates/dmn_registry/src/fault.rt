//! Why a command was not taken.

use dmn_block::Refusal;
use dmn_branch::DisconnectRefusal;
use dmn_bytes::Hash256;
use dmn_snapshot::SnapFault;
use thiserror::Error;

/// Why a block was not connected.
#[derive(Clone, Copy, Debug, PartialEq, Eq, Error)]
pub enum ConnectFault {
    /// By the first rule that the block breaks.
    #[error("the block is refused: {0}")]
    Refused(Refusal),
    /// The journal has no room for it.
    #[error("the journal is full")]
    JournalFull,
    /// The disk failed. The registry is spent.
    #[error("the disk failed")]
    DiskFault,
    /// Memory ran out. Nothing was written.
    #[error("memory ran out")]
    Memory,
}

impl From<SnapFault> for ConnectFault {
    ghost use Rattle.std.specs.Prelude.{◌≡◌};
    ghost use Rattle.dmn_registry.specs.Steps.{connect_fault};

    ghost from_gives = { λ fault other. other ≡ connect_fault fault };

    fn from(fault: SnapFault) -> ConnectFault {
        match fault {
            SnapFault::DiskFault => ConnectFault::DiskFault,
            SnapFault::Memory => ConnectFault::Memory,
        }
    }
}

/// Why the last block was not taken back.
#[derive(Clone, Copy, Debug, PartialEq, Eq, Error)]
pub enum DisconnectFault {
    /// The last block has another hash, which is this.
    #[error("the last block has another hash")]
    NotTip { tip: Hash256 },
    /// There is no block.
    #[error("there is no block")]
    AtStart,
    /// The tip stands at this floor, or below: no block at or below it is taken back.
    #[error("no block at or below height {floor} is taken back")]
    TooDeep { floor: u32 },
    /// The journal has no room for it.
    #[error("the journal is full")]
    JournalFull,
    /// The disk failed. The registry is spent.
    #[error("the disk failed")]
    DiskFault,
}

impl From<DisconnectRefusal> for DisconnectFault {
    ghost use Rattle.std.specs.Prelude.{◌≡◌};
    ghost use Rattle.dmn_registry.specs.Steps.{disconnect_fault};

    ghost from_gives = { λ refusal fault. fault ≡ disconnect_fault refusal };

    fn from(refusal: DisconnectRefusal) -> DisconnectFault {
        match refusal {
            DisconnectRefusal::NotTip { tip } => DisconnectFault::NotTip { tip },
            DisconnectRefusal::AtStart => DisconnectFault::AtStart,
            DisconnectRefusal::TooDeep { floor } => DisconnectFault::TooDeep { floor },
        }
    }
}
