//! Why slots could not be read.

use dmn_bytes::Memory;
use dmn_outside::Failed;
use thiserror::Error;

/// Why slots could not be read.
#[derive(Clone, Copy, Debug, PartialEq, Eq, Error)]
pub enum SnapFault {
    /// The disk failed.
    #[error("the disk failed")]
    DiskFault,
    /// Memory ran out.
    #[error("memory ran out")]
    Memory,
}

impl From<Failed> for SnapFault {
    ghost use Rattle.std.specs.Prelude.{◌≡◌};
    ghost use Rattle.dmn_snapshot.specs.declared.fault.SnapFault.TheVariants.{DiskFault};

    ghost from_gives = { λ failed fault. fault ≡ DiskFault };

    fn from(_: Failed) -> SnapFault {
        SnapFault::DiskFault
    }
}

impl From<Memory> for SnapFault {
    ghost use Rattle.std.specs.Prelude.{◌≡◌};
    ghost use Rattle.dmn_snapshot.specs.declared.fault.SnapFault.TheVariants.{Memory};

    ghost from_gives = { λ memory fault. fault ≡ Memory };

    fn from(_: Memory) -> SnapFault {
        SnapFault::Memory
    }
}
