//! Why a run stops.

use dmn_bytes::Memory;
use dmn_journal::JournalFault;

/// Why a run stops.
#[derive(Clone, Copy, Debug, PartialEq, Eq)]
pub enum MakeFault {
    /// Memory ran out.
    Memory,
    /// The disk failed.
    DiskFault,
    /// What was read of file 0 is no journal image: its first field that departs begins at this byte.
    NotJournal { at: u64 },
}

impl From<Memory> for MakeFault {
    ghost use Rattle.std.specs.Prelude.{◌≡◌};
    ghost use Rattle.dmn_make.specs.declared.fault.MakeFault.TheVariants.{Memory as NoMemory};

    ghost from_gives = { λ _ fault. fault ≡ NoMemory };

    fn from(_: Memory) -> MakeFault {
        MakeFault::Memory
    }
}

impl From<JournalFault> for MakeFault {
    ghost use Rattle.std.specs.Prelude.{◌≡◌};
    ghost use Rattle.dmn_make.specs.Asking.{fault_of};

    ghost from_gives = { λ fault other. other ≡ fault_of fault };

    fn from(fault: JournalFault) -> MakeFault {
        match fault {
            JournalFault::Memory => MakeFault::Memory,
            JournalFault::DiskFault => MakeFault::DiskFault,
            JournalFault::NotJournal { at } => MakeFault::NotJournal { at },
        }
    }
}
