//! Why a journal could not be read or written.

use dmn_bytes::Memory;
use dmn_outside::Failed;
use thiserror::Error;

/// Why bytes could not be read.
#[derive(Clone, Copy, Debug, PartialEq, Eq)]
pub enum TextFault {
    DiskFault,
    Memory,
}

impl From<Failed> for TextFault {
    ghost use Rattle.std.specs.Prelude.{◌≡◌};
    ghost use Rattle.dmn_journal.specs.declared.fault.TextFault.TheVariants.{DiskFault};

    ghost from_gives = { λ failed fault. fault ≡ DiskFault };

    fn from(_: Failed) -> TextFault {
        TextFault::DiskFault
    }
}

impl From<Memory> for TextFault {
    ghost use Rattle.std.specs.Prelude.{◌≡◌};
    ghost use Rattle.dmn_journal.specs.declared.fault.TextFault.TheVariants.{Memory};

    ghost from_gives = { λ memory fault. fault ≡ Memory };

    fn from(_: Memory) -> TextFault {
        TextFault::Memory
    }
}

/// Why a journal could not be read.
#[derive(Clone, Copy, Debug, PartialEq, Eq, Error)]
pub enum JournalFault {
    /// The first byte of the first field that departs.
    #[error("the file departs from a journal's form at byte {at}")]
    NotJournal { at: u64 },
    /// The disk failed.
    #[error("the disk failed")]
    DiskFault,
    /// Memory ran out.
    #[error("memory ran out")]
    Memory,
}

impl From<Failed> for JournalFault {
    ghost use Rattle.std.specs.Prelude.{◌≡◌};
    ghost use Rattle.dmn_journal.specs.declared.fault.JournalFault.TheVariants.{DiskFault};

    ghost from_gives = { λ failed fault. fault ≡ DiskFault };

    fn from(_: Failed) -> JournalFault {
        JournalFault::DiskFault
    }
}

impl From<TextFault> for JournalFault {
    ghost use Rattle.std.specs.Prelude.{◌≡◌};
    ghost use Rattle.dmn_journal.specs.Faults.{journal_fault};

    ghost from_gives = { λ fault wider. wider ≡ journal_fault fault };

    fn from(fault: TextFault) -> JournalFault {
        match fault {
            TextFault::DiskFault => JournalFault::DiskFault,
            TextFault::Memory => JournalFault::Memory,
        }
    }
}

/// Why a record was not appended.
#[derive(Clone, Copy, Debug, PartialEq, Eq, Error)]
pub enum AppendFault {
    /// The journal has no room for it; nothing was written.
    #[error("the journal is full")]
    JournalFull,
    /// The disk failed.
    #[error("the disk failed")]
    DiskFault,
}

impl From<Failed> for AppendFault {
    ghost use Rattle.std.specs.Prelude.{◌≡◌};
    ghost use Rattle.dmn_journal.specs.declared.fault.AppendFault.TheVariants.{DiskFault};

    ghost from_gives = { λ failed fault. fault ≡ DiskFault };

    fn from(_: Failed) -> AppendFault {
        AppendFault::DiskFault
    }
}
