//! Why a client refuses a header or a diff.

use dmn_bytes::{Hash256, Memory};
use thiserror::Error;

/// Why a client refuses. A diff's faults are looked for in the order in which they stand here.
#[derive(Clone, Copy, Debug, PartialEq, Eq, Error)]
pub enum ClientFault {
    /// The text departs from a diff's form at this place.
    #[error("the diff departs from its form at byte {at}")]
    DiffForm {
        at: usize,
    },
    /// The diff starts from another block's list than the one that is held.
    #[error("the diff starts from another list than the one that is held")]
    WrongBase {
        held: Hash256,
    },
    /// The diff's block has no header here.
    #[error("the diff's block has no header")]
    UnknownHeader,
    /// The diff's branch doesn't prove its coinbase to be the first transaction under the header's root.
    #[error("the branch doesn't prove the coinbase")]
    BadBranch,
    /// The proved transaction is no coinbase that tells a list's root.
    #[error("the proved transaction is no coinbase that tells a root")]
    BadCoinbase,
    /// The list after the change has another root than the coinbase tells.
    #[error("the list has another root than the coinbase tells")]
    BadRoot {
        committed: Hash256,
        computed: Hash256,
    },
    /// A header of this hash has another root.
    #[error("a header of this hash has another root")]
    HeaderDiffers {
        held: Hash256,
    },
    /// There are as many headers as there may be.
    #[error("there are as many headers as there may be")]
    HeadersFull,
    /// Memory ran out.
    #[error("memory ran out")]
    Memory,
}

impl From<Memory> for ClientFault {
    ghost use Rattle.std.specs.Prelude.{◌≡◌};
    ghost use Rattle.dmn_client.specs.declared.fault.ClientFault.TheVariants.{Memory as NoMemory};

    ghost from_gives = { λ _ fault. fault ≡ NoMemory };

    fn from(_: Memory) -> ClientFault {
        ClientFault::Memory
    }
}
