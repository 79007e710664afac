//! Verdicts on signatures.

ghost use Rattle.std.specs.Prelude.{◌==◌};
ghost use Rattle.dmn_rows.specs.Keys.{verdict_key};
ghost use Rattle.dmn_rows.specs.Verdict.{verdict, verdict_sound};

use crate::by_key::ByKey;
use dmn_bytes::{Hash256, ReadError, Reader, Sink, Text};
use std::alloc::Global;

/// A verdict on the key that a registration's collateral pays to.
pub const COLLATERAL_KEY: u8 = 1;

/// A verdict on a row's owner key.
pub const OWNER_KEY: u8 = 2;

/// A verdict on a row's operator key.
pub const OPERATOR_KEY: u8 = 3;

/// A verdict on the keys of a quorum's members.
pub const MEMBERS_KEYS: u8 = 4;

/// What somebody else found of a signature in a block. It is handed in with the block and not checked here.
#[derive(Clone, Copy, Debug, PartialEq, Eq)]
pub struct Verdict {
    /// The transaction's place in the block.
    pub tx: u32,
    /// Whose key it is: 1 the collateral's, 2 the owner's, 3 the operator's, 4 the members' of a quorum.
    pub kind: u8,
    /// The digest of the key.
    pub key: Hash256,
    /// 1 where the signature is right, and 0 where it is not. It may be any byte until the block's shape is judged.
    pub valid: u8,
}

#[tactic(auto, using(dmn_bytes::proofs::Send::sent_then), unfolding(crate::specs::Verdict::verdict))]
impl Text for Verdict {
    ghost format = { verdict };

    ghost sound = { verdict_sound };

    fn read(reader: &mut Reader<'_>, alloc: Global) -> Result<Verdict, ReadError> {
        let tx = reader.u32()?;
        let kind = reader.u8()?;
        let key = Hash256::read(reader, alloc)?;
        let valid = reader.u8()?;
        Ok(Verdict {
            tx,
            kind,
            key,
            valid,
        })
    }

    fn feed<S: Sink>(&self, sink: &mut S) {
        self.tx.feed(sink);
        self.kind.feed(sink);
        self.key.feed(sink);
        self.valid.feed(sink);
    }
}

// Verdicts of a block ascend by the places of their transactions.
impl ByKey<u32> for Verdict {
    ghost key_of = { λ v. v.tx };

    ghost has = { λ place v. v.tx == place };

    ghost is_key = { verdict_key };

    fn key(&self) -> &u32 {
        &self.tx
    }

    fn has_key(&self, place: &u32) -> bool {
        self.tx == *place
    }
}
