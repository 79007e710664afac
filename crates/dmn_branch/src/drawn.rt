//! Whose members are drawn for a block.

ghost use Rattle.std.specs.Prelude.{◌≡◌, ◌++◌, [], IfOk, OnOk};
ghost use Rattle.dmn_bytes.specs.Format.{whole};
ghost use Rattle.dmn_payloads.specs.Commitments.{mined};
ghost use Rattle.dmn_quorums.specs.Forming.{has_kind};
ghost use Rattle.dmn_branch.specs.Drawn.{IsFor, is_drawn, kind_asked, kind_in, kind_mined, kinds_asked, with_kind};

use dmn_bytes::Memory;
use dmn_payloads::{Commitment, PayloadFault, read_commitment_payload};
use dmn_tx::{COMMITMENT_TX, Tx};
use std::alloc::Global;

/// The quorums whose members are drawn.
#[derive(Drop)]
pub enum Drawn {
    /// Those of all types.
    All,
    /// Those of these types. Nobody asks for the members of others.
    Of { kinds: Vec<u8> },
}

impl Drawn {
    /// Those that a block with these transactions asks for: of the types of its commitments that aren't null.
    pub fn for_block(alloc: Global, txs: &[Tx]) -> Result<Drawn, Memory>
        ensures { IfOk result (IsFor txs.now) }
    {
        Ok(Drawn::Of {
            kinds: kinds_asked(alloc, txs)?,
        })
    }

    /// Whether those of a type are drawn.
    pub fn has(&self, kind: u8) -> bool
        ensures { result ≡ is_drawn self.now kind }
    {
        match self {
            Drawn::All => true,
            Drawn::Of { kinds } => has_kind(kinds, kind),
        }
    }
}

// Whether a type is among these.
fn has_kind(kinds: &[u8], kind: u8) -> bool
    ensures { result ≡ has_kind kinds.now kind }
{
    kinds.iter().any(|k| *k == kind)
}

// The type of a commitment that isn't null.
fn kind_mined(commitment: &Commitment) -> Option<u8>
    ensures { result ≡ kind_mined commitment.now }
{
    if commitment.is_null() {
        None
    } else {
        Some(commitment.kind)
    }
}

// The type of the commitment that a payload has, where it isn't null.
fn kind_in(alloc: Global, payload: &[u8]) -> Result<Option<u8>, Memory>
    ensures { IfOk result (λ kind. kind ≡ kind_in (whole mined payload.now)) }
{
    match read_commitment_payload(alloc, payload) {
        Ok((_, commitment)) => Ok(kind_mined(&commitment)),
        Err(PayloadFault::PayloadVersion { .. }) => Ok(None),
        Err(PayloadFault::PayloadForm { .. }) => Ok(None),
        Err(PayloadFault::Memory) => Err(Memory),
    }
}

// The type whose members a transaction asks for.
fn kind_asked(alloc: Global, tx: &Tx) -> Result<Option<u8>, Memory>
    ensures { IfOk result (λ kind. kind ≡ kind_asked tx.now) }
{
    if tx.kind == COMMITMENT_TX {
        kind_in(alloc, tx.payload.as_slice())
    } else {
        Ok(None)
    }
}

// Adds a type, where there is one.
fn put_kind(kinds: &mut Vec<u8>, kind: Option<u8>) -> Result<(), Memory>
    ensures { OnOk result (kinds.new.items ≡ kinds.old.items ++ with_kind kind []) }
{
    match kind {
        None => Ok(()),
        Some(kind) => kinds.push(kind).map_err(|_| Memory),
    }
}

// The types whose members these transactions ask for, one after another.
fn kinds_asked(alloc: Global, txs: &[Tx]) -> Result<Vec<u8>, Memory>
    ensures { IfOk result (λ kinds. kinds.items ≡ kinds_asked txs.now) }
{
    let mut kinds = Vec::new(alloc);
    for tx in txs {
        let kind = kind_asked(alloc, tx)?;
        put_kind(&mut kinds, kind)?;
    }
    Ok(kinds)
}
