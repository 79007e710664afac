//! What is known of a transaction beside its payload.

ghost use Rattle.std.specs.Prelude.{◌≡◌};
ghost use Rattle.std.specs.Option.{option_copied};
ghost use Rattle.dmn_tx.specs.Defs.{id_of};
ghost use Rattle.dmn_rules.specs.Defs as def;

use dmn_bytes::Hash256;
use dmn_rows::{Profile, Verdict};
use dmn_tx::{Tx, inputs_hash};

/// What is known of a transaction beside its payload.
#[derive(Clone, Copy, Debug)]
pub struct Facts {
    /// The port of the network's masternodes.
    pub port: u16,
    /// The height of the transaction's block.
    pub height: u32,
    /// The transaction's id.
    pub id: Hash256,
    /// The hash of its inputs.
    pub inputs: Hash256,
    /// The verdict that names it.
    pub verdict: Option<Verdict>,
}

/// The facts of a transaction. This takes no memory.
pub fn facts_of(
    profile: &Profile,
    height: u32,
    tx: &Tx,
    id: &Hash256,
    verdict: Option<&Verdict>,
) -> Facts
    requires { id.now ≡ id_of tx.now }
    ensures { result ≡ def.facts_of profile.now height tx.now (option_copied verdict.entry) }
{
    Facts {
        port: profile.port,
        height,
        id: *id,
        inputs: inputs_hash(tx),
        verdict: verdict.copied(),
    }
}
