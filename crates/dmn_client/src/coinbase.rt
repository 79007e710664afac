//! The root that a coinbase tells.

ghost use Rattle.std.specs.Prelude.{◌≡◌, IfOk};
ghost use Rattle.dmn_bytes.specs.Format.{whole};
ghost use Rattle.dmn_payloads.specs.Payloads.{cb};
ghost use Rattle.dmn_client.specs.Coinbase.{rows_of, committed_of};

use dmn_bytes::{Hash256, Memory};
use dmn_payloads::{PayloadFault, read_cb};
use dmn_tx::Tx;
use std::alloc::Global;

fn rows_in(alloc: Global, payload: &[u8]) -> Result<Option<Hash256>, Memory>
    ensures { IfOk result (λ root. root ≡ rows_of (whole cb payload.now)) }
{
    match read_cb(alloc, payload) {
        Ok(value) => Ok(Some(value.rows)),
        Err(PayloadFault::Memory) => Err(Memory),
        Err(PayloadFault::PayloadVersion { .. }) => Ok(None),
        Err(PayloadFault::PayloadForm { .. }) => Ok(None),
    }
}

/// The root of the list that a coinbase's payload tells; none where it is no coinbase, or has no such payload.
#[tactic(auto, unfolding(crate::specs::Coinbase::committed_of))]
pub(crate) fn committed(alloc: Global, tx: &Tx) -> Result<Option<Hash256>, Memory>
    ensures { IfOk result (λ root. root ≡ committed_of tx.now) }
{
    if tx.is_coinbase() && tx.is_cb_type() {
        rows_in(alloc, tx.payload.as_slice())
    } else {
        Ok(None)
    }
}
