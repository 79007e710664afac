//! How a block's first transaction is told from others.

ghost use Rattle.std.specs.Prelude.{◌≡◌};
ghost use Rattle.dmn_tx.specs.Coinbase.{is_null_input, is_coinbase, is_cb_type};

use crate::kinds::{COINBASE_TX, SPECIAL_VERSION};
use crate::tx::{Tx, TxIn};
use dmn_bytes::is_zero;

fn is_null_input(input: &TxIn) -> bool
    ensures { result ≡ is_null_input input.now }
{
    is_zero(&input.point.hash.0) && input.point.index == u32::MAX
}

impl Tx {
    /// Whether it is a coinbase: its one input spends the outpoint of 32 zero bytes and the index 4,294,967,295, which
    /// is no output's.
    #[tactic(auto, unfolding(crate::specs::Coinbase::is_coinbase))]
    pub fn is_coinbase(&self) -> bool
        ensures { result ≡ is_coinbase self.now }
    {
        match self.inputs.as_slice() {
            [input] => is_null_input(input),
            _ => false,
        }
    }

    /// Whether it is a special transaction of the coinbases' type (DIP-0004).
    #[tactic(auto, unfolding(crate::specs::Coinbase::is_cb_type))]
    pub fn is_cb_type(&self) -> bool
        ensures { result ≡ is_cb_type self.now }
    {
        self.version == SPECIAL_VERSION && self.kind == COINBASE_TX
    }
}
