//! What the rules ask of a list of masternodes and of the outputs.

use crate::row::MnRow;
use dmn_bytes::{Hash256, OutPoint, Pay, Service};

/// A list of rows and a list of outputs, however they are kept.
pub trait Look {
    ghost use Rattle.std.specs.Prelude.{◌≡◌, ◌<◌, ◌^◌, List, find, length};
    ghost use Rattle.std.specs.Option.{option_copied};
    ghost use Rattle.dmn_rows.specs.declared.row.MnRow.{MnRow};
    ghost use Rattle.dmn_rows.specs.Rows.{Outputs, has_hash, has_owner, has_operator, has_service, has_collateral, hash_where, output_at};

    ghost rows: { Self → List MnRow };

    ghost outputs: { Self → Outputs };

    /// The row of a hash.
    fn row(&self, hash: &Hash256) -> Option<&MnRow>
        ensures { option_copied result ≡ find (has_hash hash.now) (rows self.now) };

    /// The hash of the first row with an owner's key.
    fn by_owner(&self, key: &[u8; 20]) -> Option<Hash256>
        ensures { result ≡ hash_where (has_owner key.now) (rows self.now) };

    /// The hash of the first row with an operator's key; a zero key is nobody's.
    fn by_operator(&self, key: &[u8; 48]) -> Option<Hash256>
        ensures { result ≡ hash_where (has_operator key.now) (rows self.now) };

    /// The hash of the first row with a service; a service that isn't set is nobody's.
    fn by_service(&self, service: &Service) -> Option<Hash256>
        ensures { result ≡ hash_where (has_service service.now) (rows self.now) };

    /// The hash of the first row with a collateral.
    fn by_collateral(&self, point: &OutPoint) -> Option<Hash256>
        ensures { result ≡ hash_where (has_collateral point.now) (rows self.now) };

    /// What the output at an outpoint pays to.
    fn output(&self, point: &OutPoint) -> Option<Pay>
        ensures { result ≡ output_at (outputs self.now) point.now };

    /// How many rows there are.
    fn count(&self) -> u32
        requires { length (rows self.now) < 2 ^ 32 }
        ensures { result ≡ length (rows self.now) };
}
