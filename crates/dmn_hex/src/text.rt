//! A hash as text.

ghost use Rattle.std.specs.Prelude.{◌≡◌, IfOk};
ghost use Rattle.hex.specs.Hex.{encode_lower};

use dmn_bytes::{Bytes, Hash256, Memory};
use std::alloc::Global;

/// The bytes of a hash in their order, two lower-case hexadecimal digits each.
pub fn hash_text(alloc: Global, hash: &Hash256) -> Result<Bytes, Memory>
    ensures { IfOk result (λ text. text ≡ encode_lower hash.now.0) }
{
    let mut digits = [0; 64];
    let bytes = hash.0;
    match hex::encode_to_slice(bytes, &mut digits) {
        Ok(()) => Bytes::from_slice(alloc, &digits),
        Err(_) => unreachable!(),
    }
}
