//! The root of a slice of hashes.

ghost use Rattle.std.specs.Prelude.{◌≡◌, Ok};
ghost use Rattle.dmn_merkle.specs.Defs.{merkle_root};

use crate::builder::RootBuilder;
use dmn_bytes::{Hash256, Memory};
use std::alloc::Global;

/// The Merkle root of these leaves: 32 zero bytes for none, the hash itself for one. It is made in one pass with one
/// hash a level, by fewer than n + 32 hashes of pairs, and takes no memory (DIP-0004).
pub fn root(_alloc: Global, leaves: &[Hash256]) -> Result<Hash256, Memory>
    ensures { result ≡ Ok (merkle_root leaves.now) }
{
    let mut builder = RootBuilder::new();
    for leaf in leaves {
        builder.push(leaf);
    }
    Ok(builder.finish())
}
