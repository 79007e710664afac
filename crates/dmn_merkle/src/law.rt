//! The root goes by levels, as many as there are, and a branch is as deep as is needed.

ghost use Rattle.std.specs.Prelude.{◌≡◌, ℕ, List, [], ◌∷◌};
ghost use Rattle.dmn_bytes.specs.declared.hash.Hash256.{Hash256};
ghost use Rattle.dmn_merkle.specs.Defs.{above, merkle_root, zero_hash};
ghost use Rattle.dmn_merkle.specs.Branch.{IsDepth, depth_of};

/// The root of no hash is zero, that of one is the hash, and that of more is the root of the next level.
pub fn root_by_levels()
    ensures none { merkle_root [] ≡ zero_hash }
    ensures one { (a : Hash256) → merkle_root (a ∷ []) ≡ a }
    ensures more { (a b : Hash256) (rest : List Hash256) → merkle_root (a ∷ b ∷ rest) ≡ merkle_root (above (a ∷ b ∷ rest)) }
{}

/// The depth of n leaves is the least number d with n ≤ 2 ^ d.
pub fn depth_is_the_least()
    ensures { (n : ℕ) → IsDepth n (depth_of n) }
{}
