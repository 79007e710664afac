//! The Merkle root of hashes that come one by one.

ghost use Rattle.std.specs.Prelude.{◌≡◌, ◌+◌, ◌^◌, ◌<◌, ◌≤◌, List, [], ◌∷◌, ◌++◌, length, take, option_to_list, IfSome, IfNone, Some};
ghost use Rattle.dmn_bytes.specs.declared.hash.Hash256.{Hash256};
ghost use Rattle.dmn_merkle.specs.Defs.{pair, above, merkle_root};
ghost use Rattle.dmn_merkle.specs.OnePass.{added, risen, finished, count_of, Holds};

use dmn_bytes::{Hash256, dsha2};
use std::marker::Model;

/// Makes the root of hashes that come one by one. At each level at most one hash waits for its right neighbour, so
/// it takes no memory, however many hashes come.
#[derive(Drop)]
pub struct RootBuilder {
    waiting: [Option<Hash256>; 64],
    levels: usize,
}

impl Model for RootBuilder {
    ghost use Rattle.std.specs.Prelude.{◌≤◌, List, Option, take};
    ghost use Rattle.dmn_bytes.specs.declared.hash.Hash256.{Hash256};

    ghost Value = { List (Option Hash256) };

    ghost view = { λ b. take b.levels b.waiting };

    ghost invariant = { λ b. b.levels ≤ 64 };
}

impl RootBuilder {
    /// Before the first hash.
    pub fn new() -> RootBuilder
        ensures none { Holds result [] }
        ensures count { count_of result ≡ 0 }
    {
        RootBuilder {
            waiting: [None; 64],
            levels: 0,
        }
    }

    /// One more hash, behind the others.
    pub fn push(&mut self, hash: &Hash256)
        requires { count_of self.old + 1 < 2 ^ 64 }
        ensures added { (hashes : List Hash256) → Holds self.old hashes → Holds self.new (hashes ++ hash.now ∷ []) }
        ensures count { count_of self.new ≡ count_of self.old + 1 }
    {
        let levels = self.levels;
        match add(&mut self.waiting[..levels], *hash) {
            None => {}
            Some(top) => {
                self.waiting[levels] = Some(top);
                self.levels = levels + 1;
            }
        }
    }

    /// The root of the hashes that came.
    pub fn finish(&self) -> Hash256
        ensures { (hashes : List Hash256) → Holds self.now hashes → result ≡ merkle_root hashes }
    {
        finish(&self.waiting[..self.levels])
    }
}

// One more hash on the lowest level. What rises out of the highest one then.
#[tactic(auto, using(crate::proofs::Waiting::rests))]
fn add(waiting: &mut [Option<Hash256>], hash: Hash256) -> Option<Hash256>
    ensures { waiting.new ++ risen result ≡ added hash waiting.old }
{
    let mut carry = hash;
    for i in 0..waiting.len() {
        match waiting[i] {
            None => {
                waiting[i] = Some(carry);
                return None;
            }
            Some(left) => {
                carry = pair(&left, &carry);
                waiting[i] = None;
            }
        }
    }
    Some(carry)
}

// The root of what waits.
#[tactic(auto, using(crate::proofs::Waiting::none_waits))]
fn finish(waiting: &[Option<Hash256>]) -> Hash256
    ensures { result ≡ finished waiting.now [] }
{
    let mut carry = None;
    for i in 0..waiting.len() {
        if i + 1 == waiting.len() {
            return top(waiting[i], carry);
        }
        carry = raise(waiting[i], carry);
    }
    Hash256([0; 32])
}

// What rises from a level to the next one. An odd last hash is paired with itself.
fn raise(waits: Option<Hash256>, carry: Option<Hash256>) -> Option<Hash256>
    ensures { option_to_list result ≡ above (option_to_list waits ++ option_to_list carry) }
{
    match (waits, carry) {
        (None, None) => None,
        (Some(left), Some(right)) => Some(pair(&left, &right)),
        (Some(last), None) => Some(pair(&last, &last)),
        (None, Some(last)) => Some(pair(&last, &last)),
    }
}

// The root of what waits at the last level.
#[tactic(auto, unfolding(crate::specs::Defs::merkle_root))]
fn top(waits: Option<Hash256>, carry: Option<Hash256>) -> Hash256
    ensures { result ≡ merkle_root (option_to_list waits ++ option_to_list carry) }
{
    match (waits, carry) {
        (None, None) => Hash256([0; 32]),
        (Some(left), Some(right)) => pair(&left, &right),
        (Some(last), None) => last,
        (None, Some(last)) => last,
    }
}

#[tactic(auto, unfolding(crate::specs::Defs::pair))]
pub(crate) fn pair(left: &Hash256, right: &Hash256) -> Hash256
    ensures { result ≡ pair left.now right.now }
{
    dsha2(left, right)
}
