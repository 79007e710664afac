//! The branch of the first of a list of ids, and its test (DIP-0004; the partial trees of BIP-0037).

ghost use Rattle.std.specs.Prelude.{◌≡◌, ◌≢◌, ◌≤◌, ◌<◌, ◌^◌, length, IfOk, MatchBool};
ghost use Rattle.dmn_merkle.specs.Branch.{depth_of, branch_hashes, branch_of, folded, folded_from, ones_byte, flag_bytes, judge_branch, ProvesFirst};
ghost use Rattle.dmn_merkle.specs.BranchText.{branching, branching_sound};

use crate::builder::pair;
use crate::halves::halve;
use dmn_bytes::{Bytes, Hash256, Items, Memory, ReadError, Reader, Sink, Text};
use std::alloc::Global;
use thiserror::Error;

/// Why a branch is refused.
#[derive(Clone, Copy, Debug, PartialEq, Eq, Error)]
pub enum BranchFault {
    /// It is a branch of no ids.
    #[error("the branch is of no ids")]
    TotalZero,
    /// It has not one hash more than a tree of so many ids has levels above them.
    #[error("the branch has too few or too many hashes")]
    HashCount,
    /// The flags are not those of the first id's branch.
    #[error("the flags are not those of the first id")]
    Flags,
    /// Its first hash is another than the id.
    #[error("the branch is another id's")]
    Leaf,
}

/// What proves that an id is the first of so many ids of a root.
#[derive(Debug, Drop)]
pub struct Branching {
    /// How many ids there are.
    pub total: u32,
    /// The first id, and then its right sibling at each level upwards.
    pub hashes: Items<Hash256>,
    /// A bit 1 for each of the hashes, and then a bit 0 for each sibling, the lowest bit of a byte first.
    pub flags: Bytes,
}

impl Branching {
    /// An equal branch.
    pub fn copy(&self, alloc: Global) -> Result<Branching, Memory>
        ensures { IfOk result (λ v. v ≡ self.now) }
    {
        Ok(Branching {
            total: self.total,
            hashes: Items::from_vec(Vec::from_slice(alloc, self.hashes.as_slice())?),
            flags: Bytes::from_slice(alloc, self.flags.as_slice())?,
        })
    }
}

#[tactic(auto, using(dmn_bytes::proofs::Send::sent_then), unfolding(crate::specs::BranchText::branching))]
impl Text for Branching {
    ghost format = { branching };

    ghost sound = { branching_sound };

    fn read(reader: &mut Reader<'_>, alloc: Global) -> Result<Branching, ReadError> {
        let total = reader.u32()?;
        let hashes = Items::read(reader, alloc)?;
        let flags = reader.blob(alloc)?;
        Ok(Branching {
            total,
            hashes,
            flags,
        })
    }

    fn feed<S: Sink>(&self, sink: &mut S) {
        self.total.feed(sink);
        self.hashes.feed(sink);
        self.flags.feed(sink);
    }
}

// The least d with `total <= 2 ^ d`.
fn depth(total: u32) -> usize
    ensures depth { result ≡ depth_of total }
    ensures small { result ≤ 32 }
{
    let mut width: u64 = 1;
    for d in 0..32 {
        if u64::from(total) <= width {
            return d;
        }
        width *= 2;
    }
    32
}

/// The branch of the first of the ids, which proves that it is the first id under their root.
#[tactic(auto, using(crate::proofs::Judged::proves_first))]
pub fn coinbase_branch(alloc: Global, ids: &[Hash256]) -> Result<Branching, Memory>
    requires some { 0 < length ids.now }
    requires few { length ids.now < 2 ^ 32 }
    ensures branch { IfOk result (λ branch. branch ≡ branch_of ids.now) }
    // It passes its test, for the first id and the root of all.
    ensures proves { IfOk result (λ branch. ProvesFirst branch ids.now) }
{
    let total = ids.len() as u32;
    let hashes = first_and_siblings(alloc, ids)?;
    let flags = flags_of(alloc, depth(total))?;
    Ok(Branching {
        total,
        hashes: Items::from_vec(hashes),
        flags,
    })
}

#[tactic(auto, using(crate::proofs::Branches::first_pushed, crate::proofs::Branches::one_up, crate::proofs::Branches::no_more, crate::proofs::Halving::falls, crate::proofs::Halving::some_left))]
fn first_and_siblings(alloc: Global, ids: &[Hash256]) -> Result<Vec<Hash256>, Memory>
    requires { 0 < length ids.now }
    ensures { IfOk result (λ v. v.items ≡ branch_hashes ids.now) }
{
    let mut level = Vec::from_slice(alloc, ids)?;
    let mut hashes = Vec::new(alloc);
    hashes.push(level[0]).map_err(|_| Memory)?;
    while level.len() > 1 {
        hashes.push(level[1]).map_err(|_| Memory)?;
        halve(&mut level);
    }
    Ok(hashes)
}

#[tactic(auto, using(crate::proofs::Branches::flags_end))]
fn flags_of(alloc: Global, d: usize) -> Result<Bytes, Memory>
    requires { d ≤ 32 }
    ensures { IfOk result (λ v. v ≡ flag_bytes d) }
{
    let count = (2 * d + 8) / 8;
    let mut flags = Bytes::new(alloc);
    let mut ones = d + 1;
    for i in 0..count {
        flags.extend(&[byte_of_ones(ones)])?;
        ones = ones.saturating_sub(8);
    }
    Ok(flags)
}

fn are_flags(flags: &[u8], d: usize) -> bool
    requires { d ≤ 32 }
    ensures { MatchBool result (flags.now ≡ flag_bytes d) (flags.now ≢ flag_bytes d) }
{
    let count = (2 * d + 8) / 8;
    if flags.len() != count {
        return false;
    }
    let mut ones = d + 1;
    for i in 0..count {
        if flags[i] != byte_of_ones(ones) {
            return false;
        }
        ones = ones.saturating_sub(8);
    }
    true
}

// A byte of which so many bits are 1, the lowest first; from eight on all of them.
fn byte_of_ones(ones: usize) -> u8
    ensures { result ≡ ones_byte ones }
{
    match ones {
        0 => 0,
        1 => 1,
        2 => 3,
        3 => 7,
        4 => 15,
        5 => 31,
        6 => 63,
        7 => 127,
        _ => 255,
    }
}

fn fold(first: Hash256, rights: &[Hash256]) -> Hash256
    ensures { result ≡ folded first rights.now }
{
    let mut hash = first;
    for right in rights {
        hash = pair(&hash, right);
    }
    hash
}

// The root to which the hashes fold, where the first of them is the id.
fn fold_from(hashes: &[Hash256], id: &Hash256) -> Result<Hash256, BranchFault>
    requires { 0 < length hashes.now }
    ensures { result ≡ folded_from hashes.now id.now }
{
    if hashes[0] == *id {
        Ok(fold(*id, &hashes[1..]))
    } else {
        Err(BranchFault::Leaf)
    }
}

/// The root to which the hashes of a branch fold, where it proves this id; else its first fault, in the order of
/// `BranchFault`. It takes no memory.
#[tactic(auto, using(crate::proofs::Judged::total_zero, crate::proofs::Judged::other_count, crate::proofs::Judged::other_flags, crate::proofs::Judged::folds_or_not))]
pub fn check_branch(
    total: u32,
    hashes: &[Hash256],
    flags: &[u8],
    id: &Hash256,
) -> Result<Hash256, BranchFault>
    ensures { result ≡ judge_branch total hashes.now flags.now id.now }
{
    if total == 0 {
        return Err(BranchFault::TotalZero);
    }
    let d = depth(total);
    if hashes.len() != d + 1 {
        return Err(BranchFault::HashCount);
    }
    if !are_flags(flags, d) {
        return Err(BranchFault::Flags);
    }
    fold_from(hashes, id)
}
