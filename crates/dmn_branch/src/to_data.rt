//! What a snapshot holds of a branch.

ghost use Rattle.std.specs.Prelude.{◌≡◌, ◌==◌, ◌+◌, ◌<◌, ◌≤◌, ◌^◌, ◌++◌, ◌∷◌, [], Some, IfOk, OnOk, drop, filter, length, map, slice_get, take};
ghost use Rattle.std.specs.List.{All};
ghost use Rattle.dmn_held.specs.Coinbase.{coinbase_part, part_if};
ghost use Rattle.dmn_held.specs.Defs.{IsHeld};
ghost use Rattle.dmn_held.specs.Height.{height_data};
ghost use Rattle.dmn_held.specs.Lists.{commitments_field};
ghost use Rattle.dmn_branch.specs.Telling.{AreChanges, IsChange, IsTellable, IsTold, commitments_at, is_at as is_one_at};

use crate::coinbase::copy_part;
use crate::held::{Held, HeldList};
use dmn_bytes::{Hash256, Items, Memory};
use dmn_held::{CoinbasePart, HeightData, SnapshotData};
use dmn_indexes::Indexes;
use dmn_payloads::{Commitment, MinedAt};
use dmn_quorums::{all_active_among, params_of};
use dmn_restore::{check_commitments, check_mined, check_part, difference_of, lists_of};
use dmn_rows::QuorumParams;
use std::alloc::Global;

// A copy of what proves a coinbase, in its form.
fn formed_part(alloc: Global, part: &CoinbasePart) -> Result<CoinbasePart, Memory>
    ensures is { IfOk result (λ copy. copy ≡ part.now) }
    ensures form { IfOk result coinbase_part.Fits }
    ensures some { IfOk result (λ copy. part_if.Fits (Some copy)) }
{
    let copy = copy_part(alloc, part)?;
    check_part(alloc, &copy)?;
    Ok(copy)
}

/// What proves the coinbase of the lowest height, where it has one.
#[tactic(auto, using(dmn_restore::proofs::Fitting::none_part))]
pub(crate) fn formed_part_if(
    alloc: Global,
    part: &Option<CoinbasePart>,
) -> Result<Option<CoinbasePart>, Memory>
    ensures is { IfOk result (λ copy. copy ≡ part.now) }
    ensures form { IfOk result part_if.Fits }
{
    match part {
        None => Ok(None),
        Some(part) => Ok(Some(formed_part(alloc, part)?)),
    }
}

// Whether it was mined at the height, and is of a type of the profile. A block has no other; what somebody else wrote may have.
fn is_at(m: &MinedAt, quorums: &[Option<QuorumParams>], height: u32) -> bool
    ensures { result ≡ is_one_at quorums.now height m.now }
{
    m.height == height && params_of(quorums, m.commitment.kind).is_some()
}

// The commitments that were mined at a height.
fn mined_here(
    alloc: Global,
    quorums: &[Option<QuorumParams>],
    mined: &[MinedAt],
    height: u32,
) -> Result<Vec<Commitment>, Memory>
    ensures { IfOk result (λ here. here.items ≡ commitments_at quorums.now height mined.now) }
{
    let mut here = Vec::new(alloc);
    for m in mined {
        if is_at(m, quorums, height) {
            here.push(m.commitment.copy(alloc)?).map_err(|_| Memory)?;
        }
    }
    Ok(here)
}

fn hash_is_long(hash: Hash256)
    ensures { length hash.0 ≡ 32 }
{
    let _bytes = hash.0;
}

// What a snapshot holds of a height, behind that of the height before it.
fn change_of(
    alloc: Global,
    indexes: &Indexes,
    quorums: &[Option<QuorumParams>],
    before: &Held,
    after: &Held,
    height: u32,
    mined: &[MinedAt],
) -> Result<HeightData, Memory>
    requires before { IsTellable indexes.now before.now }
    requires after { IsTellable indexes.now after.now }
    ensures told { IfOk result (IsChange indexes.now quorums.now before.now after.now height mined.now) }
    ensures form { IfOk result height_data.Fits }
{
    let Some(part) = &after.coinbase else {
        return Err(Memory);
    };
    let coinbase = formed_part(alloc, part)?;
    let difference = difference_of(alloc, indexes, &before.version, &after.version)?;
    let here = mined_here(alloc, quorums, mined, height)?;
    check_commitments(here.as_slice())?;
    hash_is_long(after.hash);
    Ok(HeightData {
        hash: after.hash,
        coinbase,
        put: difference.put,
        removed: difference.removed,
        added: difference.added,
        spent: difference.spent,
        mined: Items::from_vec(here),
    })
}

// Adds one behind the others.
fn add(changes: &mut Vec<HeightData>, change: HeightData) -> Result<(), Memory>
    ensures { OnOk result (changes.new.items ≡ changes.old.items ++ change ∷ []) }
{
    changes.push(change).map_err(|_| Memory)
}

/// What a snapshot holds of the heights above the lowest one, which is this.
pub(crate) fn changes_of(
    alloc: Global,
    low: u32,
    quorums: &[Option<QuorumParams>],
    indexes: &Indexes,
    held: &HeldList,
    mined: &[MinedAt],
) -> Result<Vec<HeightData>, Memory>
    requires some { 0 < length held.now.held }
    requires few { low + length held.now.held ≤ 2 ^ 32 }
    requires tellable { All (IsTellable indexes.now) held.now.held }
    ensures told { (first : Held) → slice_get held.now.held 0 ≡ Some first → IfOk result (λ changes. AreChanges indexes.now quorums.now low mined.now first (drop 1 held.now.held) changes.items) }
    ensures form { IfOk result (λ changes. All height_data.Fits changes.items) }
{
    let mut changes = Vec::new(alloc);
    let many = held.len() - 1;
    let mut height = low;
    for place in 0..many {
        height += 1;
        let change = change_of(
            alloc,
            indexes,
            quorums,
            held.get(place),
            held.get(place + 1),
            height,
            mined,
        )?;
        add(&mut changes, change)?;
    }
    Ok(changes)
}

/// What a snapshot holds of these heights.
pub(crate) fn data_of(
    alloc: Global,
    top: u32,
    low: u32,
    quorums: &[Option<QuorumParams>],
    indexes: &Indexes,
    held: &HeldList,
    mined: &[MinedAt],
) -> Result<SnapshotData, Memory>
    requires some { 0 < length held.now.held }
    requires few { low + length held.now.held ≤ top + 1 }
    requires tellable { All (IsTellable indexes.now) held.now.held }
    ensures told { (first : Held) → slice_get held.now.held 0 ≡ Some first → IfOk result (IsTold indexes.now quorums.now top low mined.now first (drop 1 held.now.held)) }
    ensures form { IfOk result IsHeld }
{
    let first = held.get(0);
    let lists = lists_of(alloc, indexes, &first.version)?;
    let active = all_active_among(alloc, mined, quorums, low)?;
    check_mined(active.as_slice())?;
    let coinbase = formed_part_if(alloc, &first.coinbase)?;
    let changes = changes_of(alloc, low, quorums, indexes, held, mined)?;
    hash_is_long(first.hash);
    Ok(SnapshotData {
        top,
        low,
        low_hash: first.hash,
        rows: lists.rows,
        outputs: lists.outputs,
        active: Items::from_vec(active),
        coinbase,
        heights: Items::from_vec(changes),
    })
}
