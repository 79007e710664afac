//! What a snapshot holds, as a branch keeps it.

ghost use Rattle.std.specs.Prelude.{◌≡◌, ◌↔◌, ◌+◌, ◌<◌, ◌∷◌, ◌++◌, ◌^◌, [], Some, IfErr, IfOk, IsTrue, OnOk, length, map};
ghost use Rattle.std.specs.List.{AllByRecursion};
ghost use Rattle.std.specs.Option.{option_map};
ghost use Rattle.std.specs.Result.{result_ok};
ghost use Rattle.dmn_bytes.specs.Format.{whole};
ghost use Rattle.dmn_payloads.specs.Payloads.{cb};
ghost use Rattle.dmn_quorums.specs.Duty.{mined_at};
ghost use Rattle.dmn_branch.specs.Coinbases.{root_in};
ghost use Rattle.dmn_branch.specs.Taking.{AreMadeOf, FitsHeights, Head, IsMadeOf, IsSoundHead, heads, mined_in};

use crate::coinbase::copy_part;
use crate::held::{Held, HeldList};
use dmn_bytes::{Hash256, Memory, is_zero};
use dmn_held::{CoinbasePart, HeightData, SnapshotData};
use dmn_payloads::{Commitment, MinedAt, PayloadFault, read_cb};
use dmn_quorums::{Mined, all_active_among};
use dmn_restore::{DataFault, Marked};
use dmn_rows::Profile;
use std::alloc::Global;

/// Whether the heights are those of a branch whose lowest one is this.
pub(crate) fn fits_heights(profile: &Profile, low: u32, held: &SnapshotData) -> bool
    ensures { IsTrue result ↔ FitsHeights profile.now low held.now }
{
    let many = held.heights.len() as u64;
    held.low == low
        && held.low <= held.top
        && many <= (held.top - held.low) as u64
        && (held.top - held.low) as u64 <= many + profile.depth as u64
}

// The root that a payload tells, where it is one of a coinbase.
fn rows_in(alloc: Global, payload: &[u8]) -> Result<Option<Hash256>, Memory>
    ensures { IfOk result (λ root. root ≡ option_map (λ value. value.rows) (result_ok (whole cb payload.now))) }
{
    match read_cb(alloc, payload) {
        Ok(value) => Ok(Some(value.rows)),
        Err(PayloadFault::Memory) => Err(Memory),
        Err(PayloadFault::PayloadVersion { .. }) => Ok(None),
        Err(PayloadFault::PayloadForm { .. }) => Ok(None),
    }
}

// The root that a coinbase tells; zero where there is none.
fn told_root(alloc: Global, coinbase: &Option<CoinbasePart>) -> Result<Option<Hash256>, Memory>
    ensures { IfOk result (λ root. root ≡ root_in coinbase.now) }
{
    match coinbase {
        None => Ok(Some(Hash256([0; 32]))),
        Some(part) => rows_in(alloc, part.tx.payload.as_slice()),
    }
}

fn copy_part_if(alloc: Global, part: &Option<CoinbasePart>) -> Result<Option<CoinbasePart>, Memory>
    ensures { IfOk result (λ copy. copy ≡ part.now) }
{
    match part {
        None => Ok(None),
        Some(part) => Ok(Some(copy_part(alloc, part)?)),
    }
}

// What is to be held of a height.
fn held_from(
    alloc: Global,
    hash: &Hash256,
    coinbase: Option<CoinbasePart>,
    made: &Marked,
) -> Result<Held, DataFault>
    ensures made { (head : Head) → hash.now ≡ head.hash → coinbase ≡ head.coinbase → IfOk result (IsMadeOf head made.now) }
    ensures misfit { (head : Head) → hash.now ≡ head.hash → coinbase ≡ head.coinbase → IsSoundHead head → IfErr result (λ fault. fault ≡ DataFault.Memory) }
{
    if is_zero(&hash.0) {
        return Err(DataFault::Misfit);
    }
    match told_root(alloc, &coinbase)? {
        None => Err(DataFault::Misfit),
        Some(root) => Ok(Held {
            hash: *hash,
            root,
            version: made.version,
            coinbase,
            marks: made.marks,
        }),
    }
}

/// What is to be held of each height, with these trees.
pub(crate) fn held_list(
    alloc: Global,
    held: &SnapshotData,
    versions: &[Marked],
) -> Result<HeldList, DataFault>
    requires { length versions.now ≡ length held.now.heights + 1 }
    ensures made { IfOk result (λ list. AreMadeOf (heads held.now) versions.now list.held) }
    ensures misfit { AllByRecursion IsSoundHead (heads held.now) → IfErr result (λ fault. fault ≡ DataFault.Memory) }
{
    let mut list = HeldList::new(alloc);
    let coinbase = copy_part_if(alloc, &held.coinbase)?;
    let lowest = held_from(alloc, &held.low_hash, coinbase, &versions[0])?;
    list.push(lowest)?;
    let heights = held.heights.as_slice();
    for place in 0..heights.len() {
        let height = &heights[place];
        let part = copy_part(alloc, &height.coinbase)?;
        let next = held_from(alloc, &height.hash, Some(part), &versions[place + 1])?;
        list.push(next)?;
    }
    Ok(list)
}

fn copies(alloc: Global, commitments: &[Commitment]) -> Result<Vec<Commitment>, Memory>
    ensures { IfOk result (λ copies. copies.items ≡ commitments.now) }
{
    let mut copies = Vec::new(alloc);
    for commitment in commitments {
        copies.push(commitment.copy(alloc)?).map_err(|_| Memory)?;
    }
    Ok(copies)
}

// Adds each behind the others.
fn add_all(mined: &mut Mined, more: Vec<MinedAt>) -> Result<(), Memory>
    ensures { OnOk result (mined.new ≡ mined.old ++ more.items) }
{
    for m in more {
        mined.add(m.height, m.commitment)?;
    }
    Ok(())
}

fn add_mined(
    alloc: Global,
    mined: &mut Mined,
    height: u32,
    change: &HeightData,
) -> Result<(), Memory>
    ensures { OnOk result (mined.new ≡ mined.old ++ mined_at height change.now.mined) }
{
    let commitments = copies(alloc, change.mined.as_slice())?;
    mined.append(height, commitments)
}

/// The quorums that are active at the lowest height, and the commitments that were mined since.
pub(crate) fn mined_of(
    alloc: Global,
    profile: &Profile,
    held: &SnapshotData,
) -> Result<Mined, Memory>
    requires { held.now.low + length held.now.heights < 2 ^ 32 }
    ensures { IfOk result (λ mined. mined ≡ mined_in profile.now held.now) }
{
    let mut mined = Mined::new(alloc);
    let active = all_active_among(alloc, held.active.as_slice(), &profile.quorums, held.low)?;
    add_all(&mut mined, active)?;
    let mut height = held.low;
    let heights = held.heights.as_slice();
    for place in 0..heights.len() {
        height += 1;
        add_mined(alloc, &mut mined, height, &heights[place])?;
    }
    Ok(mined)
}
