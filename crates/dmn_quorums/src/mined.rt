//! Mined commitments.

ghost use Rattle.std.specs.Prelude.{◌≡◌, ◌<◌, [], ◌∷◌, ◌++◌, IfOk, OnOk, OnErr, slice_get};
ghost use Rattle.dmn_quorums.specs.Duty as spec;
ghost use Rattle.dmn_quorums.specs.Items.{item_of};

use crate::duties::base_of;
use dmn_bytes::Memory;
use dmn_payloads::{Commitment, MinedAt};
use dmn_rows::QuorumParams;
use std::alloc::Global;
use std::marker::Model;

/// The commitments that were mined and aren't null, in the order in which they were added. Contracts see the list.
#[derive(Debug, Drop)]
pub struct Mined {
    pub items: Vec<MinedAt>,
}

impl Model for Mined {
    ghost use Rattle.std.specs.Prelude.{List};
    ghost use Rattle.dmn_payloads.specs.declared.mined.MinedAt.{MinedAt as Item};

    ghost Value = { List Item };

    ghost view = { λ m. m.items.items };
}

impl Mined {
    /// None, which takes no memory.
    pub fn new(alloc: Global) -> Mined
        ensures { result ≡ [] }
    {
        Mined {
            items: Vec::new(alloc),
        }
    }

    /// Adds one behind the others. Without memory nothing changes.
    pub fn add(&mut self, height: u32, commitment: Commitment) -> Result<(), Memory>
        ensures ok { OnOk result (self.new
            ≡ self.old ++ (record { height = height; commitment = commitment }) ∷ []) }
        ensures err { OnErr result (self.new ≡ self.old) }
    {
        self.items
            .push(MinedAt { height, commitment })
            .map_err(|_| Memory)
    }

    /// Adds those of a block, in their order, behind the others. Without memory nothing changes.
    pub fn append(&mut self, height: u32, commitments: Vec<Commitment>) -> Result<(), Memory>
        ensures ok { OnOk result (self.new ≡ self.old ++ spec.mined_at height commitments.items) }
        ensures err { OnErr result (self.new ≡ self.old) }
    {
        self.items.reserve(commitments.len()).map_err(|_| Memory)?;
        for commitment in commitments {
            self.items.push_reserved(MinedAt { height, commitment });
        }
        Ok(())
    }

    /// Drops those that were mined above a height.
    pub fn undo(&mut self, height: u32)
        ensures { self.new ≡ spec.undone height self.old }
    {
        self.items.retain(|m| m.height <= height);
    }

    /// All of them, in the order in which they were added.
    pub fn as_slice(&self) -> &[MinedAt]
        ensures { result.now ≡ self.now }
    {
        self.items.as_slice()
    }

    /// The one at a place, counted from 0 in the order in which they were added, with its height.
    pub fn item(&self, n: usize) -> Option<(u32, &Commitment)>
        ensures { item_of result ≡ slice_get self.now n }
    {
        match self.items.get(n) {
            None => None,
            Some(m) => Some((m.height, &m.commitment)),
        }
    }

    /// Whether one of the type was mined for the base of a height.
    pub fn is_done(&self, params: &QuorumParams, height: u32) -> bool
        requires { 0 < params.now.interval }
        ensures { result ≡ spec.is_done params.now height self.now }
    {
        self.items.iter().any(|m| is_for(params, height, m))
    }

    /// The active quorums of a type at a height, the oldest first: the last `active` ones of the type that were mined
    /// at this height or below.
    pub fn active(
        &self,
        alloc: Global,
        params: &QuorumParams,
        height: u32,
    ) -> Result<Vec<Commitment>, Memory>
        ensures { IfOk result (λ list. list.items ≡ spec.active_of self.now params.now height) }
    {
        active_in(alloc, &self.items, params, height)
    }

    /// The active quorums of all types at a height, in the order of the types.
    pub fn all_active(
        &self,
        alloc: Global,
        quorums: &[Option<QuorumParams>],
        height: u32,
    ) -> Result<Vec<Commitment>, Memory>
        ensures { IfOk result (λ list. list.items ≡ spec.all_active self.now quorums.now height) }
    {
        let mut all = Vec::new(alloc);
        for quorum in quorums {
            if let Some(params) = quorum {
                put_all(&mut all, self.active(alloc, params, height)?)?;
            }
        }
        Ok(all)
    }
}

// Adds all behind the others.
fn put_all(list: &mut Vec<Commitment>, more: Vec<Commitment>) -> Result<(), Memory>
    ensures { OnOk result (list.new.items ≡ list.old.items ++ more.items) }
{
    for commitment in more {
        list.push(commitment).map_err(|_| Memory)?;
    }
    Ok(())
}

fn is_for(params: &QuorumParams, height: u32, m: &MinedAt) -> bool
    requires { 0 < params.now.interval }
    ensures { result ≡ spec.is_for params.now height m.now }
{
    m.commitment.kind == params.kind && base_of(params, m.height) == base_of(params, height)
}

fn is_of(params: &QuorumParams, height: u32, m: &MinedAt) -> bool
    ensures { result ≡ spec.is_of params.now height m.now }
{
    m.commitment.kind == params.kind && m.height <= height
}

// How many aren't among the last `active` ones.
fn older(items: &[MinedAt], params: &QuorumParams, height: u32) -> usize
    ensures { result ≡ spec.older items.now params.now height }
{
    let all = items.iter().filter(|m| is_of(params, height, m)).count();
    all.saturating_sub(params.active as usize)
}

// Adds a copy behind the others.
fn put_copy(alloc: Global, list: &mut Vec<MinedAt>, m: &MinedAt) -> Result<(), Memory>
    ensures { OnOk result (list.new.items ≡ list.old.items ++ m.now ∷ []) }
{
    let commitment = m.commitment.copy(alloc)?;
    let copy = MinedAt {
        height: m.height,
        commitment,
    };
    list.push(copy).map_err(|_| Memory)
}

/// The active quorums of a type at a height, the oldest first, each with the height at which it was mined: the last `active` ones
/// of the type that were mined at this height or below.
pub fn active_among(
    alloc: Global,
    items: &[MinedAt],
    params: &QuorumParams,
    height: u32,
) -> Result<Vec<MinedAt>, Memory>
    ensures { IfOk result (λ list. list.items ≡ spec.active_at items.now params.now height) }
{
    let mut left = older(items, params, height);
    let mut active = Vec::new(alloc);
    for m in items {
        if is_of(params, height, m) {
            if left > 0 {
                left -= 1;
            } else {
                put_copy(alloc, &mut active, m)?;
            }
        }
    }
    Ok(active)
}

// Adds all behind the others.
fn put_all_mined(list: &mut Vec<MinedAt>, more: Vec<MinedAt>) -> Result<(), Memory>
    ensures { OnOk result (list.new.items ≡ list.old.items ++ more.items) }
{
    for m in more {
        list.push(m).map_err(|_| Memory)?;
    }
    Ok(())
}

/// The active quorums of all types at a height, in the order of the types, each with the height at which it was mined.
pub fn all_active_among(
    alloc: Global,
    items: &[MinedAt],
    quorums: &[Option<QuorumParams>],
    height: u32,
) -> Result<Vec<MinedAt>, Memory>
    ensures { IfOk result (λ list. list.items ≡ spec.all_active_at items.now quorums.now height) }
{
    let mut all = Vec::new(alloc);
    for quorum in quorums {
        if let Some(params) = quorum {
            put_all_mined(&mut all, active_among(alloc, items, params, height)?)?;
        }
    }
    Ok(all)
}

fn active_in(
    alloc: Global,
    items: &[MinedAt],
    params: &QuorumParams,
    height: u32,
) -> Result<Vec<Commitment>, Memory>
    ensures { IfOk result (λ list. list.items ≡ spec.active_of items.now params.now height) }
{
    let mut active = Vec::new(alloc);
    for m in active_among(alloc, items, params, height)? {
        active.push(m.commitment).map_err(|_| Memory)?;
    }
    Ok(active)
}
