//! The commitments of a block: they are judged, and members that are missing from one are punished.

ghost use Rattle.std.specs.Prelude.{◌≡◌, ◌<◌, OnOk, true};
ghost use Rattle.std.specs.Option.{option_copied};
ghost use Rattle.dmn_indexes.specs.Working.{Leads};
ghost use Rattle.dmn_rules.specs.Defs.{Judges};
ghost use Rattle.dmn_tx.specs.Tx.{KeepsPayload, is_special};
ghost use Rattle.dmn_branch.specs.Parts.{IsAfter, IsWorking, counted_at, punished_at, rule_on, setting_with};
ghost use Rattle.dmn_branch.specs.Quorums as spec;

use crate::setting::Setting;
use dmn_bytes::{Hash256, Memory};
use dmn_indexes::Working;
use dmn_payloads::Commitment;
use dmn_quorums::{bit_at, case_of, judge_commitment, members_in};
use dmn_rows::{Look, Verdict};
use dmn_rules::{JudgeFault, read_other};
use dmn_standing::punish;
use dmn_tx::{REVOKE_TX, Tx};
use std::alloc::Global;
use std::marker::Model;

/// What a block has of commitments so far: their types, and those that aren't null.
#[derive(Debug, Drop)]
pub struct Commitments {
    kinds: Vec<u8>,
    mined: Vec<Commitment>,
}

impl Model for Commitments {
    ghost use Rattle.dmn_branch.specs.Quorums.{Committed};

    ghost Value = { Committed };

    ghost view = { λ c. record { kinds = c.kinds.items; mined = c.mined.items } };
}

impl Commitments {
    /// None, which takes no memory.
    pub fn new(alloc: Global) -> Commitments
        ensures { result ≡ spec.none_committed }
    {
        Commitments {
            kinds: Vec::new(alloc),
            mined: Vec::new(alloc),
        }
    }

    /// The types of all of them.
    pub fn kinds(&self) -> &[u8]
        ensures { result.now ≡ self.now.kinds }
    {
        &self.kinds
    }

    /// Adds one behind the others.
    pub fn add(&mut self, commitment: Commitment) -> Result<(), Memory>
        ensures { OnOk result (self.new ≡ spec.with_commitment commitment self.old) }
    {
        self.kinds.push(commitment.kind).map_err(|_| Memory)?;
        if !commitment.is_null() {
            self.mined.push(commitment).map_err(|_| Memory)?;
        }
        Ok(())
    }

    /// Those that aren't null.
    pub fn into_mined(self) -> Vec<Commitment>
        ensures { result.items ≡ self.mined }
    {
        let Commitments { mined, .. } = self;
        mined
    }
}

/// Judges a special transaction that is no provider's: one with a commitment, or one of an unknown type. Members that an
/// accepted one lacks are punished.
#[tactic(auto, using(dmn_indexes::proofs::Counting::leads_none, dmn_indexes::proofs::Counting::leads_then))]
pub fn judge_quorum(
    alloc: Global,
    setting: &Setting<'_>,
    tx: &Tx,
    verdict: Option<&Verdict>,
    list: &mut Working,
    committed: &mut Commitments,
) -> Result<(), JudgeFault>
    requires special { is_special tx.now.version tx.now.kind ≡ true }
    requires other { REVOKE_TX < tx.now.kind }
    requires payload { KeepsPayload tx.now }
    requires working { IsWorking setting.now.height list.old.rows }
    ensures rule { Judges (rule_on (setting_with setting.now list.old.outputs) (counted_at setting.now.height list.old committed.old) tx.now (option_copied verdict.entry)) result }
    ensures after { OnOk result (IsAfter setting.now list.old committed.old tx.now list.new committed.new) }
    ensures leads { Leads list.old list.new }
{
    let (told, commitment) = read_other(alloc, tx)?;
    let case = case_of(setting.formings(), committed.kinds(), told, commitment.kind);
    judge_commitment(&case, setting.height(), &commitment, verdict)?;
    match accept(setting, commitment, list, committed) {
        Ok(()) => Ok(()),
        Err(_) => Err(JudgeFault::Memory),
    }
}

// Does what an accepted commitment does.
#[tactic(auto, using(dmn_indexes::proofs::Counting::leads_none))]
fn accept(
    setting: &Setting<'_>,
    commitment: Commitment,
    list: &mut Working,
    committed: &mut Commitments,
) -> Result<(), Memory>
    requires { IsWorking setting.now.height list.old.rows }
    ensures rows { OnOk result (punished_at setting.now.height list.new ≡ spec.punish_by setting.now.formed setting.now.height commitment (punished_at setting.now.height list.old)) }
    ensures outputs { OnOk result (list.new.outputs ≡ list.old.outputs) }
    ensures working { OnOk result (IsWorking setting.now.height list.new.rows) }
    ensures leads { Leads list.old list.new }
    ensures added { OnOk result (committed.new ≡ spec.with_commitment commitment committed.old) }
{
    punish_by(setting, &commitment, list)?;
    committed.add(commitment)
}

// Punishes the members that an accepted commitment lacks: none where it is null.
#[tactic(auto, using(dmn_indexes::proofs::Counting::leads_none))]
fn punish_by(
    setting: &Setting<'_>,
    commitment: &Commitment,
    list: &mut Working,
) -> Result<(), Memory>
    requires { IsWorking setting.now.height list.old.rows }
    ensures rows { OnOk result (punished_at setting.now.height list.new ≡ spec.punish_by setting.now.formed setting.now.height commitment.now (punished_at setting.now.height list.old)) }
    ensures outputs { OnOk result (list.new.outputs ≡ list.old.outputs) }
    ensures working { OnOk result (IsWorking setting.now.height list.new.rows) }
    ensures leads { Leads list.old list.new }
{
    if commitment.is_null() {
        return Ok(());
    }
    punish_absent(
        setting.height(),
        commitment.valid.bytes.as_slice(),
        members_in(setting.formings(), commitment.kind),
        list,
    )
}

// Punishes the members whose bit isn't set, in their order.
#[tactic(auto, using(dmn_indexes::proofs::Counting::leads_none, dmn_indexes::proofs::Counting::leads_then))]
fn punish_absent(
    height: u32,
    bits: &[u8],
    members: &[Hash256],
    list: &mut Working,
) -> Result<(), Memory>
    requires { IsWorking height list.old.rows }
    ensures rows { OnOk result (punished_at height list.new ≡ spec.punish_absent height bits.now 0 members.now (punished_at height list.old)) }
    ensures outputs { OnOk result (list.new.outputs ≡ list.old.outputs) }
    ensures working { OnOk result (IsWorking height list.new.rows) }
    ensures leads { Leads list.old list.new }
{
    for place in 0..members.len() {
        punish_unless(bit_at(bits, place), height, &members[place], list)?;
    }
    Ok(())
}

// Punishes the row of a hash, if it is there, unless it is said to be valid.
#[tactic(auto, using(dmn_indexes::proofs::Counting::leads_none))]
fn punish_unless(
    is_valid: bool,
    height: u32,
    hash: &Hash256,
    list: &mut Working,
) -> Result<(), Memory>
    requires { IsWorking height list.old.rows }
    ensures rows { OnOk result (punished_at height list.new ≡ spec.punish_unless is_valid height hash.now (punished_at height list.old)) }
    ensures outputs { OnOk result (list.new.outputs ≡ list.old.outputs) }
    ensures working { OnOk result (IsWorking height list.new.rows) }
    ensures leads { Leads list.old list.new }
{
    if is_valid {
        return Ok(());
    }
    punish_row(height, hash, list)
}

// Punishes the row of a hash, if it is there. No list in memory has 2^32 rows.
#[tactic(auto, using(dmn_indexes::proofs::Counting::leads_none))]
fn punish_row(height: u32, hash: &Hash256, list: &mut Working) -> Result<(), Memory>
    requires { IsWorking height list.old.rows }
    ensures rows { OnOk result (punished_at height list.new ≡ spec.punish_one height hash.now (punished_at height list.old)) }
    ensures outputs { OnOk result (list.new.outputs ≡ list.old.outputs) }
    ensures working { OnOk result (IsWorking height list.new.rows) }
    ensures leads { Leads list.old list.new }
{
    let Ok(count) = u32::try_from(list.rows_len()) else {
        return Err(Memory);
    };
    let punished = match list.row(hash) {
        None => return Ok(()),
        Some(row) => punish(row, height, count),
    };
    list.set_row(&punished)
}
