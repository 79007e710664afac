//! The transactions of a block, judged one after another: each by the rows that the ones before left.

ghost use Rattle.std.specs.Prelude.{◌≡◌, ℕ, ◌+◌, ◌<◌, ◌≤◌, List, Option, Some, Ok, OnOk, IfErr, length};
ghost use Rattle.std.specs.Option.{option_copied};
ghost use Rattle.dmn_block.specs.Defs.{IsBlock};
ghost use Rattle.dmn_indexes.specs.Working.{Leads, listing};
ghost use Rattle.dmn_rows.specs.Distinct.{HasDistinctKeys};
ghost use Rattle.dmn_rows.specs.declared.profile.Profile.{Profile};
ghost use Rattle.dmn_rows.specs.declared.row.MnRow.{MnRow};
ghost use Rattle.dmn_rows.specs.declared.verdict.Verdict.{Verdict};
ghost use Rattle.dmn_rows.specs.Rows.{Outputs, plain_rows};
ghost use Rattle.dmn_rules.specs.Change.{applied};
ghost use Rattle.dmn_rules.specs.declared.effect.Effect.TheVariants.{Register};
ghost use Rattle.dmn_rules.specs.Defs.{Judges, judge_of, effect_of};
ghost use Rattle.dmn_tx.specs.Defs.{id_of};
ghost use Rattle.dmn_tx.specs.Tx.{KeepsPayload, is_special as special};
ghost use Rattle.dmn_branch.specs.Fault.{Tells};
ghost use Rattle.dmn_branch.specs.Events.{effect_events, once_there, tx_events};
ghost use Rattle.dmn_branch.specs.Parts.{IsWorking, IsAfter, counted_at, rule_on, setting_with, from_place};

use crate::commitments::{Commitments, judge_quorum};
use crate::fault::PrepareFault;
use crate::setting::Setting;
use dmn_block::{BlockFrame, Refusal};
use dmn_bytes::{Hash256, Memory};
use dmn_indexes::Working;
use dmn_rows::{MnRow, Verdict};
use dmn_rules::{Effect, JudgeFault, judge};
use dmn_tx::{REGISTER_TX, REVOKE_TX, SPECIAL_VERSION, Tx};
use std::alloc::Global;

/// Judges the transactions behind the first, in their order, and does to the rows what they do. The outputs of the list
/// are those after the block before, and stay so.
#[tactic(auto, using(dmn_indexes::proofs::Counting::leads_none, dmn_indexes::proofs::Counting::leads_then))]
pub fn judge_all(
    alloc: Global,
    setting: &Setting<'_>,
    block: &BlockFrame,
    list: &mut Working,
    committed: &mut Commitments,
) -> Result<(), PrepareFault>
    requires block { IsBlock block.now }
    requires working { IsWorking setting.now.height list.old.rows }
    ensures rows { OnOk result (from_place setting.now block.now list.old committed.old 1 ≡ Ok (counted_at setting.now.height list.new committed.new)) }
    ensures refused { IfErr result (Tells (from_place setting.now block.now list.old committed.old 1)) }
    ensures outputs { OnOk result (list.new.outputs ≡ list.old.outputs) }
    ensures working { OnOk result (IsWorking setting.now.height list.new.rows) }
    ensures leads { Leads list.old list.new }
{
    for place in 1..block.txs.len() {
        judge_at(alloc, setting, block, place, list, committed)?;
    }
    Ok(())
}

// Judges the transaction at a place.
#[tactic(auto, using(dmn_indexes::proofs::Counting::leads_none, dmn_indexes::proofs::Counting::leads_then))]
fn judge_at(
    alloc: Global,
    setting: &Setting<'_>,
    block: &BlockFrame,
    place: usize,
    list: &mut Working,
    committed: &mut Commitments,
) -> Result<(), PrepareFault>
    requires block { IsBlock block.now }
    requires working { IsWorking setting.now.height list.old.rows }
    requires place { place < length block.now.txs }
    ensures rows { OnOk result (from_place setting.now block.now list.old committed.old place ≡ from_place setting.now block.now list.new committed.new (place + 1)) }
    ensures refused { IfErr result (Tells (from_place setting.now block.now list.old committed.old place)) }
    ensures outputs { OnOk result (list.new.outputs ≡ list.old.outputs) }
    ensures working { OnOk result (IsWorking setting.now.height list.new.rows) }
    ensures leads { Leads list.old list.new }
{
    let tx = &block.txs.as_slice()[place];
    let id = &block.ids.as_slice()[place];
    let verdict = setting.verdict_on(place as u32);
    match judge_one(alloc, setting, tx, id, verdict, list, committed) {
        Ok(()) => Ok(()),
        Err(JudgeFault::Broken(rule)) => Err(PrepareFault::Refused(Refusal {
            rule,
            tx: Some(place as u32),
        })),
        Err(JudgeFault::Memory) => Err(PrepareFault::Memory),
    }
}

// Judges a transaction, and does to the rows what it does.
#[tactic(auto, using(dmn_indexes::proofs::Counting::leads_none, dmn_indexes::proofs::Counting::leads_then))]
fn judge_one(
    alloc: Global,
    setting: &Setting<'_>,
    tx: &Tx,
    id: &Hash256,
    verdict: Option<&Verdict>,
    list: &mut Working,
    committed: &mut Commitments,
) -> Result<(), JudgeFault>
    requires payload { KeepsPayload tx.now }
    requires id { id.now ≡ id_of tx.now }
    requires working { IsWorking setting.now.height list.old.rows }
    ensures rule { Judges (rule_on (setting_with setting.now list.old.outputs) (counted_at setting.now.height list.old committed.old) tx.now (option_copied verdict.entry)) result }
    ensures after { OnOk result (IsAfter setting.now list.old committed.old tx.now list.new committed.new) }
    ensures leads { Leads list.old list.new }
{
    if !is_special(tx) {
        Ok(())
    } else if tx.kind > REVOKE_TX {
        judge_quorum(alloc, setting, tx, verdict, list, committed)
    } else {
        judge_provider(alloc, setting, tx, id, verdict, list)
    }
}

// A special transaction has a payload.
fn is_special(tx: &Tx) -> bool
    ensures { result ≡ special tx.now.version tx.now.kind }
{
    tx.version == SPECIAL_VERSION && tx.kind != 0
}

// Judges a provider transaction, and does to the rows what it does.
#[tactic(auto, using(dmn_indexes::proofs::Counting::leads_none, dmn_indexes::proofs::Counting::leads_then))]
fn judge_provider(
    alloc: Global,
    setting: &Setting<'_>,
    tx: &Tx,
    id: &Hash256,
    verdict: Option<&Verdict>,
    list: &mut Working,
) -> Result<(), JudgeFault>
    requires provider { (REGISTER_TX ≤ tx.now.kind) × (tx.now.kind ≤ REVOKE_TX) }
    requires payload { KeepsPayload tx.now }
    requires id { id.now ≡ id_of tx.now }
    requires working { IsWorking setting.now.height list.old.rows }
    ensures rule { Judges (judge_of setting.now.profile (plain_rows setting.now.height list.old.rows) list.old.outputs setting.now.height tx.now (option_copied verdict.entry)) result }
    ensures rows { OnOk result (plain_rows setting.now.height list.new.rows ≡ effect_of (plain_rows setting.now.height list.old.rows) list.old.outputs tx.now setting.now.height) }
    ensures events { OnOk result (list.new.events ≡ list.old.events + tx_events (plain_rows setting.now.height list.old.rows) list.old.outputs tx.now setting.now.height) }
    ensures outputs { OnOk result (list.new.outputs ≡ list.old.outputs) }
    ensures working { OnOk result (IsWorking setting.now.height list.new.rows) }
    ensures leads { Leads list.old list.new }
{
    match judge(
        alloc,
        setting.profile(),
        setting.height(),
        &*list,
        tx,
        id,
        verdict,
    ) {
        Err(fault) => Err(fault),
        Ok(effect) => match apply(list, effect) {
            Ok(()) => Ok(()),
            Err(_) => Err(JudgeFault::Memory),
        },
    }
}

// Does to the rows what an accepted transaction does.
#[tactic(auto, using(dmn_indexes::proofs::Counting::leads_none, dmn_indexes::proofs::Counting::leads_then))]
fn apply(list: &mut Working, effect: Effect) -> Result<(), Memory>
    requires { HasDistinctKeys (applied effect list.old.rows) }
    ensures rows { OnOk result (list.new.rows ≡ applied effect list.old.rows) }
    ensures events { OnOk result (list.new.events ≡ list.old.events + effect_events list.old.rows (Some effect)) }
    ensures outputs { OnOk result (list.new.outputs ≡ list.old.outputs) }
    ensures leads { Leads list.old list.new }
{
    match effect {
        Effect::Register { row, replaced } => register(list, &row, &replaced),
        Effect::Update { row } => list.put_row(&row),
    }
}

// Puts a new row, once the row that it replaces is gone.
#[tactic(auto, using(dmn_indexes::proofs::Counting::leads_none, dmn_indexes::proofs::Counting::leads_then))]
fn register(list: &mut Working, row: &MnRow, replaced: &Option<Hash256>) -> Result<(), Memory>
    requires { HasDistinctKeys (applied (Register row.now replaced.now) list.old.rows) }
    ensures rows { OnOk result (list.new.rows ≡ applied (Register row.now replaced.now) list.old.rows) }
    ensures events { OnOk result (list.new.events ≡ list.old.events + (once_there replaced.now list.old.rows + 1)) }
    ensures outputs { OnOk result (list.new.outputs ≡ list.old.outputs) }
    ensures leads { Leads list.old list.new }
{
    match replaced {
        None => {
            list.put_row(row)?;
            Ok(())
        }
        Some(hash) => {
            list.drop_row(hash)?;
            list.put_row(row)?;
            Ok(())
        }
    }
}
