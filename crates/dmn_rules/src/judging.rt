//! The judgement of a provider transaction.

ghost use Rattle.std.specs.Prelude.{◌≡◌, ◌≤◌, Some, IfOk, not};
ghost use Rattle.std.specs.Option.{option_copied};
ghost use Rattle.std.specs.Result.{result_err};
ghost use Rattle.dmn_rows.specs.Distinct.{HasDistinctKeys};
ghost use Rattle.dmn_rows.specs.Rows.{plain_rows, same_hash};
ghost use Rattle.dmn_tx.specs.Defs.{id_of};
ghost use Rattle.dmn_tx.specs.Tx.{KeepsPayload};
ghost use Rattle.dmn_rules.specs.Change.{applied, row_of};
ghost use Rattle.dmn_rules.specs.Defs as def;
ghost use Rattle.dmn_rules.specs.Looking.{case_at, Gives, IsTold};
ghost use Rattle.dmn_rules.specs.Provider as spec;
ghost use Rattle.dmn_rules.specs.Table as table;

use crate::change::{registered, rekeyed, revoked, served, stored};
use crate::checks::{is_own, point_of};
use crate::effect::Effect;
use crate::facts::{Facts, facts_of};
use crate::fault::JudgeFault;
use crate::lookups::{replaced_by, row_at};
use crate::provider::Provider;
use crate::reading::read_provider;
use crate::tables::{
    form_rules, key_rules, registrar_rules, revoke_rules, script_of, service_rules, signed_rules,
};
use dmn_bytes::Hash256;
use dmn_payloads::{ProReg, Revoke, UpReg, UpServ, script_kind};
use dmn_rows::{
    COLLATERAL_KEY, Look, OPERATOR_KEY, OWNER_KEY, Profile, Rule, Verdict, check, when,
};
use dmn_tx::{REGISTER_TX, REVOKE_TX, Tx, TxOut};
use std::alloc::Global;

/// Judges a provider transaction by rules 21 to 62 and 73 to 75, in the order of their numbers, and tells what it does
/// to the list. `look` is the list as the transaction finds it, with the outputs after the block before; `verdict` is
/// the one that names the transaction.
#[tactic(auto, using(crate::proofs::Forms::keeps_short, crate::proofs::Forms::judged_form, crate::proofs::Forms::judged_within, crate::proofs::Forms::effect_within))]
pub fn judge<L: Look>(
    alloc: Global,
    profile: &Profile,
    height: u32,
    look: &L,
    tx: &Tx,
    id: &Hash256,
    verdict: Option<&Verdict>,
) -> Result<Effect, JudgeFault>
    requires provider { (REGISTER_TX ≤ tx.now.kind) × (tx.now.kind ≤ REVOKE_TX) }
    requires payload { KeepsPayload tx.now }
    requires id { id.now ≡ id_of tx.now }
    requires keys { HasDistinctKeys (L.rows look.now) }
    // It refuses exactly with the first rule that is broken.
    ensures rule { def.Judges (def.judge_of profile.now (plain_rows height (L.rows look.now)) (L.outputs look.now) height tx.now (option_copied verdict.entry)) result }
    // It tells this very effect.
    ensures told { IfOk result (λ e. def.told_of (plain_rows height (L.rows look.now)) (L.outputs look.now) tx.now height
        ≡ Some e) }
    // Applied to the stored rows, the effect gives the list after the transaction.
    ensures effect { IfOk result (λ e. plain_rows height (applied e (L.rows look.now))
        ≡ def.effect_of (plain_rows height (L.rows look.now)) (L.outputs look.now) tx.now height) }
    // The row that it puts has the penalty of this height.
    ensures fresh { IfOk result (λ e. (row_of e).penalty_at ≡ height) }
    // No two rows have the same key then.
    ensures distinct { IfOk result (λ e. HasDistinctKeys (applied e (L.rows look.now))) }
{
    let read = read_provider(alloc, tx.kind, tx.payload.as_slice())?;
    Ok(judge_read(profile, height, look, tx, id, &read, verdict)?)
}

/// Judges a provider transaction whose payload was read, by rules 23 to 62 and 73 to 75. This takes no memory.
#[tactic(auto, unfolding(crate::specs::Defs::judge_read_of, crate::specs::Defs::effect_read_of))]
pub fn judge_read<L: Look>(
    profile: &Profile,
    height: u32,
    look: &L,
    tx: &Tx,
    id: &Hash256,
    read: &Provider,
    verdict: Option<&Verdict>,
) -> Result<Effect, Rule>
    requires id { id.now ≡ id_of tx.now }
    requires keys { HasDistinctKeys (L.rows look.now) }
    // It refuses exactly with the first rule that is broken.
    ensures rule { result_err result
        ≡ def.judge_read_of profile.now (plain_rows height (L.rows look.now)) (L.outputs look.now) height tx.now read.now (option_copied verdict.entry) }
    // It tells this very effect.
    ensures told { IfOk result (λ e. def.told_read_of (plain_rows height (L.rows look.now)) (L.outputs look.now) tx.now height read.now
        ≡ Some e) }
    // Applied to the stored rows, the effect gives the list after the transaction.
    ensures effect { IfOk result (λ e. plain_rows height (applied e (L.rows look.now))
        ≡ def.effect_read_of (plain_rows height (L.rows look.now)) (L.outputs look.now) tx.now height read.now) }
    // The row that it puts has the penalty of this height.
    ensures fresh { IfOk result (λ e. (row_of e).penalty_at ≡ height) }
    // No two rows have the same key then.
    ensures distinct { IfOk result (λ e. HasDistinctKeys (applied e (L.rows look.now))) }
{
    let facts = facts_of(profile, height, tx, id, verdict);
    judge_by(&facts, look, tx.outputs.as_slice(), read)
}

// What is told gives the list after the transaction.
fn judge_by<L: Look>(
    facts: &Facts,
    look: &L,
    outs: &[TxOut],
    read: &Provider,
) -> Result<Effect, Rule>
    requires { HasDistinctKeys (L.rows look.now) }
    ensures rule { result_err result
        ≡ table.first_of (spec.read_rules (case_at facts.now (L.rows look.now) (L.outputs look.now) outs.now) read.now) }
    ensures told { IfOk result (IsTold (case_at facts.now (L.rows look.now) (L.outputs look.now) outs.now) read.now) }
    ensures effect { IfOk result (Gives (case_at facts.now (L.rows look.now) (L.outputs look.now) outs.now) (L.rows look.now) read.now) }
    ensures fresh { IfOk result (λ e. (row_of e).penalty_at ≡ facts.now.height) }
{
    judge_payload(facts, look, outs, read)
}

// The rule on the inputs hash.
fn inputs_rule(facts: &Facts, read: &Provider) -> Option<Rule>
    ensures { result ≡ table.when (not (same_hash (spec.inputs_of read.now) facts.now.inputs)) Rule.InputsHash }
{
    let inputs = match read {
        Provider::Register(p) => p.inputs,
        Provider::Service(up) => up.inputs,
        Provider::Registrar(up) => up.inputs,
        Provider::Revoke(p) => p.inputs,
    };
    when(inputs != facts.inputs, Rule::InputsHash)
}

fn judge_payload<L: Look>(
    facts: &Facts,
    look: &L,
    outs: &[TxOut],
    read: &Provider,
) -> Result<Effect, Rule>
    requires { HasDistinctKeys (L.rows look.now) }
    ensures rule { result_err result
        ≡ table.first_of (spec.read_rules (case_at facts.now (L.rows look.now) (L.outputs look.now) outs.now) read.now) }
    ensures told { IfOk result (IsTold (case_at facts.now (L.rows look.now) (L.outputs look.now) outs.now) read.now) }
{
    check(&[inputs_rule(facts, read)])?;
    match read {
        Provider::Register(p) => judge_register(facts, look, outs, p),
        Provider::Service(up) => judge_service(facts, look, outs, up),
        Provider::Registrar(up) => judge_registrar(facts, look, outs, up),
        Provider::Revoke(p) => judge_revoke(facts, look, outs, p),
    }
}

#[tactic(auto, using(dmn_rows::proofs::Table::first_broken_append))]
fn judge_register<L: Look>(
    facts: &Facts,
    look: &L,
    outs: &[TxOut],
    p: &ProReg,
) -> Result<Effect, Rule>
    requires { HasDistinctKeys (L.rows look.now) }
    ensures rule { result_err result
        ≡ table.first_of (spec.kind_rules (case_at facts.now (L.rows look.now) (L.outputs look.now) outs.now) (Provider.Register p.now)) }
    ensures told { IfOk result (IsTold (case_at facts.now (L.rows look.now) (L.outputs look.now) outs.now) (Provider.Register p.now)) }
{
    let payout = script_kind(p.payout.as_slice());
    check(&form_rules(facts.port, p, &payout))?;
    let script = script_of(look, outs, p)?;
    let replaced = replaced_by(look, &point_of(&facts.id, p));
    check(&key_rules(facts.height, look, &replaced, p, &script))?;
    if !is_own(p) {
        check(&signed_rules(&facts.verdict, COLLATERAL_KEY, &script.hash))?;
    }
    Ok(Effect::Register {
        row: stored(facts.height, registered(facts, p, &payout, &script)),
        replaced,
    })
}

#[tactic(auto, using(dmn_rows::proofs::Table::first_broken_append))]
fn judge_service<L: Look>(
    facts: &Facts,
    look: &L,
    outs: &[TxOut],
    up: &UpServ,
) -> Result<Effect, Rule>
    requires { HasDistinctKeys (L.rows look.now) }
    ensures rule { result_err result
        ≡ table.first_of (spec.kind_rules (case_at facts.now (L.rows look.now) (L.outputs look.now) outs.now) (Provider.Service up.now)) }
    ensures told { IfOk result (IsTold (case_at facts.now (L.rows look.now) (L.outputs look.now) outs.now) (Provider.Service up.now)) }
{
    let row = row_at(look, facts.height, &up.pro_tx).ok_or(Rule::NoRow)?;
    let payout = script_kind(up.payout.as_slice());
    check(&service_rules(facts.port, facts.height, look, up, &payout, &row))?;
    check(&signed_rules(&facts.verdict, OPERATOR_KEY, &row.operator))?;
    Ok(Effect::Update {
        row: stored(facts.height, served(facts.height, up, &payout, &row)),
    })
}

#[tactic(auto, using(dmn_rows::proofs::Table::first_broken_append))]
fn judge_registrar<L: Look>(
    facts: &Facts,
    look: &L,
    outs: &[TxOut],
    up: &UpReg,
) -> Result<Effect, Rule>
    requires { HasDistinctKeys (L.rows look.now) }
    ensures rule { result_err result
        ≡ table.first_of (spec.kind_rules (case_at facts.now (L.rows look.now) (L.outputs look.now) outs.now) (Provider.Registrar up.now)) }
    ensures told { IfOk result (IsTold (case_at facts.now (L.rows look.now) (L.outputs look.now) outs.now) (Provider.Registrar up.now)) }
{
    let row = row_at(look, facts.height, &up.pro_tx).ok_or(Rule::NoRow)?;
    let payout = script_kind(up.payout.as_slice());
    check(&registrar_rules(facts.height, look, up, &payout, &row))?;
    check(&signed_rules(&facts.verdict, OWNER_KEY, &row.owner))?;
    Ok(Effect::Update {
        row: stored(facts.height, rekeyed(facts.height, up, &payout, &row)),
    })
}

#[tactic(auto, using(dmn_rows::proofs::Table::first_broken_append))]
fn judge_revoke<L: Look>(
    facts: &Facts,
    look: &L,
    outs: &[TxOut],
    p: &Revoke,
) -> Result<Effect, Rule>
    requires { HasDistinctKeys (L.rows look.now) }
    ensures rule { result_err result
        ≡ table.first_of (spec.kind_rules (case_at facts.now (L.rows look.now) (L.outputs look.now) outs.now) (Provider.Revoke p.now)) }
    ensures told { IfOk result (IsTold (case_at facts.now (L.rows look.now) (L.outputs look.now) outs.now) (Provider.Revoke p.now)) }
{
    let row = row_at(look, facts.height, &p.pro_tx).ok_or(Rule::NoRow)?;
    check(&revoke_rules(p, &row))?;
    check(&signed_rules(&facts.verdict, OPERATOR_KEY, &row.operator))?;
    Ok(Effect::Update {
        row: stored(facts.height, revoked(facts.height, p, &row)),
    })
}
