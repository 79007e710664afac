//! The tables of rules, in the order of their numbers.

ghost use Rattle.std.specs.Prelude.{◌≡◌, IfOk};
ghost use Rattle.std.specs.Option.{option_copied, option_map};
ghost use Rattle.std.specs.Result.{result_err};
ghost use Rattle.dmn_payloads.specs.Scripts.{pay_of};
ghost use Rattle.dmn_rows.specs.Distinct.{HasDistinctKeys};
ghost use Rattle.dmn_rows.specs.Rows.{plain_rows};
ghost use Rattle.dmn_rows.specs.Signed.{verdict_rules};
ghost use Rattle.dmn_rules.specs.Provider as spec;
ghost use Rattle.dmn_rules.specs.Table as table;

use crate::checks::{is_mapped, is_own, pays, sig_presence};
use crate::lookups::{dup_address, dup_operator, dup_owner, up_dup_address, up_dup_operator};
use dmn_bytes::{Hash256, Pay, dsha, is_zero};
use dmn_payloads::{ProReg, Revoke, UpReg, UpServ, script_kind};
use dmn_rows::{
    COLLATERAL_VALUE, Look, MnRow, Rule, Verdict, WHOLE_REWARD, check, no_service, verdict_rules,
    when,
};
use dmn_tx::TxOut;

/// What a registration says of itself, and what its payout pays to.
#[tactic(auto, unfolding(crate::specs::Provider::form_rules))]
pub fn form_rules(port: u16, p: &ProReg, payout: &Pay) -> [Option<Rule>; 8]
    ensures { result ≡ table.unnumbered (spec.form_rules port p.now payout.now) }
{
    [
        when(p.kind != 0, Rule::RegType),
        when(p.mode != 0, Rule::RegMode),
        when(
            is_zero(&p.owner) || is_zero(&p.operator) || is_zero(&p.voting),
            Rule::NullKey,
        ),
        when(payout.kind == 0, Rule::PayoutForm),
        when(
            pays(payout, &p.owner) || pays(payout, &p.voting),
            Rule::PayoutKey,
        ),
        when(WHOLE_REWARD < p.reward, Rule::RewardRange),
        when(
            !(no_service(&p.service) || is_mapped(port, &p.service)),
            Rule::AddressForm,
        ),
        sig_presence(p),
    ]
}

/// What a registration's collateral pays to, by the rules on it.
#[tactic(auto, unfolding(crate::specs::Provider::collateral_rules, crate::specs::Provider::script_of))]
pub fn script_of<L: Look>(look: &L, outs: &[TxOut], p: &ProReg) -> Result<Pay, Rule>
    ensures rule { result_err result
        ≡ table.first_of (spec.collateral_rules outs.now (L.outputs look.now) p.now) }
    ensures script { IfOk result (λ script. spec.script_of outs.now (L.outputs look.now) p.now ≡ Some script) }
{
    if is_own(p) {
        own_script(outs.get(p.collateral.index as usize))
    } else {
        external_script(look.output(&p.collateral))
    }
}

fn own_script(out: Option<&TxOut>) -> Result<Pay, Rule>
    ensures rule { result_err result ≡ table.first_of (spec.own_rules (option_copied out.entry)) }
    ensures script { IfOk result (λ script. option_map (λ out. pay_of out.script) (option_copied out.entry) ≡ Some script) }
{
    match out {
        None => Err(Rule::CollateralIndex),
        Some(out) => {
            let script = script_kind(out.script.as_slice());
            check(&output_rules(out.value, &script))?;
            Ok(script)
        }
    }
}

// An output that is to be the collateral, and what it pays to.
#[tactic(auto, unfolding(crate::specs::Provider::output_rules))]
fn output_rules(value: u64, script: &Pay) -> [Option<Rule>; 2]
    ensures { result ≡ table.unnumbered (spec.output_rules value script.now) }
{
    [
        when(value != COLLATERAL_VALUE, Rule::CollateralValue),
        when(script.kind == 0, Rule::CollateralScript),
    ]
}

fn external_script(script: Option<Pay>) -> Result<Pay, Rule>
    ensures rule { result_err result ≡ table.first_of (spec.external_rules script) }
    ensures script { IfOk result (λ known. script ≡ Some known) }
{
    match script {
        None => Err(Rule::CollateralUnknown),
        Some(script) => {
            check(&[when(script.kind != 1, Rule::CollateralKeyless)])?;
            Ok(script)
        }
    }
}

/// A registration's keys, the hash of the row that it replaces, and what its collateral pays to.
#[tactic(auto, unfolding(crate::specs::Provider::key_rules))]
pub fn key_rules<L: Look>(
    height: u32,
    look: &L,
    replaced: &Option<Hash256>,
    p: &ProReg,
    script: &Pay,
) -> [Option<Rule>; 4]
    requires { HasDistinctKeys (L.rows look.now) }
    ensures { result
        ≡ table.unnumbered (spec.key_rules (plain_rows height (L.rows look.now)) replaced.now p.now script.now) }
{
    [
        when(
            pays(script, &p.owner) || pays(script, &p.voting),
            Rule::CollateralKey,
        ),
        dup_owner(look, &p.owner),
        dup_operator(look, &p.operator),
        dup_address(look, replaced, p),
    ]
}

/// A change of service, what its payout pays to, and the row that it names.
#[tactic(auto, unfolding(crate::specs::Provider::service_rules))]
pub fn service_rules<L: Look>(
    port: u16,
    height: u32,
    look: &L,
    up: &UpServ,
    payout: &Pay,
    row: &MnRow,
) -> [Option<Rule>; 5]
    requires { HasDistinctKeys (L.rows look.now) }
    ensures { result
        ≡ table.unnumbered (spec.service_rules port (plain_rows height (L.rows look.now)) up.now payout.now row.now) }
{
    [
        when(!is_mapped(port, &up.service), Rule::UpAddress),
        up_dup_address(look, up),
        when(
            up.payout.len() != 0 && payout.kind == 0,
            Rule::OperatorPayoutForm,
        ),
        when(
            up.payout.len() != 0 && row.reward == 0,
            Rule::OperatorPayoutUnasked,
        ),
        when(is_zero(&row.operator), Rule::NoOperator),
    ]
}

/// A change of keys and payout, what that pays to, and the row that it names.
#[tactic(auto, unfolding(crate::specs::Provider::registrar_rules))]
pub fn registrar_rules<L: Look>(
    height: u32,
    look: &L,
    up: &UpReg,
    payout: &Pay,
    row: &MnRow,
) -> [Option<Rule>; 6]
    requires { HasDistinctKeys (L.rows look.now) }
    ensures { result
        ≡ table.unnumbered (spec.registrar_rules (plain_rows height (L.rows look.now)) up.now payout.now row.now) }
{
    [
        when(up.mode != 0, Rule::UpMode),
        when(
            is_zero(&up.operator) || is_zero(&up.voting),
            Rule::UpNullKey,
        ),
        when(payout.kind == 0, Rule::UpPayoutForm),
        when(
            pays(payout, &row.owner) || pays(payout, &up.voting),
            Rule::UpPayoutKey,
        ),
        up_dup_operator(look, up),
        when(pays(&row.script, &up.voting), Rule::UpCollateralKey),
    ]
}

/// A revocation, and the row that it names.
#[tactic(auto, unfolding(crate::specs::Provider::revoke_rules))]
pub fn revoke_rules(p: &Revoke, row: &MnRow) -> [Option<Rule>; 2]
    ensures { result ≡ table.unnumbered (spec.revoke_rules p.now row.now) }
{
    [
        when(is_zero(&row.operator), Rule::NoOperator),
        when(3 < p.reason, Rule::RevokeReason),
    ]
}

/// A verdict that is needed: its kind, and the key that it is to be on.
pub fn signed_rules(verdict: &Option<Verdict>, kind: u8, key: &[u8]) -> [Option<Rule>; 3]
    ensures { result ≡ table.unnumbered (verdict_rules verdict.now kind (spec.digest_of key.now)) }
{
    verdict_rules(verdict, kind, &dsha(key))
}
