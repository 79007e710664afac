//! The payload of a provider transaction, read by the format of its type.

ghost use Rattle.std.specs.Prelude.{◌≡◌, ◌≤◌, ◌<◌, ℕ, List, Option, Some, length, IfOk};
ghost use Rattle.dmn_payloads.specs.Commitments.{mined};
ghost use Rattle.dmn_rows.specs.declared.profile.Profile.{Profile};
ghost use Rattle.dmn_rows.specs.declared.row.MnRow.{MnRow};
ghost use Rattle.dmn_rows.specs.declared.verdict.Verdict.{Verdict};
ghost use Rattle.dmn_rows.specs.Rows.{Outputs};
ghost use Rattle.dmn_rules.specs.Defs.{Judges, judge_of, effect_of};
ghost use Rattle.dmn_rules.specs.Looking.{judge_fault, IsPlacedBelow};
ghost use Rattle.dmn_rules.specs.Payload.{payload_rules, provider_of};
ghost use Rattle.dmn_rules.specs.Table.{first_of};

use crate::fault::JudgeFault;
use crate::provider::Provider;
use dmn_payloads::{
    Commitment, PayloadFault, read_commitment_payload, read_pro_reg, read_revoke, read_up_reg,
    read_up_serv,
};
use dmn_rows::Rule;
use dmn_tx::{
    COMMITMENT_TX, LONGEST_PAYLOAD, REGISTER_TX, REGISTRAR_TX, REVOKE_TX, SERVICE_TX, Tx,
};
use std::alloc::Global;

/// The payload of a provider transaction of this type, or the rule on its form that it breaks.
pub fn read_provider(alloc: Global, kind: u16, payload: &[u8]) -> Result<Provider, JudgeFault>
    requires provider { (REGISTER_TX ≤ kind) × (kind ≤ REVOKE_TX) }
    requires short { length payload.now ≤ LONGEST_PAYLOAD }
    ensures rule { Judges (first_of (payload_rules kind payload.now)) result }
    ensures read { IfOk result (λ read. provider_of kind payload.now ≡ Some read) }
{
    match kind {
        REGISTER_TX => read_register(alloc, payload),
        SERVICE_TX => read_service(alloc, payload),
        REGISTRAR_TX => read_registrar(alloc, payload),
        _ => read_revocation(alloc, payload),
    }
}

/// The payload of a special transaction that is no provider's, or the rule on its form that it breaks: the height and
/// the commitment of one that has a commitment; any other type is unknown. It changes no row.
pub fn read_other(alloc: Global, tx: &Tx) -> Result<(u32, Commitment), JudgeFault>
    requires other { REVOKE_TX < tx.now.kind }
    requires short { length tx.now.payload ≤ LONGEST_PAYLOAD }
    // It refuses exactly with the first rule that is broken.
    ensures rule { (profile : Profile) (rows : List MnRow) (outputs : Outputs) (height : ℕ) (verdict : Option Verdict)
        → Judges (judge_of profile rows outputs height tx.now verdict) result }
    ensures read { IfOk result (λ x. (tx.now.kind ≡ COMMITMENT_TX) × mined.Fits x × (tx.now.payload ≡ mined.text x)) }
    ensures none { (rows : List MnRow) (outputs : Outputs) (height : ℕ) → effect_of rows outputs tx.now height ≡ rows }
{
    other_payload(alloc, tx.kind, tx.payload.as_slice())
}

fn other_payload(alloc: Global, kind: u16, payload: &[u8]) -> Result<(u32, Commitment), JudgeFault>
    requires other { REVOKE_TX < kind }
    requires short { length payload.now ≤ LONGEST_PAYLOAD }
    ensures rule { Judges (first_of (payload_rules kind payload.now)) result }
    ensures read { IfOk result (λ x. (kind ≡ COMMITMENT_TX) × mined.Fits x × (payload.now ≡ mined.text x)) }
{
    if kind == COMMITMENT_TX {
        read_commitment(alloc, payload)
    } else {
        Err(JudgeFault::Broken(Rule::UnknownType { found: kind }))
    }
}

fn read_commitment(alloc: Global, payload: &[u8]) -> Result<(u32, Commitment), JudgeFault>
    requires { length payload.now ≤ LONGEST_PAYLOAD }
    ensures rule { Judges (first_of (payload_rules COMMITMENT_TX payload.now)) result }
    ensures read { IfOk result (λ x. mined.Fits x × (payload.now ≡ mined.text x)) }
{
    match read_commitment_payload(alloc, payload) {
        Ok(read) => Ok(read),
        Err(fault) => Err(broken_by(fault)),
    }
}

// The rule that a fault of a payload breaks.
fn broken_by(fault: PayloadFault) -> JudgeFault
    requires { IsPlacedBelow LONGEST_PAYLOAD fault }
    ensures { result ≡ judge_fault fault }
{
    match fault {
        PayloadFault::PayloadVersion { found } => JudgeFault::Broken(Rule::PayloadVersion {
            found,
        }),
        PayloadFault::PayloadForm { at } => {
            let place = at as u32;
            JudgeFault::Broken(Rule::PayloadForm { place })
        }
        PayloadFault::Memory => JudgeFault::Memory,
    }
}

fn read_register(alloc: Global, payload: &[u8]) -> Result<Provider, JudgeFault>
    requires { length payload.now ≤ LONGEST_PAYLOAD }
    ensures rule { Judges (first_of (payload_rules REGISTER_TX payload.now)) result }
    ensures read { IfOk result (λ read. provider_of REGISTER_TX payload.now ≡ Some read) }
{
    match read_pro_reg(alloc, payload) {
        Ok(p) => Ok(Provider::Register(p)),
        Err(fault) => Err(broken_by(fault)),
    }
}

fn read_service(alloc: Global, payload: &[u8]) -> Result<Provider, JudgeFault>
    requires { length payload.now ≤ LONGEST_PAYLOAD }
    ensures rule { Judges (first_of (payload_rules SERVICE_TX payload.now)) result }
    ensures read { IfOk result (λ read. provider_of SERVICE_TX payload.now ≡ Some read) }
{
    match read_up_serv(alloc, payload) {
        Ok(up) => Ok(Provider::Service(up)),
        Err(fault) => Err(broken_by(fault)),
    }
}

fn read_registrar(alloc: Global, payload: &[u8]) -> Result<Provider, JudgeFault>
    requires { length payload.now ≤ LONGEST_PAYLOAD }
    ensures rule { Judges (first_of (payload_rules REGISTRAR_TX payload.now)) result }
    ensures read { IfOk result (λ read. provider_of REGISTRAR_TX payload.now ≡ Some read) }
{
    match read_up_reg(alloc, payload) {
        Ok(up) => Ok(Provider::Registrar(up)),
        Err(fault) => Err(broken_by(fault)),
    }
}

fn read_revocation(alloc: Global, payload: &[u8]) -> Result<Provider, JudgeFault>
    requires { length payload.now ≤ LONGEST_PAYLOAD }
    ensures rule { Judges (first_of (payload_rules REVOKE_TX payload.now)) result }
    ensures read { IfOk result (λ read. provider_of REVOKE_TX payload.now ≡ Some read) }
{
    match read_revoke(alloc, payload) {
        Ok(p) => Ok(Provider::Revoke(p)),
        Err(fault) => Err(broken_by(fault)),
    }
}
