//! Payloads, read whole and written.

ghost use Rattle.std.specs.Prelude.{◌≡◌, ◌≤◌, ◌+◌, ◌++◌, ℕ, List, length, drop, None, IfOk, IfErr, OnOk, OnErr, MatchResult};
ghost use Rattle.dmn_payloads.specs.Fault.{other_version, FormFails, Answers};
ghost use Rattle.dmn_bytes.specs.Law.{Stands};
ghost use Rattle.dmn_payloads.specs.Commitments.{commitment, mined, KeepsSets};
ghost use Rattle.dmn_payloads.specs.declared.commitment.Commitment.{Commitment};
ghost use Rattle.dmn_payloads.specs.Payloads.{pro_reg, up_serv, up_reg, revoke, cb};
ghost use Rattle.dmn_payloads.specs.declared.payloads.ProReg.{ProReg};
ghost use Rattle.dmn_payloads.specs.declared.payloads.UpServ.{UpServ};
ghost use Rattle.dmn_payloads.specs.declared.payloads.UpReg.{UpReg};
ghost use Rattle.dmn_payloads.specs.declared.payloads.Revoke.{Revoke};
ghost use Rattle.dmn_payloads.specs.declared.payloads.CbTx.{CbTx};

use crate::commitment::{Commitment, Mined};
use crate::fault::PayloadFault;
use crate::payloads::{CbTx, ProReg, Revoke, UpReg, UpServ};
use dmn_bytes::{Bytes, Memory, Text, read_at, read_whole, write};
use std::alloc::Global;

// The version, where two bytes are there and it isn't 1.
fn other_version(payload: &[u8]) -> Option<u16>
    ensures { result ≡ other_version payload.now }
{
    if payload.len() >= 2 {
        let version = u16::from_le_bytes([payload[0], payload[1]]);
        if version != 1 {
            return Some(version);
        }
    }
    None
}

// Any payload of version 1.
fn read_payload<T: Text + Drop>(alloc: Global, payload: &[u8]) -> Result<T, PayloadFault>
    requires { (v : T) → T.format.Fits v → other_version (T.format.text v) ≡ None }
    ensures found { IfOk result (λ v. T.format.Fits v × (payload.now ≡ T.format.text v)) }
    ensures only { (v : T) → T.format.Fits v → payload.now ≡ T.format.text v → MatchResult result (λ w. w ≡ v) (λ e. e ≡ PayloadFault.Memory) }
    ensures answers { Answers T.format payload.now result }
{
    if let Some(found) = other_version(payload) {
        return Err(PayloadFault::PayloadVersion { found });
    }
    match read_whole(alloc, payload) {
        Ok(value) => Ok(value),
        Err(e) => Err(PayloadFault::from(e)),
    }
}

/// The payload of a ProRegTx, type 1, which these bytes are, all of them.
#[tactic(auto, using(crate::proofs::Version::pro_reg_version))]
pub fn read_pro_reg(alloc: Global, payload: &[u8]) -> Result<ProReg, PayloadFault>
    // What is read has this text.
    ensures found { IfOk result (λ v. pro_reg.Fits v × (payload.now ≡ pro_reg.text v)) }
    // A value's text is read as it, unless memory runs out.
    ensures only { (v : ProReg) → pro_reg.Fits v → payload.now ≡ pro_reg.text v → MatchResult result (λ w. w ≡ v) (λ e. e ≡ PayloadFault.Memory) }
    // What is read may be written.
    ensures version { IfOk result (λ v. v.version ≡ 1) }
    // Else it says which version it is, or where it departs.
    ensures answers { Answers pro_reg payload.now result }
{
    read_payload(alloc, payload)
}

/// Appends the payload of a ProRegTx, type 1. A refusal changes nothing.
pub fn write_pro_reg(value: &ProReg, out: &mut Bytes) -> Result<(), Memory>
    requires { value.now.version ≡ 1 }
    ensures ok { OnOk result (out.new ≡ out.old ++ pro_reg.text value.now) }
    ensures err { OnErr result (out.new ≡ out.old) }
{
    write(value, out)
}

/// The payload of a ProUpServTx, type 2, which these bytes are, all of them.
#[tactic(auto, using(crate::proofs::Version::up_serv_version))]
pub fn read_up_serv(alloc: Global, payload: &[u8]) -> Result<UpServ, PayloadFault>
    // What is read has this text.
    ensures found { IfOk result (λ v. up_serv.Fits v × (payload.now ≡ up_serv.text v)) }
    // A value's text is read as it, unless memory runs out.
    ensures only { (v : UpServ) → up_serv.Fits v → payload.now ≡ up_serv.text v → MatchResult result (λ w. w ≡ v) (λ e. e ≡ PayloadFault.Memory) }
    // What is read may be written.
    ensures version { IfOk result (λ v. v.version ≡ 1) }
    // Else it says which version it is, or where it departs.
    ensures answers { Answers up_serv payload.now result }
{
    read_payload(alloc, payload)
}

/// Appends the payload of a ProUpServTx, type 2. A refusal changes nothing.
pub fn write_up_serv(value: &UpServ, out: &mut Bytes) -> Result<(), Memory>
    requires { value.now.version ≡ 1 }
    ensures ok { OnOk result (out.new ≡ out.old ++ up_serv.text value.now) }
    ensures err { OnErr result (out.new ≡ out.old) }
{
    write(value, out)
}

/// The payload of a ProUpRegTx, type 3, which these bytes are, all of them.
#[tactic(auto, using(crate::proofs::Version::up_reg_version))]
pub fn read_up_reg(alloc: Global, payload: &[u8]) -> Result<UpReg, PayloadFault>
    // What is read has this text.
    ensures found { IfOk result (λ v. up_reg.Fits v × (payload.now ≡ up_reg.text v)) }
    // A value's text is read as it, unless memory runs out.
    ensures only { (v : UpReg) → up_reg.Fits v → payload.now ≡ up_reg.text v → MatchResult result (λ w. w ≡ v) (λ e. e ≡ PayloadFault.Memory) }
    // What is read may be written.
    ensures version { IfOk result (λ v. v.version ≡ 1) }
    // Else it says which version it is, or where it departs.
    ensures answers { Answers up_reg payload.now result }
{
    read_payload(alloc, payload)
}

/// Appends the payload of a ProUpRegTx, type 3. A refusal changes nothing.
pub fn write_up_reg(value: &UpReg, out: &mut Bytes) -> Result<(), Memory>
    requires { value.now.version ≡ 1 }
    ensures ok { OnOk result (out.new ≡ out.old ++ up_reg.text value.now) }
    ensures err { OnErr result (out.new ≡ out.old) }
{
    write(value, out)
}

/// The payload of a ProUpRevTx, type 4, which these bytes are, all of them.
#[tactic(auto, using(crate::proofs::Version::revoke_version))]
pub fn read_revoke(alloc: Global, payload: &[u8]) -> Result<Revoke, PayloadFault>
    // What is read has this text.
    ensures found { IfOk result (λ v. revoke.Fits v × (payload.now ≡ revoke.text v)) }
    // A value's text is read as it, unless memory runs out.
    ensures only { (v : Revoke) → revoke.Fits v → payload.now ≡ revoke.text v → MatchResult result (λ w. w ≡ v) (λ e. e ≡ PayloadFault.Memory) }
    // What is read may be written.
    ensures version { IfOk result (λ v. v.version ≡ 1) }
    // Else it says which version it is, or where it departs.
    ensures answers { Answers revoke payload.now result }
{
    read_payload(alloc, payload)
}

/// Appends the payload of a ProUpRevTx, type 4. A refusal changes nothing.
pub fn write_revoke(value: &Revoke, out: &mut Bytes) -> Result<(), Memory>
    requires { value.now.version ≡ 1 }
    ensures ok { OnOk result (out.new ≡ out.old ++ revoke.text value.now) }
    ensures err { OnErr result (out.new ≡ out.old) }
{
    write(value, out)
}

/// The payload of a CbTx, type 5, which these bytes are, all of them.
#[tactic(auto, using(crate::proofs::Version::cb_version))]
pub fn read_cb(alloc: Global, payload: &[u8]) -> Result<CbTx, PayloadFault>
    // What is read has this text.
    ensures found { IfOk result (λ v. cb.Fits v × (payload.now ≡ cb.text v)) }
    // A value's text is read as it, unless memory runs out.
    ensures only { (v : CbTx) → cb.Fits v → payload.now ≡ cb.text v → MatchResult result (λ w. w ≡ v) (λ e. e ≡ PayloadFault.Memory) }
    // What is read may be written.
    ensures version { IfOk result (λ v. v.version ≡ 1) }
    // Else it says which version it is, or where it departs.
    ensures answers { Answers cb payload.now result }
{
    read_payload(alloc, payload)
}

/// Appends the payload of a CbTx, type 5. A refusal changes nothing.
pub fn write_cb(value: &CbTx, out: &mut Bytes) -> Result<(), Memory>
    requires { value.now.version ≡ 1 }
    ensures ok { OnOk result (out.new ≡ out.old ++ cb.text value.now) }
    ensures err { OnErr result (out.new ≡ out.old) }
{
    write(value, out)
}

/// The payload of a commitment, type 6, which these bytes are, all of them: the height of the block that has it, and
/// the commitment.
#[tactic(auto, using(crate::proofs::Sets::mined_keeps, crate::proofs::Sets::of_struct, crate::proofs::Sets::fails_of_struct), unfolding(crate::specs::Mined::mined_struct))]
pub fn read_commitment_payload(
    alloc: Global,
    payload: &[u8],
) -> Result<(u32, Commitment), PayloadFault>
    // What is read has this text.
    ensures found { IfOk result (λ x. mined.Fits x × (payload.now ≡ mined.text x)) }
    // A value's text is read as it, unless memory runs out.
    ensures only { (v : ℕ × Commitment) → mined.Fits v → payload.now ≡ mined.text v → MatchResult result (λ x. x ≡ v) (λ e. e ≡ PayloadFault.Memory) }
    // What is read may be written.
    ensures kept { IfOk result (λ x. KeepsSets x.1) }
    // Else it says which version it is, or where it departs.
    ensures answers { Answers mined payload.now result }
{
    match read_payload(alloc, payload) {
        Ok(Mined { height, commitment }) => Ok((height, commitment)),
        Err(e) => Err(e),
    }
}

/// The commitment whose text begins at this place, and the place behind it. A fault's place counts from the text's
/// first byte.
#[tactic(auto, using(crate::proofs::Sets::keeps, crate::proofs::Sets::fails_so))]
pub fn read_commitment(
    alloc: Global,
    text: &[u8],
    at: usize,
) -> Result<(Commitment, usize), PayloadFault>
    requires { at ≤ length text.now }
    // What is read stands there.
    ensures found { IfOk result (λ x. Stands commitment text.now at x.0 x.1) }
    // What stands there is read, unless memory runs out.
    ensures only { (v : Commitment) (rest : List ℕ) → commitment.Fits v → drop at text.now ≡ commitment.text v ++ rest → MatchResult result (λ x. (x.0 ≡ v) × (x.1 ≡ at + length (commitment.text v))) (λ e. e ≡ PayloadFault.Memory) }
    // What is read may be written.
    ensures kept { IfOk result (λ x. KeepsSets x.0) }
    ensures within { IfOk result (λ x. x.1 ≤ length text.now) }
    // Else it says where the text departs.
    ensures departs { IfErr result (λ e. FormFails e (commitment.parse text.now at)) }
{
    match read_at(alloc, text, at) {
        Ok(x) => Ok(x),
        Err(e) => Err(PayloadFault::from(e)),
    }
}

/// Appends the commitment alone, without its payload's version and height. A refusal changes nothing.
pub fn write_commitment(value: &Commitment, out: &mut Bytes) -> Result<(), Memory>
    requires { KeepsSets value.now }
    ensures ok { OnOk result (out.new ≡ out.old ++ commitment.text value.now) }
    ensures err { OnErr result (out.new ≡ out.old) }
{
    write(value, out)
}
