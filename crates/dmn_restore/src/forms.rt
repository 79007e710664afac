//! What proves a coinbase, and commitments, have texts: as their types say, and as a test tells.

ghost use Rattle.std.specs.Prelude.{◌≡◌, ◌<◌, ◌^◌, IfOk, IsTrue, OnOk, Some, length};
ghost use Rattle.std.specs.List.{All};
ghost use Rattle.dmn_bytes.specs.Format.{blob, hash};
ghost use Rattle.dmn_bytes.specs.Points.{out_point};
ghost use Rattle.dmn_held.specs.Coinbase.{coinbase_part, part_if};
ghost use Rattle.dmn_held.specs.Lists.{commitments_field, mined_at, mined_field};
ghost use Rattle.dmn_merkle.specs.BranchText.{branching};
ghost use Rattle.dmn_payloads.specs.Commitments.{HasItsBytes, KeepsSets, bit_bytes, bits, commitment, is_padded};
ghost use Rattle.dmn_tx.specs.Defs.{tx_text};
ghost use Rattle.dmn_tx.specs.Tx.{KeepsPayload, tx, tx_in, tx_out};

use crate::fields::{hash_fits, hashes_fit, point_fits};
use dmn_bytes::{Bytes, Memory};
use dmn_held::CoinbasePart;
use dmn_merkle::Branching;
use dmn_payloads::{Bits, Commitment, MinedAt};
use dmn_tx::{LONGEST_PAYLOAD, SPECIAL_VERSION, Tx, TxIn, TxOut, write_tx};
use std::alloc::Global;

#[tactic(auto, using(crate::proofs::Fitting::blob_by))]
fn blob_fits(bytes: &Bytes)
    ensures { blob.Fits bytes.now }
{
    let _many = bytes.len();
}

// ---- transactions

#[tactic(auto, unfolding(dmn_tx::specs::Tx::tx_in))]
fn input_fits(input: &TxIn)
    ensures { tx_in.Fits input.now }
{
    point_fits(input.point);
    blob_fits(&input.script);
    let _sequence = input.sequence;
}

#[tactic(auto, unfolding(dmn_tx::specs::Tx::tx_out))]
fn output_fits(output: &TxOut)
    ensures { tx_out.Fits output.now }
{
    let _value = output.value;
    blob_fits(&output.script);
}

fn inputs_fit(inputs: &[TxIn])
    ensures all { All tx_in.Fits inputs.now }
    ensures many { length inputs.now < 2 ^ 64 }
{
    let many = inputs.len();
    for place in 0..many {
        input_fits(&inputs[place]);
    }
}

fn outputs_fit(outputs: &[TxOut])
    ensures all { All tx_out.Fits outputs.now }
    ensures many { length outputs.now < 2 ^ 64 }
{
    let many = outputs.len();
    for place in 0..many {
        output_fits(&outputs[place]);
    }
}

fn keeps_payload(tx: &Tx) -> bool
    ensures { IsTrue result → KeepsPayload tx.now }
{
    if tx.version == SPECIAL_VERSION && tx.kind != 0 {
        tx.payload.len() as u64 <= LONGEST_PAYLOAD
    } else {
        tx.payload.is_empty()
    }
}

#[tactic(auto, using(crate::proofs::Fitting::tx_by, crate::proofs::Fitting::counted_by))]
fn tx_fits(value: &Tx)
    ensures { KeepsPayload value.now → tx.Fits value.now }
{
    let _version = value.version;
    let _kind = value.kind;
    let _lock = value.lock;
    inputs_fit(value.inputs.as_slice());
    outputs_fit(value.outputs.as_slice());
}

#[tactic(auto, using(crate::proofs::Fitting::branch_by))]
fn branch_fits(branch: &Branching)
    ensures { branching.Fits branch.now }
{
    let _total = branch.total;
    let _many = branch.hashes.len();
    hashes_fit(branch.hashes.as_slice());
    blob_fits(&branch.flags);
}

// How long the text of a transaction is.
fn size_of(alloc: Global, tx: &Tx) -> Result<usize, Memory>
    requires { KeepsPayload tx.now }
    ensures { IfOk result (λ size. size ≡ length (tx_text tx.now)) }
{
    let mut text = Bytes::new(alloc);
    write_tx(tx, &mut text)?;
    Ok(text.len())
}

/// Tests whether what proves a coinbase is in its form. It always is; where it weren't, this answers like want of memory.
#[tactic(auto, using(crate::proofs::Fitting::part_by, crate::proofs::Fitting::some_part))]
pub fn check_part(alloc: Global, part: &CoinbasePart) -> Result<(), Memory>
    ensures part { OnOk result (coinbase_part.Fits part.now) }
    ensures some { OnOk result (part_if.Fits (Some part.now)) }
{
    if !keeps_payload(&part.tx) {
        return Err(Memory);
    }
    tx_fits(&part.tx);
    branch_fits(&part.branch);
    let size = size_of(alloc, &part.tx)?;
    if size == 0 {
        return Err(Memory);
    }
    Ok(())
}

// ---- commitments

fn byte_count(count: u64) -> u64
    ensures { result ≡ bit_bytes count }
{
    if count % 8 == 0 {
        count / 8
    } else {
        count / 8 + 1
    }
}

fn has_its_bytes(set: &Bits) -> bool
    ensures { IsTrue result → HasItsBytes set.now }
{
    let bytes = set.bytes.as_slice();
    if bytes.len() as u64 != byte_count(set.count) {
        return false;
    }
    let over = set.count % 8;
    if over == 0 {
        return true;
    }
    let last = bytes[bytes.len() - 1];
    u16::from(last) < 1u16 << over
}

#[tactic(auto, using(crate::proofs::Fitting::bits_by))]
fn bits_fit(set: &Bits)
    ensures { HasItsBytes set.now → bits.Fits set.now }
{
    let _count = set.count;
}

fn version_fits(version: u16)
    ensures { version < 65536 }
{}

fn kind_fits(kind: u8)
    ensures { kind < 256 }
{}

fn key_fits(key: [u8; 48])
    ensures { length key ≡ 48 }
{}

fn signature_fits(signature: [u8; 96])
    ensures { length signature ≡ 96 }
{}

fn commitment_fits(value: &Commitment)
    ensures { KeepsSets value.now → commitment.Fits value.now }
{
    version_fits(value.version);
    kind_fits(value.kind);
    hash_fits(value.quorum);
    bits_fit(&value.signers);
    bits_fit(&value.valid);
    key_fits(value.key);
    hash_fits(value.vvec);
    signature_fits(value.quorum_sig);
    signature_fits(value.members_sig);
}

// Whether both sets of a commitment have their bytes.
fn is_formed(value: &Commitment) -> bool
    ensures { IsTrue result → commitment.Fits value.now }
{
    commitment_fits(value);
    has_its_bytes(&value.signers) && has_its_bytes(&value.valid)
}

/// Tests whether commitments are in their form, and not too many. They always are; where they weren't, this answers like want of
/// memory.
pub fn check_commitments(commitments: &[Commitment]) -> Result<(), Memory>
    ensures { OnOk result (commitments_field.Fits commitments.now) }
{
    if commitments.len() > 4_294_967_295 {
        return Err(Memory);
    }
    for place in 0..commitments.len() {
        if !is_formed(&commitments[place]) {
            return Err(Memory);
        }
    }
    Ok(())
}

#[tactic(auto, unfolding(dmn_held::specs::Lists::mined_at))]
fn is_formed_at(value: &MinedAt) -> bool
    ensures { IsTrue result → mined_at.Fits value.now }
{
    let _height = value.height;
    is_formed(&value.commitment)
}

/// The same of commitments with the heights at which they were mined.
pub fn check_mined(mined: &[MinedAt]) -> Result<(), Memory>
    ensures { OnOk result (mined_field.Fits mined.now) }
{
    if mined.len() > 4_294_967_295 {
        return Err(Memory);
    }
    for place in 0..mined.len() {
        if !is_formed_at(&mined[place]) {
            return Err(Memory);
        }
    }
    Ok(())
}
