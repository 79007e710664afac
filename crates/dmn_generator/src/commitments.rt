//! The commitments of a block.

ghost use Rattle.std.specs.Prelude.{◌≡◌, ◌++◌, IfOk, OnOk, replicate};
ghost use Rattle.dmn_bytes.specs.Sending.{Appends};
ghost use Rattle.dmn_payloads.specs.Commitments.{mined};
ghost use Rattle.dmn_generator.specs.Commitments.{all_of, commitment_of, commitment_tx, full_commitment, is_formed, none_of, null_commitment, quorum_tag, verdict_on};

use crate::tags::{first_48, tag_of_two, thrice};
use dmn_bytes::{Bytes, Draft, Hash256, Items, Memory, Sink, Text};
use dmn_payloads::{Bits, Commitment};
use dmn_quorums::Forming;
use dmn_rows::{MEMBERS_KEYS, Verdict};
use dmn_tx::{COMMITMENT_TX, SPECIAL_VERSION, Tx};
use std::alloc::Global;

/// Whether a quorum is formed in the block of a height: its third one, where it has all of its members.
pub(crate) fn is_formed(height: u32, forming: &Forming) -> bool
    ensures { result ≡ is_formed height forming.now }
{
    let params = forming.params();
    params.interval > 0
        && u64::from(height % params.interval) == u64::from(params.from) + 2
        && forming.members().len() == usize::from(params.size)
}

// So many times the same byte.
fn put_bytes(alloc: Global, byte: u8, count: usize, text: &mut Bytes) -> Result<(), Memory>
    ensures { OnOk result (text.new ≡ text.old ++ replicate count byte) }
{
    let bytes = vec![in alloc; byte; count]?;
    text.extend(&bytes)
}

fn none_of(alloc: Global, size: u16) -> Result<Bits, Memory>
    ensures { IfOk result (λ bits. bits ≡ none_of size) }
{
    let mut bytes = Bytes::new(alloc);
    put_bytes(alloc, 0, (usize::from(size) + 7) / 8, &mut bytes)?;
    Ok(Bits {
        count: u64::from(size),
        bytes,
    })
}

fn all_of(alloc: Global, first: u8, size: u16) -> Result<Bits, Memory>
    ensures { IfOk result (λ bits. bits ≡ all_of first size) }
{
    let mut bytes = Bytes::new(alloc);
    bytes.extend(&[first])?;
    put_bytes(
        alloc,
        0xff,
        (usize::from(size) / 8).saturating_sub(1),
        &mut bytes,
    )?;
    let over = size % 8;
    if over != 0 {
        bytes.extend(&[(1u8 << over) - 1])?;
    }
    Ok(Bits {
        count: u64::from(size),
        bytes,
    })
}

fn null_commitment(alloc: Global, forming: &Forming) -> Result<Commitment, Memory>
    ensures { IfOk result (λ value. value ≡ null_commitment forming.now) }
{
    let params = forming.params();
    Ok(Commitment {
        version: 1,
        kind: params.kind,
        quorum: *forming.base(),
        signers: none_of(alloc, params.size)?,
        valid: none_of(alloc, params.size)?,
        key: [0; 48],
        vvec: Hash256([0; 32]),
        quorum_sig: [0; 96],
        members_sig: [0; 96],
    })
}

fn quorum_tag(alloc: Global, name: &[u8], height: u32, forming: &Forming) -> Result<Hash256, Memory>
    ensures { IfOk result (λ hash. hash ≡ quorum_tag name.now height forming.now) }
{
    tag_of_two(alloc, name, u32::from(forming.params().kind), height)
}

fn full_commitment(alloc: Global, height: u32, forming: &Forming) -> Result<Commitment, Memory>
    ensures { IfOk result (λ value. value ≡ full_commitment height forming.now) }
{
    let params = forming.params();
    let one = quorum_tag(alloc, b"qa ", height, forming)?;
    let other = quorum_tag(alloc, b"qb ", height, forming)?;
    let signature = thrice(alloc, &quorum_tag(alloc, b"qs ", height, forming)?)?;
    Ok(Commitment {
        version: 1,
        kind: params.kind,
        quorum: *forming.base(),
        signers: all_of(alloc, 0xff, params.size)?,
        valid: all_of(alloc, 0xfe, params.size)?,
        key: first_48(alloc, &one, &other)?,
        vvec: quorum_tag(alloc, b"qv ", height, forming)?,
        quorum_sig: signature,
        members_sig: signature,
    })
}

#[tactic(auto, unfolding(crate::specs::Commitments::commitment_of))]
fn commitment_of(alloc: Global, height: u32, forming: &Forming) -> Result<Commitment, Memory>
    ensures { IfOk result (λ value. value ≡ commitment_of height forming.now) }
{
    if is_formed(height, forming) {
        full_commitment(alloc, height, forming)
    } else {
        null_commitment(alloc, forming)
    }
}

// Sends the payload of a commitment.
#[tactic(auto, using(dmn_bytes::proofs::Send::sent_then), unfolding(dmn_payloads::specs::Commitments::mined, dmn_payloads::specs::Payloads::version_one))]
fn feed_mined<S: Sink>(height: u32, commitment: &Commitment, sink: &mut S)
    ensures { Appends S.holds S.kept sink.old sink.new (mined.text (height, commitment.now)) }
{
    1u16.feed(sink);
    height.feed(sink);
    commitment.feed(sink);
}

// The payload of a commitment.
fn payload(alloc: Global, height: u32, commitment: &Commitment) -> Result<Bytes, Memory>
    ensures { IfOk result (λ text. text ≡ mined.text (height, commitment.now)) }
{
    let mut text = Bytes::new(alloc);
    let mut draft = Draft::on(&mut text);
    feed_mined(height, commitment, &mut draft);
    draft.finish(&mut text)?;
    Ok(text)
}

/// The transaction with the commitment of a type at a height, by what is known of its quorum.
#[tactic(auto, unfolding(crate::specs::Commitments::commitment_tx))]
pub fn commitment_tx(alloc: Global, height: u32, forming: &Forming) -> Result<Tx, Memory>
    ensures { IfOk result (λ tx. tx ≡ commitment_tx height forming.now) }
{
    let commitment = commitment_of(alloc, height, forming)?;
    Ok(Tx {
        version: SPECIAL_VERSION,
        kind: COMMITMENT_TX,
        inputs: Items::from_vec(Vec::new(alloc)),
        outputs: Items::from_vec(Vec::new(alloc)),
        lock: 0,
        payload: payload(alloc, height, &commitment)?,
    })
}

/// The verdict that the members' signature is right, on the transaction at a place.
pub(crate) fn verdict_on(place: u32, forming: &Forming) -> Verdict
    ensures { result ≡ verdict_on place forming.now }
{
    Verdict {
        tx: place,
        kind: MEMBERS_KEYS,
        key: *forming.digest(),
        valid: 1,
    }
}
