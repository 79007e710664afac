//! The transaction that registers a masternode.

ghost use Rattle.std.specs.Prelude.{◌≡◌, ◌∷◌, [], IfOk};
ghost use Rattle.dmn_payloads.specs.Payloads.{pro_reg};
ghost use Rattle.dmn_generator.specs.Masternodes.{fund, masternode, registration, script_to, sequence, service};

use crate::tags::{first_20, first_48, tag};
use dmn_bytes::{Bytes, Hash256, Items, Memory, OutPoint, Service, digest};
use dmn_payloads::{ProReg, write_pro_reg};
use dmn_tx::{REGISTER_TX, SPECIAL_VERSION, Tx, TxIn, TxOut};
use std::alloc::Global;

/// The sequence number of each input.
const SEQUENCE: u32 = 0xffff_ffff;

/// 1,000 DASH, in duffs.
const COLLATERAL: u64 = 100_000_000_000;

/// The port of each masternode.
const PORT: u16 = 9_999;

fn fund(alloc: Global, i: u32) -> Result<OutPoint, Memory>
    ensures { IfOk result (λ point. point ≡ fund i) }
{
    Ok(OutPoint {
        hash: tag(alloc, b"fund ", i)?,
        index: 0,
    })
}

// The script that pays to a tag's first 20 bytes as to a public key's hash.
fn script_to(alloc: Global, name: &[u8], i: u32) -> Result<Bytes, Memory>
    ensures { IfOk result (λ script. script ≡ script_to name.now i) }
{
    let hash = tag(alloc, name, i)?;
    let mut script = Bytes::new(alloc);
    script.extend(&[0x76, 0xa9, 0x14])?;
    script.extend(&first_20(&hash))?;
    script.extend(&[0x88, 0xac])?;
    Ok(script)
}

fn service(i: u32) -> Service
    ensures { result ≡ service i }
{
    let a = (i / 65_536 % 256) as u8;
    let b = (i / 256 % 256) as u8;
    let c = (i % 256) as u8;
    Service {
        address: [0, 0, 0, 0, 0, 0, 0, 0, 0, 0, 0xff, 0xff, 10, a, b, c],
        port: PORT,
    }
}

fn operator(alloc: Global, i: u32) -> Result<[u8; 48], Memory>
    ensures { IfOk result (λ key. key ≡ (registration i).operator) }
{
    let one = tag(alloc, b"opa ", i)?;
    let other = tag(alloc, b"opb ", i)?;
    first_48(alloc, &one, &other)
}

// The payload.
fn registration(alloc: Global, i: u32) -> Result<ProReg, Memory>
    ensures { IfOk result (λ value. value ≡ registration i) }
{
    Ok(ProReg {
        version: 1,
        kind: 0,
        mode: 0,
        collateral: OutPoint {
            hash: Hash256([0; 32]),
            index: 0,
        },
        service: service(i),
        owner: first_20(&tag(alloc, b"owner ", i)?),
        operator: operator(alloc, i)?,
        voting: first_20(&tag(alloc, b"vote ", i)?),
        reward: 0,
        payout: script_to(alloc, b"pay ", i)?,
        inputs: digest(&fund(alloc, i)?),
        signature: Bytes::new(alloc),
    })
}

fn payload(alloc: Global, i: u32) -> Result<Bytes, Memory>
    ensures { IfOk result (λ text. text ≡ pro_reg.text (registration i)) }
{
    let value = registration(alloc, i)?;
    let mut text = Bytes::new(alloc);
    write_pro_reg(&value, &mut text)?;
    Ok(text)
}

/// An input alone.
pub(crate) fn one_input(
    alloc: Global,
    point: OutPoint,
    script: Bytes,
) -> Result<Items<TxIn>, Memory>
    ensures { IfOk result (λ inputs. inputs ≡ record { point = point; script = script; sequence = sequence } ∷ []) }
{
    let mut inputs = Vec::new(alloc);
    inputs
        .push(TxIn {
            point,
            script,
            sequence: SEQUENCE,
        })
        .map_err(|_| Memory)?;
    Ok(Items::from_vec(inputs))
}

/// An output alone.
pub(crate) fn one_output(alloc: Global, value: u64, script: Bytes) -> Result<Items<TxOut>, Memory>
    ensures { IfOk result (λ outputs. outputs ≡ record { value = value; script = script } ∷ []) }
{
    let mut outputs = Vec::new(alloc);
    outputs.push(TxOut { value, script }).map_err(|_| Memory)?;
    Ok(Items::from_vec(outputs))
}

/// The transaction that registers the masternode of a number.
#[tactic(auto, unfolding(crate::specs::Masternodes::masternode))]
pub fn masternode(alloc: Global, i: u32) -> Result<Tx, Memory>
    ensures { IfOk result (λ tx. tx ≡ masternode i) }
{
    let inputs = one_input(alloc, fund(alloc, i)?, Bytes::new(alloc))?;
    let outputs = one_output(alloc, COLLATERAL, script_to(alloc, b"coll ", i)?)?;
    Ok(Tx {
        version: SPECIAL_VERSION,
        kind: REGISTER_TX,
        inputs,
        outputs,
        lock: 0,
        payload: payload(alloc, i)?,
    })
}
