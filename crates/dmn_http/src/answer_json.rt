//! The JSON of answers.

ghost use Rattle.std.specs.Prelude.{◌≡◌, codes, IfOk, true, map, string_bytes, Some, None};
ghost use Rattle.std.specs.List.{list_all};
ghost use Rattle.hex.specs.Hex.{encode_lower};
ghost use Rattle.serde_json.specs.Data.{number, unsigned, null, string, array, object, member, no_members};
ghost use Rattle.serde_json.specs.View.{view, items_of};
ghost use Rattle.dmn_http.specs.Answered.{not_held_body, not_tip_body, payees_body, refused_body, tip_body, too_deep_body};
ghost use Rattle.dmn_http.specs.Steps.{AllPlain, hash_data, is_plain};

use crate::reply::json_text;
use dmn_bytes::{Bytes, Hash256, Memory};
use hex::encode;
use serde_json::{Value, json};
use std::alloc::{AllocError, Global};

fn not_held_value(alloc: Global, low: u32, high: u32) -> Result<Value, AllocError>
    ensures { IfOk result (λ v. view v ≡ object (member (codes "error") (string (codes "NotHeld")) (member (codes "high") (number (unsigned high)) (member (codes "low") (number (unsigned low)) no_members)))) }
{
    json!(in alloc; {"error": "NotHeld", "high": high, "low": low})
}

/// JSON of the heights that are held.
pub fn not_held_json(alloc: Global, low: u32, high: u32) -> Result<Bytes, Memory>
    ensures { IfOk result (λ body. body ≡ not_held_body low high) }
{
    let value = not_held_value(alloc, low, high)?;
    json_text(alloc, &value)
}

fn too_deep_value(alloc: Global, floor: u32) -> Result<Value, AllocError>
    ensures { IfOk result (λ v. view v ≡ object (member (codes "error") (string (codes "TooDeep")) (member (codes "floor") (number (unsigned floor)) no_members))) }
{
    json!(in alloc; {"error": "TooDeep", "floor": floor})
}

/// JSON of the height at or below which no block is taken back.
pub fn too_deep_json(alloc: Global, floor: u32) -> Result<Bytes, Memory>
    ensures { IfOk result (λ body. body ≡ too_deep_body floor) }
{
    let value = too_deep_value(alloc, floor)?;
    json_text(alloc, &value)
}

fn refused_value(alloc: Global, rule: u8, tx: u32) -> Result<Value, AllocError>
    ensures { IfOk result (λ v. view v ≡ object (member (codes "error") (string (codes "Refused")) (member (codes "rule") (number (unsigned rule)) (member (codes "tx") (number (unsigned tx)) no_members)))) }
{
    json!(in alloc; {"error": "Refused", "rule": rule, "tx": tx})
}

fn refused_json(alloc: Global, rule: u8, tx: u32) -> Result<Bytes, Memory>
    ensures { IfOk result (λ body. body ≡ refused_body rule (Some tx)) }
{
    let value = refused_value(alloc, rule, tx)?;
    json_text(alloc, &value)
}

fn whole_value(alloc: Global, rule: u8) -> Result<Value, AllocError>
    ensures { IfOk result (λ v. view v ≡ object (member (codes "error") (string (codes "Refused")) (member (codes "rule") (number (unsigned rule)) (member (codes "tx") null no_members)))) }
{
    json!(in alloc; {"error": "Refused", "rule": rule, "tx": null})
}

fn whole_json(alloc: Global, rule: u8) -> Result<Bytes, Memory>
    ensures { IfOk result (λ body. body ≡ refused_body rule None) }
{
    let value = whole_value(alloc, rule)?;
    json_text(alloc, &value)
}

fn not_tip_value(alloc: Global, tip: &str) -> Result<Value, AllocError>
    ensures { IfOk result (λ v. view v ≡ object (member (codes "error") (string (codes "NotTip")) (member (codes "tip") (string tip.now) no_members))) }
{
    json!(in alloc; {"error": "NotTip", "tip": tip})
}

/// JSON of the last block's hash, where another was named.
pub fn not_tip_json(alloc: Global, tip: &[u8]) -> Result<Bytes, Memory>
    ensures { IfOk result (λ body. body ≡ not_tip_body tip.now) }
{
    let text = encode(alloc, tip)?;
    let value = not_tip_value(alloc, text.as_str())?;
    json_text(alloc, &value)
}

fn tip_value(
    alloc: Global,
    hash: &str,
    height: u32,
    low: u32,
    top: u32,
) -> Result<Value, AllocError>
    ensures { IfOk result (λ v. view v ≡ object (member (codes "hash") (string hash.now) (member (codes "height") (number (unsigned height)) (member (codes "low") (number (unsigned low)) (member (codes "top") (number (unsigned top)) no_members))))) }
{
    json!(in alloc; {"hash": hash, "height": height, "low": low, "top": top})
}

/// JSON of the tip, and of the heights that are held.
pub fn tip_json(
    alloc: Global,
    hash: &[u8],
    height: u32,
    low: u32,
    top: u32,
) -> Result<Bytes, Memory>
    ensures { IfOk result (λ body. body ≡ tip_body hash.now height low top) }
{
    let text = encode(alloc, hash)?;
    let value = tip_value(alloc, text.as_str(), height, low, top)?;
    json_text(alloc, &value)
}

// The digits of a hash.
fn hash_text(alloc: Global, bytes: &[u8]) -> Result<String, AllocError>
    ensures text { IfOk result (λ text. string_bytes text ≡ encode_lower bytes.now) }
    ensures plain { list_all is_plain (encode_lower bytes.now) ≡ true }
{
    encode(alloc, bytes)
}

// Each hash as JSON.
fn payee_values(alloc: Global, hashes: &[Hash256]) -> Result<Vec<Value>, AllocError>
    ensures values { IfOk result (λ v. map view v.items ≡ map hash_data hashes.now) }
    ensures plain { IfOk result (λ v. AllPlain hashes.now) }
{
    let mut values = Vec::new(alloc);
    'payees: for hash in hashes {
        let text = hash_text(alloc, &hash.0)?;
        values.push(Value::String(text))?;
    }
    Ok(values)
}

fn payees_value(alloc: Global, values: Vec<Value>) -> Result<Value, AllocError>
    ensures { IfOk result (λ v. view v ≡ object (member (codes "payees") (array (items_of (map view values.items))) no_members)) }
{
    let list = Value::Array(values);
    json!(in alloc; {"payees": list})
}

/// JSON of the next masternodes to be paid.
pub fn payees_json(alloc: Global, hashes: &[Hash256]) -> Result<Bytes, Memory>
    ensures { IfOk result (λ body. body ≡ payees_body hashes.now) }
{
    let values = payee_values(alloc, hashes)?;
    let value = payees_value(alloc, values)?;
    json_text(alloc, &value)
}

/// JSON of the rule by which a block is refused, and of the transaction that breaks it.
pub fn refusal_json(alloc: Global, rule: u8, tx: Option<u32>) -> Result<Bytes, Memory>
    ensures { IfOk result (λ body. body ≡ refused_body rule tx) }
{
    match tx {
        Some(tx) => refused_json(alloc, rule, tx),
        None => whole_json(alloc, rule),
    }
}
