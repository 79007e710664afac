//! What a script pays to.

ghost use Rattle.std.specs.Prelude.{◌≡◌, ◌≢◌, ℕ, List, ◌++◌, length, MatchOption};
ghost use Rattle.dmn_payloads.specs.Scripts.{pay_of};

use dmn_bytes::Pay;

/// What a script pays to: a public key's hash (P2PKH, kind 1) by `76 a9 14`, 20 bytes and `88 ac`; a script's hash
/// (P2SH, kind 2) by `a9 14`, 20 bytes and `87`; any other is of kind 0. This takes no memory.
pub fn script_kind(script: &[u8]) -> Pay
    ensures { result ≡ pay_of script.now }
{
    if let Some(hash) = hash_between(script, &[0x76, 0xa9, 0x14], &[0x88, 0xac]) {
        return Pay { kind: 1, hash };
    }
    if let Some(hash) = hash_between(script, &[0xa9, 0x14], &[0x87]) {
        return Pay { kind: 2, hash };
    }
    Pay {
        kind: 0,
        hash: [0; 20],
    }
}

// The 20 bytes between a script's front and its back.
fn hash_between(script: &[u8], front: &[u8], back: &[u8]) -> Option<[u8; 20]>
    ensures { MatchOption result ((hash : List ℕ) → length hash ≡ 20 → script.now ≢ front.now ++ hash ++ back.now) (λ hash. (length hash ≡ 20) × (script.now ≡ front.now ++ hash ++ back.now)) }
{
    let rest = script.strip_prefix(front)?;
    let hash = rest.strip_suffix(back)?;
    match <[u8; 20]>::try_from(hash) {
        Ok(hash) => Some(hash),
        Err(_) => None,
    }
}
