//! The values in a path.

ghost use Rattle.std.specs.Prelude.{◌≡◌, ◌≢◌, ◌≤◌, length, IfSome, MatchBool};
ghost use Rattle.hex.specs.Hex.{encode_lower, IsBytes};
ghost use Rattle.dmn_head.specs.Values.{NumberIs, HashIs, CutAtSlash};

use dmn_bytes::Hash256;
use hex::{decode_to_slice, encode_to_slice};
use itoa::Buffer;
use std::str::from_utf8;

/// The number that a decimal text without leading zeros writes, up to a limit.
pub fn number(text: &[u8], most: u64) -> Option<u64>
    ensures value { NumberIs most text.now result }
    ensures fits { IfSome result (λ n. n ≤ most) }
{
    let Ok(digits) = from_utf8(text) else {
        return None;
    };
    let Ok(n) = digits.parse::<u64>() else {
        return None;
    };
    if n > most {
        return None;
    }
    let mut buffer = Buffer::new();
    let written = buffer.format(n).as_bytes();
    if written == text { Some(n) } else { None }
}

// Whether a text is the digits of these bytes.
fn is_written(text: &[u8], bytes: &[u8]) -> bool
    requires { length bytes.now ≡ 32 }
    ensures written { MatchBool result (text.now ≡ encode_lower bytes.now) (text.now ≢ encode_lower bytes.now) }
    ensures each { IsBytes bytes.now }
{
    let mut digits = [0; 64];
    match encode_to_slice(bytes, &mut digits) {
        Ok(()) => &digits[..] == text,
        Err(_) => unreachable!(),
    }
}

/// The hash that 64 lower-case hex digits write.
pub fn hash(text: &[u8]) -> Option<Hash256>
    ensures { HashIs text.now result }
{
    let mut bytes = [0; 32];
    let Ok(()) = decode_to_slice(text, &mut bytes) else {
        return None;
    };
    if is_written(text, &bytes) {
        Some(Hash256(bytes))
    } else {
        None
    }
}

/// What stands before the first slash, and what stands behind it.
pub fn cut_at_slash(text: &[u8]) -> (&[u8], &[u8])
    ensures { CutAtSlash text.now result.0.now result.1.now }
{
    'cut: for (at, b) in text.iter().enumerate() {
        if *b == 47 {
            return (&text[..at], &text[at + 1..]);
        }
    }
    (text, &[])
}
