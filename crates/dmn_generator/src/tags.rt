//! Tags: hashes of short texts.

ghost use Rattle.std.specs.Prelude.{◌≡◌, length, IfOk};
ghost use Rattle.dmn_generator.specs.Tags.{first_20, first_48, tag, tag_of_two, thrice};

use dmn_bytes::{Bytes, Hash256, Memory, dsha_of};
use sha2::{Digest, Sha256};
use std::alloc::Global;

/// The tag of a name and a number.
#[tactic(auto, unfolding(crate::specs::Tags::tag))]
pub fn tag(alloc: Global, name: &[u8], number: u32) -> Result<Hash256, Memory>
    ensures { IfOk result (λ hash. hash ≡ tag name.now number) }
{
    let digits = number.to_string(alloc)?;
    let mut hasher = Sha256::new();
    hasher.update(name);
    hasher.update(digits.as_bytes());
    Ok(dsha_of(hasher))
}

/// The tag of a name and two numbers.
#[tactic(auto, unfolding(crate::specs::Tags::tag_of_two))]
pub fn tag_of_two(alloc: Global, name: &[u8], first: u32, second: u32) -> Result<Hash256, Memory>
    ensures { IfOk result (λ hash. hash ≡ tag_of_two name.now first second) }
{
    let one = first.to_string(alloc)?;
    let two = second.to_string(alloc)?;
    let mut hasher = Sha256::new();
    hasher.update(name);
    hasher.update(one.as_bytes());
    hasher.update(b" ");
    hasher.update(two.as_bytes());
    Ok(dsha_of(hasher))
}

/// The first 20 bytes of a hash.
pub fn first_20(hash: &Hash256) -> [u8; 20]
    ensures { result ≡ first_20 hash.now }
{
    let bytes = hash.0;
    let mut first = [0; 20];
    first.copy_from_slice(&bytes[..20]);
    first
}

// A hash has 32 bytes.
fn hash_length(hash: Hash256)
    ensures { length hash.0 ≡ 32 }
{
    let _bytes = hash.0;
}

/// The first 48 bytes of two hashes.
pub fn first_48(alloc: Global, one: &Hash256, other: &Hash256) -> Result<[u8; 48], Memory>
    ensures { IfOk result (λ bytes. bytes ≡ first_48 one.now other.now) }
{
    let mut bytes = Bytes::from_slice(alloc, &one.0)?;
    bytes.extend(&other.0)?;
    bytes.truncate(48);
    hash_length(*one);
    hash_length(*other);
    match <[u8; 48]>::try_from(bytes.as_slice()) {
        Ok(first) => Ok(first),
        Err(_) => unreachable!(),
    }
}

/// A hash, three times.
pub fn thrice(alloc: Global, hash: &Hash256) -> Result<[u8; 96], Memory>
    ensures { IfOk result (λ bytes. bytes ≡ thrice hash.now) }
{
    let mut bytes = Bytes::from_slice(alloc, &hash.0)?;
    bytes.extend(&hash.0)?;
    bytes.extend(&hash.0)?;
    match <[u8; 96]>::try_from(bytes.as_slice()) {
        Ok(all) => Ok(all),
        Err(_) => unreachable!(),
    }
}
