//! Hashes of other programs, and a public block's root and branch.

use dmn_bytes::{Hash256, digest, dsha, dsha2, sha256_pair};
use dmn_merkle::{check_branch, coinbase_branch, root};
use std::test::Fail;

// The ids of the four transactions in Bitcoin's block 100,000, and the root in its header.
const IDS: [&str; 4] = [
    "876dd0a3ef4a2816ffd1c12ab649825a958b0ff3bb3d6f3e1250f13ddbf0148c",
    "c40297f730dd7b5a99567eb8d27b78758f607507c52292d02d4031895b52f2ff",
    "c46e239ab7d28e2c019b6d66ad8fae98a56ef1f21aeecb94d1b1718186f05963",
    "1d0cb83721529a062d9675b98d6e5c587e4a770fc84ed00abc5a5de04568a6e9",
];

const ROOT: &str = "6657a9252aacd5c0b2940996ecff952228c3067cc38d4885efb5a4ac4247e9f3";

// SHA-256 taken twice, of no bytes; and taken once, of 64 zero bytes.
const NO_BYTES: &str = "5df6e0e2761359d30a8275058e299fcc0381534545f55cf43e41983f5d4c9456";

const ZEROS: &str = "f5a5fd42d16a20302798ef6ed309979b43003d2320d9f0e8ea9831a92759fb4b";

fn hash_of(digits: &str) -> Result<Hash256, Fail> {
    let mut bytes = [0; 32];
    hex::decode_to_slice(digits.as_bytes(), &mut bytes)
        .ok()
        .ok_or("digits")?;
    Ok(Hash256(bytes))
}

#[test]
fn hashes(rt: HostRuntime) -> Result<(), Fail> {
    assert_eq!(rt; dsha(&[]), hash_of(NO_BYTES)?);
    let zero = Hash256([0; 32]);
    assert_eq!(rt; sha256_pair(&zero, &zero), hash_of(ZEROS)?);
    let [first, second, third, fourth] = IDS;
    let left = dsha2(&hash_of(first)?, &hash_of(second)?);
    let right = dsha2(&hash_of(third)?, &hash_of(fourth)?);
    assert_eq!(rt; dsha2(&left, &right), hash_of(ROOT)?);
    assert_eq!(rt; digest(&left), dsha(&left.0));
    Ok(())
}

#[test]
fn root_and_branch_of_a_public_block(rt: HostRuntime) -> Result<(), Fail> {
    let [first, second, third, fourth] = IDS;
    let ids = [
        hash_of(first)?,
        hash_of(second)?,
        hash_of(third)?,
        hash_of(fourth)?,
    ];
    let computed = root(rt.alloc(), &ids).ok().ok_or("memory")?;
    assert_eq!(rt; computed, hash_of(ROOT)?);
    let branch = coinbase_branch(rt.alloc(), &ids).ok().ok_or("memory")?;
    let hashes = branch.hashes.as_slice();
    assert_eq!(rt; hashes.len(), 3);
    assert_eq!(rt; branch.flags.as_slice(), [7].as_slice());
    assert_eq!(rt; check_branch(4, hashes, &[7], &ids[0]), Ok(computed));
    Ok(())
}
