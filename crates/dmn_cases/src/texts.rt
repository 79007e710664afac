//! Bytes from words of hex digits, and back.

use crate::trouble::Trouble;
use dmn_bytes::Bytes;
use std::alloc::{AllocError, Global};

// Adds the bytes of hex digits so many times.
fn add_hex(alloc: Global, digits: &str, times: usize, out: &mut Bytes) -> Result<(), Trouble> {
    let bytes = hex::decode(alloc, digits).map_err(|_| Trouble::Line)?;
    for _ in 0..times {
        out.extend(bytes.as_slice())?;
    }
    Ok(())
}

/// Adds the bytes of words such as `0a0b` or `00*32`, which is a byte 32 times.
pub fn add_words(alloc: Global, text: &str, out: &mut Bytes) -> Result<(), Trouble> {
    for word in text.split_whitespace() {
        match word.split_once('*') {
            None => add_hex(alloc, word, 1, out)?,
            Some((digits, times)) => {
                let times = times.parse::<usize>().map_err(|_| Trouble::Line)?;
                add_hex(alloc, digits, times, out)?;
            }
        }
    }
    Ok(())
}

/// The hex digits of bytes, or a word for none.
pub fn shown(alloc: Global, bytes: &[u8]) -> Result<String, AllocError> {
    if bytes.is_empty() {
        return String::from_str(alloc, "nothing");
    }
    hex::encode(alloc, bytes)
}
