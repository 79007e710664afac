//! Bytes put at a place of a text, and taken from one.

ghost use Rattle.std.specs.Prelude.{◌≡◌, ◌+◌, ◌-◌, ◌≤◌, ◌++◌, length, take, drop, replicate, vec_capacity, IsOk, OnOk, OnErr};
ghost use Rattle.dmn_outside.specs.Changes.{ReadsAt, placed};

use std::alloc::AllocError;

// Adds zeros up to this length; a longer text stays.
fn lengthen(text: &mut Vec<u8>, len: usize) -> Result<(), AllocError>
    ensures ok { OnOk result (text.new.items ≡ text.old.items ++ replicate (len - length text.old.items) 0) }
    ensures err { OnErr result (text.new.items ≡ text.old.items) }
    ensures capacity { vec_capacity text.old ≤ vec_capacity text.new }
    ensures fits { len ≤ vec_capacity text.old → IsOk result }
{
    if len <= text.len() {
        return Ok(());
    }
    text.resize(len, 0)
}

fn overwrite(text: &mut [u8], at: usize, bytes: &[u8])
    requires { at + length bytes.now ≤ length text.old }
    ensures { text.new ≡ take at text.old ++ bytes.now ++ drop (at + length bytes.now) text.old }
{
    text[at..at + bytes.len()].copy_from_slice(bytes);
}

/// Puts bytes at a place, with zeros in front of them where it lies behind the end. Without memory nothing changes, and
/// room that is there is enough.
pub fn put_at(text: &mut Vec<u8>, at: u64, bytes: &[u8]) -> Result<(), AllocError>
    ensures ok { OnOk result (text.new.items ≡ placed at bytes.now text.old.items) }
    ensures err { OnErr result (text.new.items ≡ text.old.items) }
    ensures capacity { vec_capacity text.old ≤ vec_capacity text.new }
    ensures fits { at + length bytes.now ≤ vec_capacity text.old → IsOk result }
{
    let at = at as usize;
    let Some(end) = at.checked_add(bytes.len()) else {
        return Err(AllocError);
    };
    lengthen(text, end)?;
    overwrite(text, at, bytes);
    Ok(())
}

/// Copies bytes from a place on, as many as there are and as there is room for, and says how many.
pub fn copy_at(text: &[u8], at: u64, out: &mut [u8]) -> usize
    ensures most { result ≤ length out.old }
    ensures bytes { ReadsAt text.now at result out.old out.new }
{
    let from = (at as usize).min(text.len());
    let len = out.len().min(text.len() - from);
    out[..len].copy_from_slice(&text[from..from + len]);
    len
}
