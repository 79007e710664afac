//! The seven lines of a run.

ghost use Rattle.std.specs.Prelude.{◌≡◌, IfOk};
ghost use Rattle.dmn_make.specs.Text.{seven_lines};

use dmn_audit::{add_line, add_number, audit_text};
use dmn_bytes::{Bytes, Memory, dsha};
use dmn_hex::hash_text;
use dmn_registry::Audit;
use std::alloc::Global;

/// The text of a run: that of an audit, how many records an opening replays, and the hash of the pages.
pub fn seven_lines(alloc: Global, audit: &Audit, tail: u64, pages: &[u8]) -> Result<Bytes, Memory>
    ensures { IfOk result (λ text. text ≡ seven_lines audit.now tail pages.now) }
{
    let hash = hash_text(alloc, &dsha(pages))?;
    let mut text = audit_text(alloc, audit)?;
    add_number(alloc, &mut text, b"tail", tail)?;
    add_line(&mut text, b"pages", hash.as_slice())?;
    Ok(text)
}
