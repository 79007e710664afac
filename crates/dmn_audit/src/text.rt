//! The text of an audit: five lines.

ghost use Rattle.std.specs.Prelude.{◌≡◌, ◌++◌, IfOk, OnOk, decimal};
ghost use Rattle.dmn_audit.specs.Text.{audit_text, line};

use dmn_bytes::{Bytes, Memory};
use dmn_hex::hash_text;
use dmn_registry::Audit;
use std::alloc::Global;

/// Adds a line: a name, a space, and a value.
pub fn add_line(text: &mut Bytes, name: &[u8], value: &[u8]) -> Result<(), Memory>
    ensures { OnOk result (text.new ≡ text.old ++ line name.now value.now) }
{
    text.extend(name)?;
    text.extend(b" ")?;
    text.extend(value)?;
    text.extend(b"\n")
}

/// Adds a line whose value is a number, in decimal digits.
pub fn add_number(alloc: Global, text: &mut Bytes, name: &[u8], number: u64) -> Result<(), Memory>
    ensures { OnOk result (text.new ≡ text.old ++ line name.now (decimal number)) }
{
    let digits = number.to_string(alloc)?;
    add_line(text, name, digits.as_bytes())
}

/// The text of an audit.
pub fn audit_text(alloc: Global, audit: &Audit) -> Result<Bytes, Memory>
    ensures { IfOk result (λ text. text ≡ audit_text audit.now) }
{
    let root = hash_text(alloc, &audit.root)?;
    let mut text = Bytes::new(alloc);
    add_number(alloc, &mut text, b"height", u64::from(audit.height))?;
    add_number(alloc, &mut text, b"rows", u64::from(audit.rows))?;
    add_number(alloc, &mut text, b"banned", u64::from(audit.banned))?;
    add_line(&mut text, b"root", root.as_slice())?;
    add_number(alloc, &mut text, b"records", audit.records)?;
    Ok(text)
}
