//! A record's text, which is made before anything is written.

ghost use Rattle.std.specs.Prelude.{◌≡◌, [], ◌∷◌, ◌++◌, ◌-◌, ◌<◌, ◌^◌, length, IfOk};
ghost use Rattle.dmn_journal.specs.Journal.{Entry, IsShort, entry_text};
ghost use Rattle.dmn_journal.specs.declared.limits.TheConstants.{DISCONNECT};

use crate::limits::DISCONNECT;
use dmn_bytes::{Bytes, Hash256, Memory};
use std::alloc::Global;
use std::marker::Model;

/// The bytes of a record, in a fixed array where they are few.
#[derive(Drop)]
pub enum RecordBytes {
    Fixed([u8; 38]),
    Grown(Bytes),
}

/// What stands behind a record's gate, and a closed gate behind it. Contracts see the record.
#[derive(Drop)]
pub struct RecordText {
    bytes: RecordBytes,
}

impl Model for RecordText {
    ghost use Rattle.std.specs.Prelude.{◌≡◌, ◌<◌, ◌+◌, ◌^◌, [], ◌∷◌, ◌++◌, length};
    ghost use Rattle.dmn_journal.specs.Journal.{Entry, entry_in, entry_text};
    ghost use Rattle.dmn_journal.specs.Record.{record_bytes};

    ghost Value = { Entry };

    ghost view = { λ t. entry_in (record_bytes t.bytes) };

    ghost invariant = { λ t. (length (record_bytes t.bytes) < 2 ^ 32 + 5) × (record_bytes t.bytes ≡ entry_text (entry_in (record_bytes t.bytes)) ++ 0 ∷ []) };
}

impl RecordText {
    /// The record behind its gate, and a closed gate.
    pub fn as_slice(&self) -> &[u8]
        ensures text { result.now ≡ entry_text self.now ++ 0 ∷ [] }
        ensures short { IsShort self.now }
    {
        match &self.bytes {
            RecordBytes::Fixed(text) => text,
            RecordBytes::Grown(text) => text.as_slice(),
        }
    }
}

/// The record of a kind and a body.
pub fn entry_text(alloc: Global, kind: u8, body: &[u8]) -> Result<RecordText, Memory>
    requires { length body.now < 2 ^ 32 - 1 }
    ensures { IfOk result (λ text. text ≡ record { kind = kind; body = body.now }) }
{
    let mut bytes = Bytes::new(alloc);
    bytes.extend(&(body.len() as u32 + 1).to_le_bytes())?;
    bytes.extend(&[kind])?;
    bytes.extend(body)?;
    bytes.extend(&[0])?;
    Ok(RecordText {
        bytes: RecordBytes::Grown(bytes),
    })
}

/// The record of a disconnect, which takes no memory.
pub fn disconnect_text(hash: &Hash256) -> RecordText
    ensures { result ≡ record { kind = DISCONNECT; body = hash.now.0 } }
{
    let mut text = [0; 38];
    text[0] = 33;
    text[4] = DISCONNECT;
    text[5..37].copy_from_slice(&hash.0);
    RecordText {
        bytes: RecordBytes::Fixed(text),
    }
}
