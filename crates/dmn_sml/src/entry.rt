//! An entry of the simplified list, and its text.

ghost use Rattle.std.specs.Prelude.{◌≡◌};
ghost use Rattle.dmn_bytes.specs.Format.{as_one};
ghost use Rattle.dmn_bytes.specs.Reading.{Gives};
ghost use Rattle.dmn_sml.specs.Page.{HasLengths};
ghost use Rattle.dmn_sml.specs.Entry.{flag, flag_byte, fields, entry as format, entry_sound, entry_of};

use crate::page::Page;
use dmn_bytes::{Departure, Hash256, ReadError, Reader, Service, Sink, Text};
use dmn_rows::MnRow;
use std::alloc::Global;

/// What the simplified list says of a masternode (DIP-0004).
#[derive(Clone, Copy, Debug, PartialEq, Eq)]
pub struct SmlEntry {
    /// The id of the transaction that registered it (its ProRegTx hash), by which entries are ordered.
    pub hash: Hash256,
    /// The hash of the block before the one that confirmed it; zero while it is unconfirmed.
    pub confirmed: Hash256,
    /// Where it serves; all zero where that isn't set.
    pub service: Service,
    /// The operator's public key; zero where there is none.
    pub operator: [u8; 48],
    /// The hash of the voter's public key.
    pub voting: [u8; 20],
    /// Whether it isn't banned.
    pub valid: bool,
}

// A byte that is 1 or 0.
fn read_flag(reader: &mut Reader<'_>) -> Result<bool, ReadError>
    ensures { Gives flag reader.old reader.new result }
{
    let at = reader.at();
    match reader.u8()? {
        0 => Ok(false),
        1 => Ok(true),
        _ => Err(ReadError::Departs(Departure::Form { at })),
    }
}

fn flag_byte(flag: bool) -> u8
    ensures { result ≡ flag_byte flag }
{
    if flag { 1 } else { 0 }
}

// The fields one by one.
#[tactic(auto, unfolding(crate::specs::Entry::fields))]
fn read_fields(reader: &mut Reader<'_>, alloc: Global) -> Result<SmlEntry, ReadError>
    ensures { Gives fields reader.old reader.new result }
{
    let hash = Hash256::read(reader, alloc)?;
    let confirmed = Hash256::read(reader, alloc)?;
    let service = Service::read(reader, alloc)?;
    let operator = reader.array()?;
    let voting = reader.array()?;
    let valid = read_flag(reader)?;
    Ok(SmlEntry {
        hash,
        confirmed,
        service,
        operator,
        voting,
        valid,
    })
}

#[tactic(auto, unfolding(crate::specs::Entry::entry))]
impl Text for SmlEntry {
    ghost format = { format };

    ghost sound = { entry_sound };

    fn read(reader: &mut Reader<'_>, alloc: Global) -> Result<SmlEntry, ReadError> {
        let at = reader.at();
        match read_fields(reader, alloc) {
            Ok(entry) => Ok(entry),
            Err(ReadError::Memory) => Err(ReadError::Memory),
            Err(ReadError::Departs(_)) => Err(ReadError::Departs(Departure::Form { at })),
        }
    }

    fn feed<S: Sink>(&self, sink: &mut S) {
        self.hash.feed(sink);
        self.confirmed.feed(sink);
        self.service.feed(sink);
        self.operator.feed(sink);
        self.voting.feed(sink);
        flag_byte(self.valid).feed(sink);
    }
}

/// The entry of a row.
pub fn entry_of(row: &MnRow) -> SmlEntry
    ensures { result ≡ entry_of row.now }
{
    SmlEntry {
        hash: row.hash,
        confirmed: row.confirmed,
        service: row.service,
        operator: row.operator,
        voting: row.voting,
        valid: row.banned == 0,
    }
}

// Each field has its length.
fn lengths(entry: SmlEntry)
    ensures { HasLengths entry }
{
    let _hash = entry.hash.0;
    let _confirmed = entry.confirmed.0;
    let _address = entry.service.address;
    let _operator = entry.operator;
    let _voting = entry.voting;
}

/// The text of an entry. It takes no memory.
pub fn entry_text(entry: &SmlEntry) -> [u8; 151]
    ensures { result ≡ format.text entry.now }
{
    lengths(*entry);
    let mut page = Page::new();
    entry.feed(&mut page);
    page.into_text()
}
