//! The list of a height, and its frame.

ghost use Rattle.std.specs.Prelude.{◌≡◌, ◌*◌, ◌^◌, ◌<◌, ◌≤◌, [], ◌∷◌, ◌++◌, length, IfOk, OnOk};
ghost use Rattle.std.specs.Iterator.{YieldsFirstRef};
ghost use Rattle.std.specs.List.{flat_map};
ghost use Rattle.dmn_branch.specs.Machine.{MachineState};
ghost use Rattle.dmn_branch.specs.Stands.{StandsFor};
ghost use Rattle.dmn_branch.specs.Step.{most_rows};
ghost use Rattle.dmn_bytes.specs.Sending.{Appends};
ghost use Rattle.dmn_sml.specs.Defs.{simple};
ghost use Rattle.dmn_sml.specs.Entry.{entry, entry_of};
ghost use Rattle.dmn_sml.specs.Page.{HasLengths};
ghost use Rattle.dmn_desk.specs.Ask.{list_at};
ghost use Rattle.dmn_desk.specs.Framed.{list_body};
ghost use Rattle.dmn_frames.specs.Frames.{framed};
ghost use Rattle.dmn_desk.specs.Texts.{IsBounded};

use crate::answer::{Answer, GrownAnswer};
use crate::height::{is_held, not_held};
use dmn_branch::{Branch, Listing};
use dmn_bytes::{Hash256, Items, Memory, Sink, Text, feed_count, feed_many};
use dmn_rows::MnRow;
use dmn_sml::{SmlEntry, entry_of};
use std::alloc::Global;

/// The bytes of an entry's text.
pub const ENTRY: usize = 151;

/// The bytes of a list's body before its entries: height, hash, root and count.
const FIELDS: usize = 72;

/// A hash has 32 bytes.
pub fn hash_length(hash: Hash256)
    ensures { length hash.0 ≡ 32 }
{
    let _bytes = hash.0;
}

// Each field has its length.
fn field_lengths(entry: SmlEntry)
    ensures { HasLengths entry }
{
    let _hash = entry.hash.0;
    let _confirmed = entry.confirmed.0;
    let _address = entry.service.address;
    let _operator = entry.operator;
    let _voting = entry.voting;
}

/// Each entry's text has as many bytes.
pub fn entry_lengths(entries: &[SmlEntry])
    ensures { length (flat_map entry.text entries.now) ≡ 151 * length entries.now }
{
    for entry in entries {
        field_lengths(*entry);
    }
}

/// Sends the frame of a list. Its length is known before its entries are sent.
pub fn feed_list<S: Sink>(
    height: u32,
    hash: &Hash256,
    root: &Hash256,
    entries: &[SmlEntry],
    sink: &mut S,
)
    requires { length entries.now ≤ most_rows }
    ensures text { Appends S.holds S.kept sink.old sink.new (framed 0 (list_body height hash.now root.now entries.now)) }
    ensures fits { length (list_body height hash.now root.now entries.now) < 2 ^ 32 }
{
    entry_lengths(entries);
    hash_length(*hash);
    hash_length(*root);
    sink.put(&[0]);
    feed_count(FIELDS + ENTRY * entries.len(), sink);
    height.feed(sink);
    hash.feed(sink);
    root.feed(sink);
    feed_count(entries.len(), sink);
    feed_many(entries, sink);
}

/// Adds the simplified entry of a row.
pub fn add_entry(entries: &mut Vec<SmlEntry>, row: &MnRow) -> Result<(), Memory>
    ensures { OnOk result (entries.new.items ≡ entries.old.items ++ entry_of row.now ∷ []) }
{
    entries.push(entry_of(row)).map_err(|_| Memory)
}

// The next row of a list.
fn next_row<'a>(rows: &mut Listing<'a>) -> Option<&'a MnRow>
    ensures { YieldsFirstRef (λ s. s.rows) rows.old result rows.new }
{
    rows.next()
}

// The simplified entries of rows that are lent.
fn entries_of(alloc: Global, mut rows: Listing<'_>) -> Result<Items<SmlEntry>, Memory>
    ensures { IfOk result (λ entries. entries ≡ simple rows.entry.rows) }
{
    let mut entries = Vec::new(alloc);
    'rows: while let Some(row) = next_row(&mut rows) {
        add_entry(&mut entries, row)?;
    }
    Ok(Items::from_vec(entries))
}

/// The list at a height, by rows that the branch lends.
pub fn list_at(alloc: Global, branch: &Branch, height: u32) -> Result<Answer, Memory>
    ensures answer { IfOk result (λ answer. (m : MachineState) → StandsFor branch.now m → answer ≡ list_at m height) }
    ensures bounded { IfOk result IsBounded }
{
    let tip = branch.tip();
    if !is_held(&tip, height) {
        return Ok(not_held(&tip));
    }
    let rows = branch.list_at(height);
    let _count = rows.size();
    Ok(Answer::Grown(GrownAnswer::List {
        height,
        hash: rows.hash(),
        root: rows.root(),
        entries: entries_of(alloc, rows)?,
    }))
}
