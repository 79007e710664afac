//! The rows and outputs of a block that is being judged, and what its events make of them.

ghost use Rattle.std.specs.Prelude.{◌≡◌, ◌+◌, false, None, Some, IsTrue, IsNone, IfSome, OnOk, OnErr, IfOk, find, is_some, is_none, slice_get, length};
ghost use Rattle.std.specs.Option.{option_copied, option_map};
ghost use Rattle.dmn_rows.specs.Distinct.{HasDistinctKeys};
ghost use Rattle.dmn_rows.specs.Listing.{IsAscending, OutputsAscend};
ghost use Rattle.dmn_rows.specs.Rows.{has_hash, output_at, put_row, drop_row, put_output, drop_output};
ghost use Rattle.dmn_rows.specs.Profile.{confirm_wait};
ghost use Rattle.dmn_rows.specs.Waiting.{is_due, pay_order};
ghost use Rattle.dmn_indexes.specs.Order.{unconfirmed_order, first_due};
ghost use Rattle.dmn_indexes.specs.Parts.{keys_of, shown};
ghost use Rattle.dmn_indexes.specs.Version.{IsWhole};
ghost use Rattle.dmn_indexes.specs.Working.{worked, counted, IsSame, Leads};

use crate::indexes::Indexes;
use crate::version::Version;
use dmn_bytes::{Hash256, Memory, OutPoint, Pay, Service};
use dmn_rows::{Look, MnRow};
use std::marker::Model;

/// A version that changes with each event, in the arenas of all versions. The versions of before stay as they are.
/// An event counts where it changes something. A count that is full is answered like want of memory.
#[derive(Drop)]
pub struct Working {
    indexes: Indexes,
    version: Version,
    events: u64,
    entries_changed: bool,
}

impl Model for Working {
    ghost use Rattle.dmn_indexes.specs.Version.{IsWhole};
    ghost use Rattle.dmn_indexes.specs.Working.{Worked, worked};

    ghost Value = { Worked };

    ghost view = { λ a. worked a.indexes a.version a.events a.entries_changed };

    ghost invariant = { λ a. IsWhole a.indexes a.version };
}

// Whether the simplified list shows the same of two rows.
fn show_the_same(old: &MnRow, row: &MnRow) -> bool
    ensures { IsTrue result → shown old.now ≡ shown row.now }
{
    old.hash == row.hash
        && old.confirmed == row.confirmed
        && old.service == row.service
        && old.operator == row.operator
        && old.voting == row.voting
        && (old.banned == 0) == (row.banned == 0)
}

impl Working {
    /// A version, before the first event.
    pub fn new(indexes: Indexes, version: Version) -> Working
        requires { IsWhole indexes version }
        ensures { result ≡ worked indexes version 0 false }
    {
        Working {
            indexes,
            version,
            events: 0,
            entries_changed: false,
        }
    }

    /// The arenas.
    pub fn into_indexes(self) -> Indexes
        ensures { result ≡ self.indexes }
    {
        let Working { indexes, .. } = self;
        indexes
    }

    /// The version that the events made.
    pub fn version(&self) -> Version
        ensures version { result ≡ self.now.version }
        ensures whole { IsWhole self.now.indexes self.now.version }
        ensures reads { self.now
            ≡ worked self.now.indexes self.now.version self.now.events self.now.entries_changed }
    {
        self.version
    }

    /// How many events there were.
    pub fn events(&self) -> u64
        ensures { result ≡ self.now.events }
    {
        self.events
    }

    /// Whether an event may have changed what the simplified list shows: a row was added or removed, or one was put in
    /// the place of another that is shown otherwise.
    pub fn entries_changed(&self) -> bool
        ensures { result ≡ self.now.entries_changed }
    {
        self.entries_changed
    }

    // The count with one event more.
    fn next_count(&self) -> Result<u64, Memory>
        ensures { IfOk result (λ count. count ≡ self.now.events + 1) }
    {
        self.events.checked_add(1).ok_or(Memory)
    }

    // Whether the simplified list may be shown otherwise once the row is put.
    fn changes(&self, row: &MnRow) -> bool
        ensures { result ≡ false
            → (self.now.entries_changed ≡ false)
            × (option_map shown (find (has_hash row.now.hash) self.now.rows) ≡ Some (shown row.now)) }
    {
        match self.row(&row.hash) {
            None => true,
            Some(old) => self.entries_changed || !show_the_same(old, row),
        }
    }

    // Puts a row, where the rows still have distinct keys behind it.
    fn place_row(&mut self, row: &MnRow) -> Result<(), Memory>
        requires { IsAscending self.old.rows
            → HasDistinctKeys self.old.rows → HasDistinctKeys (put_row row.now self.old.rows) }
        ensures rows { OnOk result (self.new.rows ≡ put_row row.now self.old.rows) }
        ensures outputs { OnOk result (self.new.outputs ≡ self.old.outputs) }
        ensures events { OnOk result (self.new.events ≡ self.old.events + 1) }
        ensures leads { Leads self.old self.new }
        ensures err { OnErr result (IsSame self.old self.new) }
    {
        let events = self.next_count()?;
        let changed = self.changes(row);
        self.indexes.reserve(&self.version)?;
        self.version = self.indexes.put_row(self.version, row);
        self.events = events;
        self.entries_changed = changed;
        Ok(())
    }

    /// Puts a row in its place, or in that of the row of its hash: one event.
    pub fn put_row(&mut self, row: &MnRow) -> Result<(), Memory>
        requires { HasDistinctKeys (put_row row.now self.old.rows) }
        ensures rows { OnOk result (self.new.rows ≡ put_row row.now self.old.rows) }
        ensures outputs { OnOk result (self.new.outputs ≡ self.old.outputs) }
        ensures events { OnOk result (self.new.events ≡ self.old.events + 1) }
        ensures leads { Leads self.old self.new }
        ensures err { OnErr result (IsSame self.old self.new) }
    {
        self.place_row(row)
    }

    /// Puts a row in the place of the one of its hash, which has the same keys: one event.
    pub fn set_row(&mut self, row: &MnRow) -> Result<(), Memory>
        requires { option_map keys_of (find (has_hash row.now.hash) self.old.rows)
            ≡ Some (keys_of row.now) }
        ensures rows { OnOk result (self.new.rows ≡ put_row row.now self.old.rows) }
        ensures outputs { OnOk result (self.new.outputs ≡ self.old.outputs) }
        ensures events { OnOk result (self.new.events ≡ self.old.events + 1) }
        ensures leads { Leads self.old self.new }
        ensures err { OnErr result (IsSame self.old self.new) }
    {
        self.place_row(row)
    }

    /// Takes the row of a hash away: one event, where it was there.
    pub fn drop_row(&mut self, hash: &Hash256) -> Result<(), Memory>
        ensures rows { OnOk result (self.new.rows ≡ drop_row hash.now self.old.rows) }
        ensures outputs { OnOk result (self.new.outputs ≡ self.old.outputs) }
        ensures events { OnOk result (self.new.events
            ≡ self.old.events + counted (is_some (find (has_hash hash.now) self.old.rows))) }
        ensures leads { Leads self.old self.new }
        ensures err { OnErr result (IsSame self.old self.new) }
    {
        if self.row(hash).is_none() {
            return Ok(());
        }
        let events = self.next_count()?;
        self.indexes.reserve(&self.version)?;
        self.version = self.indexes.drop_row(self.version, hash);
        self.events = events;
        self.entries_changed = true;
        Ok(())
    }

    /// Puts an output in its place: one event, unless its outpoint was there, where nothing changes.
    pub fn put_output(&mut self, point: &OutPoint, pay: Pay) -> Result<(), Memory>
        ensures rows { OnOk result (self.new.rows ≡ self.old.rows) }
        ensures outputs { OnOk result (self.new.outputs ≡ put_output point.now pay self.old.outputs) }
        ensures events { OnOk result (self.new.events
            ≡ self.old.events + counted (is_none (output_at self.old.outputs point.now))) }
        ensures leads { Leads self.old self.new }
        ensures err { OnErr result (IsSame self.old self.new) }
    {
        if self.output(point).is_some() {
            return Ok(());
        }
        let events = self.next_count()?;
        self.indexes.reserve(&self.version)?;
        self.version = self.indexes.put_output(self.version, point, pay);
        self.events = events;
        Ok(())
    }

    /// Takes the output at an outpoint away: one event, where it was there.
    pub fn drop_output(&mut self, point: &OutPoint) -> Result<(), Memory>
        ensures rows { OnOk result (self.new.rows ≡ self.old.rows) }
        ensures outputs { OnOk result (self.new.outputs ≡ drop_output point.now self.old.outputs) }
        ensures events { OnOk result (self.new.events
            ≡ self.old.events + counted (is_some (output_at self.old.outputs point.now))) }
        ensures leads { Leads self.old self.new }
        ensures err { OnErr result (IsSame self.old self.new) }
    {
        if self.output(point).is_none() {
            return Ok(());
        }
        let events = self.next_count()?;
        self.indexes.reserve(&self.version)?;
        self.version = self.indexes.drop_output(self.version, point);
        self.events = events;
        Ok(())
    }

    /// The row at a place of the order of hashes.
    pub fn row_at(&self, rank: u32) -> Option<&MnRow>
        ensures { option_copied result ≡ slice_get self.now.rows rank }
    {
        match self.indexes.rows.at_rank(self.version.rows, rank) {
            None => None,
            Some((_, row)) => Some(row),
        }
    }

    /// The row at a place of the order of payments, counted from 0. None exactly at or past its end.
    pub fn least_pay(&self, rank: u32) -> Option<&MnRow>
        ensures item { option_copied result ≡ slice_get (pay_order self.now.rows) rank }
        ensures row { IfSome result (λ row. find (has_hash row.now.hash) self.now.rows ≡ Some row.now) }
    {
        self.indexes.least_pay(&self.version, rank)
    }

    /// The row that is to be confirmed next by the block of a height: of those that aren't confirmed the one that was
    /// registered first, where it has waited long enough.
    pub fn due(&self, height: u32) -> Option<&MnRow>
        ensures first { option_copied result ≡ first_due height (unconfirmed_order self.now.rows) }
        ensures row { IfSome result (λ row. (find (has_hash row.now.hash) self.now.rows ≡ Some row.now)
            × IsTrue (is_due confirm_wait height row.now)) }
        ensures none { IsNone result → find (is_due confirm_wait height) self.now.rows ≡ None }
    {
        self.indexes.due(&self.version, height)
    }

    /// How many rows there are.
    pub fn rows_len(&self) -> u64
        ensures count { result ≡ length self.now.rows }
        ensures ascending { IsAscending self.now.rows }
    {
        self.indexes.rows.size(self.version.rows)
    }

    /// How many outputs there are.
    pub fn outputs_len(&self) -> u64
        ensures count { result ≡ length self.now.outputs }
        ensures ascending { OutputsAscend self.now.outputs }
    {
        self.indexes.outputs.size(self.version.outputs)
    }
}

impl Look for Working {
    ghost rows = { λ s. s.rows };

    ghost outputs = { λ s. s.outputs };

    fn row(&self, hash: &Hash256) -> Option<&MnRow> {
        self.indexes.rows.get(self.version.rows, hash)
    }

    fn by_owner(&self, key: &[u8; 20]) -> Option<Hash256> {
        self.indexes
            .view(&self.version, &self.version)
            .by_owner(key)
    }

    fn by_operator(&self, key: &[u8; 48]) -> Option<Hash256> {
        self.indexes
            .view(&self.version, &self.version)
            .by_operator(key)
    }

    fn by_service(&self, service: &Service) -> Option<Hash256> {
        self.indexes
            .view(&self.version, &self.version)
            .by_service(service)
    }

    fn by_collateral(&self, point: &OutPoint) -> Option<Hash256> {
        self.indexes
            .view(&self.version, &self.version)
            .by_collateral(point)
    }

    fn output(&self, point: &OutPoint) -> Option<Pay> {
        self.indexes
            .view(&self.version, &self.version)
            .output(point)
    }

    fn count(&self) -> u32 {
        self.indexes.rows.size(self.version.rows) as u32
    }
}
