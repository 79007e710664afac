//! The simplified list, in the order of its hashes.

ghost use Rattle.std.specs.Prelude.{◌≡◌, [], Ok, OnOk, OnErr, IfOk};
ghost use Rattle.std.specs.List.{list_any};
ghost use Rattle.dmn_sml.specs.Defs.{IsAscending, has_hash, leaf, root_of, put_entry, delete_hash};
ghost use Rattle.dmn_sml.specs.Keys.{entry_key};

use crate::entry::SmlEntry;
use dmn_bytes::{Hash256, Memory, digest};
use dmn_merkle::RootBuilder;
use dmn_rows::{ByKey, drop_sorted, put_sorted};
use std::alloc::Global;
use std::marker::Model;

/// Entries in strictly ascending order of their hashes. Contracts see them as a list.
#[derive(Debug, Drop)]
pub struct SmlList {
    entries: Vec<SmlEntry>,
}

impl Model for SmlList {
    ghost use Rattle.std.specs.Prelude.{List};
    ghost use Rattle.dmn_sml.specs.declared.entry.SmlEntry.{SmlEntry};
    ghost use Rattle.dmn_sml.specs.Defs.{IsAscending};

    ghost Value = { List SmlEntry };

    ghost view = { λ l. l.entries.items };

    ghost invariant = { λ l. IsAscending l.entries.items };
}

impl SmlList {
    /// No entries, which takes no memory.
    pub fn new(alloc: Global) -> SmlList
        ensures { result ≡ [] }
    {
        SmlList {
            entries: Vec::new(alloc),
        }
    }

    /// The list of these entries, which ascend. This takes no memory.
    pub fn from_ascending(entries: Vec<SmlEntry>) -> SmlList
        requires { IsAscending entries.items }
        ensures { result ≡ entries.items }
    {
        SmlList { entries }
    }

    /// Adds an entry in its place, or replaces the one of its hash. Without memory nothing changes.
    pub fn put(&mut self, entry: SmlEntry) -> Result<(), Memory>
        ensures ok { OnOk result (self.new ≡ put_entry entry self.old) }
        ensures err { OnErr result (self.new ≡ self.old) }
    {
        Ok(put_sorted(&mut self.entries, entry)?)
    }

    /// Takes the entry of a hash away, and tells whether it was there. This takes no memory.
    pub fn delete(&mut self, hash: &Hash256) -> bool
        ensures was { result ≡ list_any (has_hash hash.now) self.old }
        ensures rest { self.new ≡ delete_hash hash.now self.old }
    {
        drop_sorted(&mut self.entries, hash)
    }

    /// The entries, in their order.
    pub fn entries(&self) -> &[SmlEntry]
        ensures all { result.now ≡ self.now }
        ensures ascending { IsAscending self.now }
    {
        &self.entries
    }

    /// Another list of the same entries.
    pub fn copy(&self, alloc: Global) -> Result<SmlList, Memory>
        ensures { IfOk result (λ list. list ≡ self.now) }
    {
        Ok(SmlList {
            entries: Vec::from_slice(alloc, &self.entries)?,
        })
    }
}

impl ByKey<Hash256> for SmlEntry {
    ghost key_of = { λ entry. entry.hash };

    ghost has = { has_hash };

    ghost is_key = { entry_key };

    fn key(&self) -> &Hash256 {
        &self.hash
    }

    fn has_key(&self, hash: &Hash256) -> bool {
        self.hash == *hash
    }
}

#[tactic(auto, unfolding(crate::specs::Defs::leaf))]
fn leaf(entry: &SmlEntry) -> Hash256
    ensures { result ≡ leaf entry.now }
{
    digest(entry)
}

/// The root of a list: the Merkle root of the hashes of its entries' texts. They are made one by one, which takes no
/// memory (DIP-0004).
pub fn list_root(_alloc: Global, list: &SmlList) -> Result<Hash256, Memory>
    ensures { result ≡ Ok (root_of list.now) }
{
    let mut builder = RootBuilder::new();
    for entry in list.entries() {
        builder.push(&leaf(entry));
    }
    Ok(builder.finish())
}
