//! A list of masternodes, lent row by row.

ghost use Rattle.std.specs.Prelude.{◌≡◌, ◌≤◌, ⊤, length};
ghost use Rattle.std.specs.Iterator.{MakesProgress, YieldsFirstRef, item_count};
ghost use Rattle.dmn_indexes.specs.Version.{IsWhole, rows_in};
ghost use Rattle.dmn_branch.specs.Asked.{IsSameList};
ghost use Rattle.dmn_branch.specs.Step.{most_rows};

use crate::held::Held;
use dmn_bytes::Hash256;
use dmn_indexes::{Indexes, Version};
use dmn_rows::MnRow;
use std::marker::Model;

/// The rows of one height, in the order of their hashes. A row's penalty is that after the block `penalty_at`.
#[derive(Drop)]
pub struct Listing<'a> {
    hash: Hash256,
    root: Hash256,
    size: u32,
    rank: u32,
    indexes: &'a Indexes,
    version: Version,
}

impl<'a> Model for Listing<'a> {
    ghost use Rattle.std.specs.Prelude.{drop, length, ◌≡◌, ◌≤◌};
    ghost use Rattle.dmn_branch.specs.Asked.{Lent};
    ghost use Rattle.dmn_branch.specs.Step.{most_rows};
    ghost use Rattle.dmn_indexes.specs.Version.{IsWhole, rows_in};

    ghost Value = { Lent };

    ghost view = { λ a. record { hash = a.hash; root = a.root; size = a.size; rows = drop a.rank (rows_in a.indexes.now a.version) } };

    ghost invariant = { λ a. IsWhole a.indexes.now a.version × (a.size ≡ length (rows_in a.indexes.now a.version)) × (a.rank ≤ a.size) × (a.size ≤ most_rows) };
}

impl<'a> Listing<'a> {
    // The list of a height.
    pub(crate) fn of(indexes: &'a Indexes, held: &Held) -> Listing<'a>
        requires whole { IsWhole indexes.now held.now.version }
        requires few { length (rows_in indexes.now held.now.version) ≤ most_rows }
        ensures { result ≡ record { hash = held.now.hash; root = held.now.root; size = length (rows_in indexes.now held.now.version); rows = rows_in indexes.now held.now.version } }
    {
        Listing {
            hash: held.hash,
            root: held.root,
            size: indexes.rows.size(held.version.rows) as u32,
            rank: 0,
            indexes,
            version: held.version,
        }
    }

    /// How many rows the list has.
    pub fn size(&self) -> u32
        ensures size { result ≡ self.now.size }
        ensures few { self.now.size ≤ most_rows }
    {
        self.size
    }

    /// The hash of the block of its height.
    pub fn hash(&self) -> Hash256
        ensures { result ≡ self.now.hash }
    {
        self.hash
    }

    /// The root of the simplified list, to which the block commits; zero at the height before the first block.
    pub fn root(&self) -> Hash256
        ensures { result ≡ self.now.root }
    {
        self.root
    }
}

impl<'a> Iterator for Listing<'a> {
    type Item = &'a MnRow;

    ghost use Rattle.std.specs.Iterator.{YieldsFirstRef, item_count};

    ghost next_gives = { YieldsFirstRef (λ s. s.rows) };

    ghost remaining = { item_count (λ s. s.rows) };

    // The hash, the root and the size stay those of the whole list.
    fn next(&mut self) -> Option<&'a MnRow>
        ensures steps { YieldsFirstRef (λ s. s.rows) self.old result self.new }
        ensures goes { MakesProgress (λ _. ⊤) (item_count (λ s. s.rows)) self.old result self.new }
        ensures kept { IsSameList self.old self.new }
    {
        match self.indexes.rows.at_rank(self.version.rows, self.rank) {
            None => None,
            Some((_, row)) => {
                self.rank += 1;
                Some(row)
            }
        }
    }
}
