//! What is held of one height, and of all.

ghost use Rattle.std.specs.Prelude.{◌≡◌, ◌<◌, ◌∷◌, ◌++◌, ◌-◌, ◌+◌, ◌≤◌, ℕ, [], IfOk, IfSome, OnOk, drop, length, map, slice_get, take};
ghost use Rattle.std.specs.List.{position};
ghost use Rattle.std.specs.Str.{bytes_eq};
ghost use Rattle.dmn_branch.specs.Compact.{height_after, AreMade, HasVersion};
ghost use Rattle.dmn_branch.specs.Items.{held_of, version_at};

use crate::compaction::Compaction;
use dmn_bytes::{Hash256, Memory};
use dmn_held::CoinbasePart;
use dmn_indexes::Version;
use std::alloc::Global;
use std::marker::Model;

/// One height as a step takes it and makes it: its version, with the hash of its block, the root to which the block
/// commits, and how many nodes the arenas had then.
#[derive(Clone, Copy, Debug)]
pub struct HeightVersion {
    pub height: u32,
    pub hash: Hash256,
    pub root: Hash256,
    pub version: Version,
    pub marks: [u64; 8],
}

/// What is held of one height: the hash of its block, the root to which the block commits, its version, what proves its
/// coinbase, which none has at the height before the first block, and how many nodes the arenas had then.
#[derive(Debug, Drop)]
pub struct Held {
    pub hash: Hash256,
    pub root: Hash256,
    pub version: Version,
    pub coinbase: Option<CoinbasePart>,
    pub marks: [u64; 8],
}

/// The version after a block, and how many events the block had.
#[derive(Clone, Copy, Debug)]
pub struct Stepped {
    pub next: HeightVersion,
    pub events: u64,
}

/// What is to be held of a block's height, which is not added yet, and how many events the block had.
#[derive(Debug, Drop)]
pub struct Prepared {
    pub(crate) next: Held,
    pub(crate) events: u64,
}

impl HeightVersion {
    /// What is to be held of this height, with its coinbase.
    pub fn with_coinbase(self, coinbase: Option<CoinbasePart>) -> Held
        ensures { result ≡ held_of self coinbase }
    {
        let marks = self.marks;
        Held {
            hash: self.hash,
            root: self.root,
            version: self.version,
            coinbase,
            marks,
        }
    }
}

impl Held {
    /// The same as a step takes it; this is the height.
    pub fn at(&self, height: u32) -> HeightVersion
        ensures { result ≡ version_at height self.now }
    {
        HeightVersion {
            height,
            hash: self.hash,
            root: self.root,
            version: self.version,
            marks: self.marks,
        }
    }
}

// The place of the height whose block has the hash.
fn place_in(held: &[Held], hash: &Hash256) -> Option<usize>
    ensures { result ≡ position (λ h. bytes_eq h.hash.0 hash.now.0) held.now }
{
    held.iter().position(|held| held.hash == *hash)
}

/// What is held of each height, from the lowest one that is held to the tip's. Contracts see the list, and how many more
/// there is room for.
#[derive(Debug, Drop)]
pub struct HeldList {
    pub(crate) items: Vec<Held>,
}

impl Model for HeldList {
    ghost use Rattle.std.specs.Prelude.{◌-◌, vec_capacity, vec_len};
    ghost use Rattle.dmn_branch.specs.Items.{HeldItems};

    ghost Value = { HeldItems };

    ghost view = { λ l. record { held = l.items.items; room = vec_capacity l.items - vec_len l.items } };
}

impl HeldList {
    /// None, which takes no memory.
    pub fn new(alloc: Global) -> HeldList
        ensures { result.held ≡ [] }
    {
        HeldList {
            items: Vec::new(alloc),
        }
    }

    /// How many heights are held.
    pub fn len(&self) -> usize
        ensures { result ≡ length self.now.held }
    {
        self.items.len()
    }

    /// What is held of a height, by its place.
    pub fn get(&self, place: usize) -> &Held
        requires { place < length self.now.held }
        ensures { slice_get self.now.held place ≡ Some result.now }
    {
        &self.items[place]
    }

    /// The place of the height whose block has the hash.
    pub fn place_of(&self, hash: &Hash256) -> Option<usize>
        ensures place { result ≡ position (λ h. bytes_eq h.hash.0 hash.now.0) self.now.held }
        ensures inside { IfSome result (λ place. place < length self.now.held) }
    {
        place_in(&self.items, hash)
    }

    /// Makes room for one more.
    pub fn reserve(&mut self) -> Result<(), Memory>
        ensures held { self.new.held ≡ self.old.held }
        ensures room { OnOk result (0 < self.new.room) }
    {
        self.items.reserve(1).map_err(|_| Memory)
    }

    /// Adds one behind the others, for which there is room.
    pub fn push_reserved(&mut self, held: Held)
        requires { 0 < self.old.room }
        ensures { self.new.held ≡ self.old.held ++ held ∷ [] }
    {
        self.items.push_reserved(held);
    }

    /// Adds one behind the others.
    pub fn push(&mut self, held: Held) -> Result<(), Memory>
        ensures { OnOk result (self.new.held ≡ self.old.held ++ held ∷ []) }
    {
        self.items.push(held).map_err(|_| Memory)
    }

    /// Of what is held from one height on, keeps what is from another on, which is at most one height above it.
    pub fn keep_from(&mut self, height: u32, low: u32)
        requires some { 0 < length self.old.held }
        requires next { low ≤ height + 1 }
        ensures { self.new.held ≡ drop (low - height) self.old.held }
    {
        if height < low {
            self.items.remove(0);
        }
    }

    /// Drops the last one.
    pub fn pop(&mut self)
        ensures { self.new.held ≡ take (length self.old.held - 1) self.old.held }
    {
        self.items.pop();
    }

    /// The version of each height.
    pub fn versions(&self, alloc: Global) -> Result<Vec<Version>, Memory>
        ensures { IfOk result (λ versions. versions.items ≡ map (λ h. h.version) self.now.held) }
    {
        let mut versions = Vec::new(alloc);
        for held in &self.items {
            versions.push(held.version).map_err(|_| Memory)?;
        }
        Ok(versions)
    }

    /// Gives each height its new roots, which stand first, and its new marks.
    pub fn renew(&mut self, made: &Compaction)
        requires { (place : ℕ) → place < length self.old.held → HasVersion made.now place }
        ensures { AreMade (height_after made.now) self.old.held self.new.held }
    {
        for (place, height) in self.items.iter_mut().enumerate() {
            height.version = made.version(place);
            height.marks = made.marks(&height.marks);
        }
    }
}
