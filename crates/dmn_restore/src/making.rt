//! The trees of all heights of a snapshot.

ghost use Rattle.std.specs.Prelude.{◌≡◌, ◌+◌, ◌<◌, ◌^◌, [], ◌∷◌, ◌++◌, IfErr, IfOk, OnOk, length, map};
ghost use Rattle.dmn_held.specs.Defs.{IsHeld};
ghost use Rattle.dmn_indexes.specs.Marks.{marks_of};
ghost use Rattle.dmn_indexes.specs.Version.{IsWhole, Keeps, rows_in};
ghost use Rattle.dmn_indexes.specs.Working.{listing};
ghost use Rattle.dmn_restore.specs.Lists.{lists_of, lowest_list, next_list};
ghost use Rattle.dmn_restore.specs.Proper.{AreProper, HasPenaltiesTo, IsProper};
ghost use Rattle.dmn_restore.specs.Restored.{AreSound, list_in, listing_in};
ghost use Rattle.dmn_rows.specs.Listing.{IsAscending};

use crate::fault::DataFault;
use crate::height::{go_on, put_all};
use dmn_bytes::Memory;
use dmn_held::{HeightData, SnapshotData};
use dmn_indexes::{Indexes, Version, Working};
use std::alloc::Global;
use std::mem;

/// The trees of a height, and how many nodes each arena had when they were made.
#[derive(Clone, Copy, Debug)]
pub struct Marked {
    pub version: Version,
    pub marks: [u64; 8],
}

/// The trees of all heights of a snapshot, from the lowest height to the tip's, in arenas of their own.
#[derive(Drop)]
pub struct Restored {
    pub indexes: Indexes,
    pub versions: Vec<Marked>,
}

// Gives back the arenas of a list that is made, and marks its version.
fn mark(list: Working, indexes: &mut Indexes) -> Marked
    ensures list { listing_in indexes.new result.version ≡ listing list }
    ensures whole { IsWhole indexes.new result.version }
    ensures marks { result.marks ≡ marks_of indexes.new }
    ensures arenas { indexes.new ≡ list.indexes }
{
    let version = list.version();
    *indexes = list.into_indexes();
    Marked {
        version,
        marks: indexes.marks(),
    }
}

// The trees of the lowest height, in arenas of their own.
fn make_lowest(
    alloc: Global,
    indexes: &mut Indexes,
    held: &SnapshotData,
) -> Result<Marked, DataFault>
    ensures list { IsHeld held.now → IfOk result (λ made. list_in indexes.new made ≡ lowest_list held.now) }
    ensures whole { IfOk result (λ made. IsWhole indexes.new made.version) }
    ensures proper { IfOk result (λ made. IsProper held.now.low (list_in indexes.new made)) }
    ensures marks { IfOk result (λ made. made.marks ≡ marks_of indexes.new) }
    ensures misfit { IsHeld held.now → IsProper held.now.low (lowest_list held.now) → IfErr result (λ fault. fault ≡ DataFault.Memory) }
{
    let mut list = Working::new(Indexes::new(alloc), Version::empty());
    let rows = held.rows.as_slice();
    put_all(&mut list, rows, held.outputs.as_slice(), held.low)?;
    Ok(mark(list, indexes))
}

// The trees of a height, in the arenas in which those of the height before it stand.
fn make_next(
    alloc: Global,
    indexes: &mut Indexes,
    version: Version,
    change: &HeightData,
    height: u32,
) -> Result<Marked, DataFault>
    requires whole { IsWhole indexes.old version }
    requires penalties { HasPenaltiesTo height (rows_in indexes.old version) }
    ensures list { IfOk result (λ made. list_in indexes.new made ≡ next_list (listing_in indexes.old version) change.now) }
    ensures whole { IfOk result (λ made. IsWhole indexes.new made.version) }
    ensures proper { IfOk result (λ made. IsProper height (list_in indexes.new made)) }
    ensures marks { IfOk result (λ made. made.marks ≡ marks_of indexes.new) }
    ensures keeps { OnOk result (Keeps indexes.old indexes.new) }
    ensures misfit { IsAscending change.now.put → IsProper height (next_list (listing_in indexes.old version) change.now) → IfErr result (λ fault. fault ≡ DataFault.Memory) }
{
    let arenas = mem::replace(&mut *indexes, Indexes::new(alloc));
    let mut list = Working::new(arenas, version);
    go_on(&mut list, change, height)?;
    Ok(mark(list, indexes))
}

// Adds the trees of a height behind the others.
fn add(versions: &mut Vec<Marked>, made: Marked) -> Result<(), Memory>
    ensures { OnOk result (versions.new.items ≡ versions.old.items ++ made ∷ []) }
{
    versions.push(made).map_err(|_| Memory)
}

/// Makes the trees of all heights.
pub fn restore(alloc: Global, held: &SnapshotData) -> Result<Restored, DataFault>
    requires { held.now.low + length held.now.heights < 2 ^ 32 }
    // They are those of what is held. Each list has distinct keys, no penalty of a later height, and not too many rows and outputs.
    ensures lists { IsHeld held.now → IfOk result (λ made. map (list_in made.indexes) made.versions.items ≡ lists_of held.now) }
    ensures proper { IfOk result (λ made. AreProper held.now.low (map (list_in made.indexes) made.versions.items)) }
    ensures sound { IfOk result (λ made. AreSound made.indexes made.versions.items) }
    ensures long { IfOk result (λ made. length made.versions.items ≡ length held.now.heights + 1) }
    // It is a misfit only where a list is not so.
    ensures misfit { IsHeld held.now → AreProper held.now.low (lists_of held.now) → IfErr result (λ fault. fault ≡ DataFault.Memory) }
{
    let mut indexes = Indexes::new(alloc);
    let lowest = make_lowest(alloc, &mut indexes, held)?;
    let mut versions = Vec::new(alloc);
    add(&mut versions, lowest)?;
    let mut last = lowest.version;
    let mut height = held.low;
    let heights = held.heights.as_slice();
    for place in 0..heights.len() {
        height += 1;
        let made = make_next(alloc, &mut indexes, last, &heights[place], height)?;
        add(&mut versions, made)?;
        last = made.version;
    }
    Ok(Restored { indexes, versions })
}
