//! What changes from one height to the next, told by their trees.

ghost use Rattle.std.specs.Prelude.{◌≡◌, ◌∷◌, ◌++◌, [], IfOk, IsSome, OnOk, find, map};
ghost use Rattle.std.specs.List.{All, AllByRecursion};
ghost use Rattle.dmn_bytes.specs.Points.{out_point};
ghost use Rattle.dmn_held.specs.Lists.{outputs_field, rows_field};
ghost use Rattle.dmn_indexes.specs.Version.{IsWhole, outputs_in, outputs_of, rows_in, values};
ghost use Rattle.dmn_restore.specs.Formed.{HasFormedPay, IsFormed, IsInForm};
ghost use Rattle.dmn_restore.specs.Lists.{next_outputs, next_rows};
ghost use Rattle.dmn_restore.specs.Restored.{listing_in};
ghost use Rattle.dmn_rows.specs.Rows.{has_hash, has_point};

use crate::fields::{check_pays, hashes_fit, outputs_fit, points_fit, rows_fit};
use dmn_bytes::{Hash256, Items, Memory, OutPoint, Pay};
use dmn_indexes::{Indexes, Version};
use dmn_rows::{MnRow, StartOutput};
use dmn_versions::Root;
use dmn_walk::{Delta, changes};
use std::alloc::Global;

/// How the list of one height differs from that of another, as a snapshot tells it.
#[derive(Debug, Drop)]
pub struct Difference {
    /// The rows that are new or differ, by ascending hashes.
    pub put: Items<MnRow>,
    /// The hashes of the rows that are gone, ascending.
    pub removed: Items<Hash256>,
    /// The outputs that are new or differ, by ascending outpoints.
    pub added: Items<StartOutput>,
    /// The outpoints of the outputs that are gone, ascending.
    pub spent: Items<OutPoint>,
}

/// A whole list of rows and of outputs.
#[derive(Debug, Drop)]
pub struct Lists {
    /// By ascending hashes.
    pub rows: Items<MnRow>,
    /// By ascending outpoints.
    pub outputs: Items<StartOutput>,
}

// The rows of pairs.
fn rows_of(alloc: Global, pairs: &[(Hash256, MnRow)]) -> Result<Vec<MnRow>, Memory>
    ensures { IfOk result (λ rows. rows.items ≡ values pairs.now) }
{
    let mut rows = Vec::new(alloc);
    for pair in pairs {
        rows.push(pair.1).map_err(|_| Memory)?;
    }
    Ok(rows)
}

// The outputs of pairs.
fn outputs_of(alloc: Global, pairs: &[(OutPoint, Pay)]) -> Result<Vec<StartOutput>, Memory>
    ensures { IfOk result (λ outputs. outputs.items ≡ outputs_of pairs.now) }
{
    let mut outputs = Vec::new(alloc);
    for pair in pairs {
        let output = StartOutput {
            point: pair.0,
            pay: pair.1,
        };
        outputs.push(output).map_err(|_| Memory)?;
    }
    Ok(outputs)
}

/// How the list of a version differs from that of an older one. Subtrees that both share are not walked.
pub fn difference_of(
    alloc: Global,
    indexes: &Indexes,
    old: &Version,
    new: &Version,
) -> Result<Difference, Memory>
    requires old { IsWhole indexes.now old.now }
    requires new { IsWhole indexes.now new.now }
    // It leads from the older list to the newer one.
    ensures rows { IfOk result (λ d. next_rows d.removed d.put (rows_in indexes.now old.now) ≡ rows_in indexes.now new.now) }
    ensures outputs { IfOk result (λ d. next_outputs d.spent d.added (outputs_in indexes.now old.now) ≡ outputs_in indexes.now new.now) }
    // What is removed or spent was there.
    ensures removed { IfOk result (λ d. AllByRecursion (λ hash. IsSome (find (has_hash hash) (rows_in indexes.now old.now))) d.removed) }
    ensures spent { IfOk result (λ d. AllByRecursion (λ point. IsSome (find (has_point point) (outputs_in indexes.now old.now))) d.spent) }
    ensures form { IsFormed (listing_in indexes.now old.now) → IsFormed (listing_in indexes.now new.now) → IfOk result IsInForm }
{
    let rows: Delta<Hash256, MnRow> = changes(alloc, &indexes.rows, old.rows, new.rows)?;
    let outputs: Delta<OutPoint, Pay> = changes(alloc, &indexes.outputs, old.outputs, new.outputs)?;
    let put = rows_of(alloc, rows.put.as_slice())?;
    let added = outputs_of(alloc, outputs.put.as_slice())?;
    check_pays(put.as_slice(), added.as_slice())?;
    rows_fit(put.as_slice());
    outputs_fit(added.as_slice());
    hashes_fit(rows.gone.as_slice());
    points_fit(outputs.gone.as_slice());
    Ok(Difference {
        put: Items::from_vec(put),
        removed: rows.gone,
        added: Items::from_vec(added),
        spent: outputs.gone,
    })
}

/// The whole list of a version.
pub fn lists_of(alloc: Global, indexes: &Indexes, version: &Version) -> Result<Lists, Memory>
    requires { IsWhole indexes.now version.now }
    ensures rows { IfOk result (λ lists. lists.rows ≡ rows_in indexes.now version.now) }
    ensures outputs { IfOk result (λ lists. lists.outputs ≡ outputs_in indexes.now version.now) }
    ensures rows_form { IsFormed (listing_in indexes.now version.now) → IfOk result (λ lists. rows_field.Fits lists.rows) }
    ensures outputs_form { IsFormed (listing_in indexes.now version.now) → IfOk result (λ lists. outputs_field.Fits lists.outputs) }
{
    let rows: Delta<Hash256, MnRow> = changes(alloc, &indexes.rows, Root(0), version.rows)?;
    let outputs: Delta<OutPoint, Pay> = changes(alloc, &indexes.outputs, Root(0), version.outputs)?;
    let rows = rows_of(alloc, rows.put.as_slice())?;
    let outputs = outputs_of(alloc, outputs.put.as_slice())?;
    check_pays(rows.as_slice(), outputs.as_slice())?;
    rows_fit(rows.as_slice());
    outputs_fit(outputs.as_slice());
    Ok(Lists {
        rows: Items::from_vec(rows),
        outputs: Items::from_vec(outputs),
    })
}
