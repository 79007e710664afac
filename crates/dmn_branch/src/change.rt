//! How the list of one height differs from that of another.

ghost use Rattle.std.specs.Prelude.{◌≡◌, IfOk};
ghost use Rattle.dmn_bytes.specs.Points.{hash_cmp};
ghost use Rattle.dmn_indexes.specs.Version.{values};
ghost use Rattle.dmn_versions.specs.Trees.{IsSound, reads};
ghost use Rattle.dmn_branch.specs.Parts.{same_row};
ghost use Rattle.dmn_walk.specs.Delta.{gone_of, put_of};

use dmn_bytes::{Hash256, Items, Memory};
use dmn_indexes::Indexes;
use dmn_rows::MnRow;
use dmn_versions::Root;
use dmn_walk::changes;
use std::alloc::Global;

/// How the list of one height, the target, differs from that of another, the base.
#[derive(Debug, Drop)]
pub struct RowChange {
    /// The hashes that are in the base's list alone, ascending.
    pub gone: Vec<Hash256>,
    /// Rows of the target's list, among them each whose entry of the simplified list is new or differs, by ascending hashes. A
    /// row's penalty is that after the block `penalty_at`.
    pub put: Vec<MnRow>,
}

// The rows of pairs.
fn rows_of(alloc: Global, pairs: &[(Hash256, MnRow)]) -> Result<Vec<MnRow>, Memory>
    ensures { IfOk result (λ rows. rows.items ≡ values pairs.now) }
{
    let mut rows = Vec::new(alloc);
    for pair in pairs {
        rows.push(pair.1).map_err(|_| Memory)?;
    }
    Ok(rows)
}

/// How a tree of rows differs from an older one. What both share is not walked.
pub(crate) fn change(
    alloc: Global,
    indexes: &Indexes,
    base: Root,
    target: Root,
) -> Result<RowChange, Memory>
    requires base { IsSound hash_cmp indexes.now.rows.nodes.items base.0 }
    requires target { IsSound hash_cmp indexes.now.rows.nodes.items target.0 }
    ensures gone { IfOk result (λ change. change.gone.items ≡ gone_of hash_cmp (reads indexes.now.rows base) (reads indexes.now.rows target)) }
    ensures put { IfOk result (λ change. change.put.items ≡ values (put_of hash_cmp same_row (reads indexes.now.rows base) (reads indexes.now.rows target))) }
{
    let delta = changes(alloc, &indexes.rows, base, target)?;
    let put = rows_of(alloc, delta.put.as_slice())?;
    Ok(RowChange {
        gone: delta.gone.into_vec(),
        put,
    })
}
