//! The version before the first block.

ghost use Rattle.std.specs.Prelude.{◌≡◌, ◌-◌, [], None, OnOk, IfOk};
ghost use Rattle.dmn_indexes.specs.Marks.{marks_of};
ghost use Rattle.dmn_indexes.specs.Version as versions;
ghost use Rattle.dmn_rows.specs.Defs.{KeepsBounds};
ghost use Rattle.dmn_rows.specs.Listing.{OutputsAscend};
ghost use Rattle.dmn_rows.specs.Rows.{put_output};
ghost use Rattle.dmn_branch.specs.Stands.{first_kept, kept_in};

use crate::held::Held;
use dmn_bytes::{Hash256, Memory};
use dmn_indexes::{Indexes, Version, Working};
use dmn_rows::{StartOutput, StartRecord};
use std::alloc::Global;
use std::mem;

// Puts outputs that ascend into an empty list.
fn put_all(list: &mut Working, outputs: &[StartOutput]) -> Result<(), Memory>
    requires rows { list.old.rows ≡ [] }
    requires outputs { list.old.outputs ≡ [] }
    requires ascending { OutputsAscend outputs.now }
    ensures rows { OnOk result (list.new.rows ≡ []) }
    ensures outputs { OnOk result (list.new.outputs ≡ outputs.now) }
{
    for place in 0..outputs.len() {
        put_one(list, &outputs[place])?;
    }
    Ok(())
}

fn put_one(list: &mut Working, output: &StartOutput) -> Result<(), Memory>
    ensures rows { OnOk result (list.new.rows ≡ list.old.rows) }
    ensures outputs { OnOk result (list.new.outputs ≡ put_output output.now.point output.now.pay list.old.outputs) }
{
    list.put_output(&output.point, output.pay)
}

/// The version before the first block, in empty arenas: no rows, and the outputs of the start record.
pub fn origin(alloc: Global, start: &StartRecord, indexes: &mut Indexes) -> Result<Held, Memory>
    requires bounds { KeepsBounds start.now }
    requires ascending { OutputsAscend start.now.outputs }
    ensures list { IfOk result (λ held. kept_in indexes.new (start.now.first - 1) held ≡ first_kept start.now) }
    ensures coinbase { IfOk result (λ held. held.coinbase ≡ None) }
    ensures version { IfOk result (λ held. versions.IsWhole indexes.new held.version) }
    ensures marks { IfOk result (λ held. held.marks ≡ marks_of indexes.new) }
{
    *indexes = Indexes::new(alloc);
    let mut list = Working::new(
        mem::replace(&mut *indexes, Indexes::new(alloc)),
        Version::empty(),
    );
    put_all(&mut list, start.outputs.as_slice())?;
    let version = list.version();
    *indexes = list.into_indexes();
    Ok(Held {
        hash: start.hash,
        root: Hash256([0; 32]),
        version,
        coinbase: None,
        marks: indexes.marks(),
    })
}
