//! The list of one height, made of that of the height before it.

ghost use Rattle.std.specs.Prelude.{◌≡◌, ◌≤◌, IfErr, IsTrue, ◌↔◌, ◌&&◌, nat_le, OnOk, length, map};
ghost use Rattle.dmn_bytes.specs.declared.hash.Hash256.{Hash256};
ghost use Rattle.dmn_indexes.specs.Version.{Keeps};
ghost use Rattle.dmn_indexes.specs.Working.{listing};
ghost use Rattle.dmn_restore.specs.Lists.{hash_of, next_list, outputs_with, outputs_without, rows_with, rows_without};
ghost use Rattle.dmn_restore.specs.Proper.{HasPenaltiesTo, IsProper};
ghost use Rattle.dmn_restore.specs.Puts.{MayPutAll};
ghost use Rattle.dmn_rows.specs.declared.limits.TheConstants.{MOST_MASTERNODES, MOST_OUTPUTS};
ghost use Rattle.dmn_rows.specs.Distinct.{HasDistinctKeys};
ghost use Rattle.dmn_rows.specs.Listing.{IsAscending, OutputsAscend};

use crate::fault::DataFault;
use crate::puts::{drop_outputs, drop_rows, drop_rows_of, put_rows, set_outputs};
use dmn_bytes::Memory;
use dmn_held::HeightData;
use dmn_indexes::Working;
use dmn_rows::{MOST_MASTERNODES, MOST_OUTPUTS, MnRow, StartOutput};

// Whether there are no more rows and outputs than there may be.
fn has_few(list: &Working) -> bool
    ensures { result ≡ (nat_le (length list.now.rows) MOST_MASTERNODES && nat_le (length list.now.outputs) MOST_OUTPUTS) }
{
    list.rows_len() <= MOST_MASTERNODES as u64 && list.outputs_len() <= MOST_OUTPUTS as u64
}

/// Puts what is new or differs.
#[tactic(auto, using(dmn_indexes::proofs::Whole::keeps_then))]
pub(crate) fn put_all(
    list: &mut Working,
    rows: &[MnRow],
    outputs: &[StartOutput],
    height: u32,
) -> Result<(), DataFault>
    requires ascending { IsAscending list.old.rows }
    requires outputs { OutputsAscend list.old.outputs }
    requires keys { HasDistinctKeys list.old.rows }
    requires penalties { HasPenaltiesTo height list.old.rows }
    ensures rows { OnOk result (list.new.rows ≡ rows_with rows.now list.old.rows) }
    ensures outputs { OnOk result (list.new.outputs ≡ outputs_with outputs.now list.old.outputs) }
    ensures keeps { OnOk result (Keeps list.old.indexes list.new.indexes) }
    ensures proper { OnOk result (IsProper height (listing list.new)) }
    ensures misfit { MayPutAll height rows.now list.old.rows
        → length (rows_with rows.now list.old.rows) ≤ MOST_MASTERNODES
        → length (outputs_with outputs.now list.old.outputs) ≤ MOST_OUTPUTS
        → IfErr result (λ fault. fault ≡ DataFault.Memory) }
{
    put_rows(list, rows, height)?;
    set_outputs(list, outputs)?;
    if !has_few(list) {
        return Err(DataFault::Misfit);
    }
    Ok(())
}

// Takes away what is gone, and the rows that others replace: what is left is part of the next list, so that no key is there
// twice between two rows.
#[tactic(auto, using(dmn_indexes::proofs::Whole::keeps_then))]
fn drop_all(list: &mut Working, change: &HeightData) -> Result<(), Memory>
    ensures rows { OnOk result (list.new.rows ≡ rows_without (map hash_of change.now.put) (rows_without change.now.removed list.old.rows)) }
    ensures outputs { OnOk result (list.new.outputs ≡ outputs_without change.now.spent list.old.outputs) }
    ensures keeps { OnOk result (Keeps list.old.indexes list.new.indexes) }
{
    drop_rows(list, change.removed.as_slice())?;
    drop_rows_of(list, change.put.as_slice())?;
    drop_outputs(list, change.spent.as_slice())
}

/// Makes the list of a height.
#[tactic(auto, using(dmn_indexes::proofs::Whole::keeps_then))]
pub(crate) fn go_on(list: &mut Working, change: &HeightData, height: u32) -> Result<(), DataFault>
    requires ascending { IsAscending list.old.rows }
    requires outputs { OutputsAscend list.old.outputs }
    requires keys { HasDistinctKeys list.old.rows }
    requires penalties { HasPenaltiesTo height list.old.rows }
    ensures list { OnOk result (listing list.new ≡ next_list (listing list.old) change.now) }
    ensures proper { OnOk result (IsProper height (listing list.new)) }
    ensures keeps { OnOk result (Keeps list.old.indexes list.new.indexes) }
    ensures misfit { IsAscending change.now.put
        → IsProper height (next_list (listing list.old) change.now)
        → IfErr result (λ fault. fault ≡ DataFault.Memory) }
{
    drop_all(list, change)?;
    put_all(list, change.put.as_slice(), change.added.as_slice(), height)
}
