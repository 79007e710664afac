//! Rows and outputs, taken away and put one by one.

ghost use Rattle.std.specs.Prelude.{◌≡◌, ◌↔◌, ◌≤◌, IfErr, IsTrue, OnOk, map};
ghost use Rattle.dmn_indexes.specs.Version.{Keeps};
ghost use Rattle.dmn_rows.specs.Distinct.{HasDistinctKeys};
ghost use Rattle.dmn_rows.specs.Listing.{IsAscending, OutputsAscend};
ghost use Rattle.dmn_rows.specs.Rows.{put_row};
ghost use Rattle.dmn_rows.specs.Sorted.{put_sorted};
ghost use Rattle.dmn_rows.specs.Start.{point_of};
ghost use Rattle.dmn_bytes.specs.Points.{point_cmp};
ghost use Rattle.dmn_restore.specs.Lists.{hash_of, outputs_with, outputs_without, rows_with, rows_without};
ghost use Rattle.dmn_restore.specs.Proper.{HasPenaltiesTo};
ghost use Rattle.dmn_restore.specs.Puts.{HasFreeKeys, MayPut, MayPutAll};

use crate::fault::DataFault;
use dmn_bytes::{Hash256, Memory, OutPoint};
use dmn_indexes::Working;
use dmn_rows::{Look, MnRow, StartOutput};

/// Takes the rows of these hashes away.
#[tactic(auto, using(crate::proofs::Steps::keeps_none, dmn_indexes::proofs::Whole::keeps_then))]
pub(crate) fn drop_rows(list: &mut Working, hashes: &[Hash256]) -> Result<(), Memory>
    ensures rows { OnOk result (list.new.rows ≡ rows_without hashes.now list.old.rows) }
    ensures outputs { OnOk result (list.new.outputs ≡ list.old.outputs) }
    ensures keeps { OnOk result (Keeps list.old.indexes list.new.indexes) }
{
    for place in 0..hashes.len() {
        list.drop_row(&hashes[place])?;
    }
    Ok(())
}

/// Takes the rows away that have the hashes of these.
#[tactic(auto, using(crate::proofs::Steps::keeps_none, dmn_indexes::proofs::Whole::keeps_then))]
pub(crate) fn drop_rows_of(list: &mut Working, rows: &[MnRow]) -> Result<(), Memory>
    ensures rows { OnOk result (list.new.rows ≡ rows_without (map hash_of rows.now) list.old.rows) }
    ensures outputs { OnOk result (list.new.outputs ≡ list.old.outputs) }
    ensures keeps { OnOk result (Keeps list.old.indexes list.new.indexes) }
{
    for place in 0..rows.len() {
        list.drop_row(&rows[place].hash)?;
    }
    Ok(())
}

/// Takes the outputs at these outpoints away.
#[tactic(auto, using(crate::proofs::Steps::keeps_none, dmn_indexes::proofs::Whole::keeps_then))]
pub(crate) fn drop_outputs(list: &mut Working, points: &[OutPoint]) -> Result<(), Memory>
    ensures rows { OnOk result (list.new.rows ≡ list.old.rows) }
    ensures outputs { OnOk result (list.new.outputs ≡ outputs_without points.now list.old.outputs) }
    ensures keeps { OnOk result (Keeps list.old.indexes list.new.indexes) }
{
    for place in 0..points.len() {
        list.drop_output(&points[place])?;
    }
    Ok(())
}

// Whether no row has a key of this one.
fn is_free(list: &Working, row: &MnRow) -> bool
    ensures { IsTrue result ↔ HasFreeKeys row.now list.now.rows }
{
    list.by_owner(&row.owner).is_none()
        && list.by_operator(&row.operator).is_none()
        && list.by_service(&row.service).is_none()
        && list.by_collateral(&row.collateral).is_none()
}

// Puts a row, where no other one has a key of it and its penalty is not that of a later height.
fn put_row(list: &mut Working, row: &MnRow, height: u32) -> Result<(), DataFault>
    requires ascending { IsAscending list.old.rows }
    requires keys { HasDistinctKeys list.old.rows }
    requires penalties { HasPenaltiesTo height list.old.rows }
    ensures rows { OnOk result (list.new.rows ≡ put_row row.now list.old.rows) }
    ensures outputs { OnOk result (list.new.outputs ≡ list.old.outputs) }
    ensures keeps { OnOk result (Keeps list.old.indexes list.new.indexes) }
    ensures ascending { OnOk result (IsAscending list.new.rows) }
    ensures keys { OnOk result (HasDistinctKeys list.new.rows) }
    ensures penalties { OnOk result (HasPenaltiesTo height list.new.rows) }
    ensures misfit { MayPut height row.now list.old.rows → IfErr result (λ fault. fault ≡ DataFault.Memory) }
{
    if row.penalty_at > height || !is_free(list, row) {
        return Err(DataFault::Misfit);
    }
    list.put_row(row)?;
    Ok(())
}

/// Puts rows, where no other one has a key of one of them and no penalty is that of a later height.
#[tactic(auto, using(crate::proofs::Steps::keeps_none, dmn_indexes::proofs::Whole::keeps_then))]
pub(crate) fn put_rows(list: &mut Working, rows: &[MnRow], height: u32) -> Result<(), DataFault>
    requires ascending { IsAscending list.old.rows }
    requires keys { HasDistinctKeys list.old.rows }
    requires penalties { HasPenaltiesTo height list.old.rows }
    ensures rows { OnOk result (list.new.rows ≡ rows_with rows.now list.old.rows) }
    ensures outputs { OnOk result (list.new.outputs ≡ list.old.outputs) }
    ensures keeps { OnOk result (Keeps list.old.indexes list.new.indexes) }
    ensures keys { OnOk result (HasDistinctKeys list.new.rows) }
    ensures penalties { OnOk result (HasPenaltiesTo height list.new.rows) }
    ensures misfit { MayPutAll height rows.now list.old.rows → IfErr result (λ fault. fault ≡ DataFault.Memory) }
{
    for place in 0..rows.len() {
        put_row(list, &rows[place], height)?;
    }
    Ok(())
}

// Puts an output in its place, or in that of the one at its outpoint.
#[tactic(auto, using(crate::proofs::Steps::set_is_put, dmn_indexes::proofs::Whole::keeps_then))]
fn set_output(list: &mut Working, output: &StartOutput) -> Result<(), Memory>
    requires { OutputsAscend list.old.outputs }
    ensures rows { OnOk result (list.new.rows ≡ list.old.rows) }
    ensures outputs { OnOk result (list.new.outputs ≡ put_sorted point_cmp point_of output.now list.old.outputs) }
    ensures ascending { OnOk result (OutputsAscend list.new.outputs) }
    ensures keeps { OnOk result (Keeps list.old.indexes list.new.indexes) }
{
    list.drop_output(&output.point)?;
    list.put_output(&output.point, output.pay)
}

/// Puts outputs, each in its place, or in that of the one at its outpoint.
#[tactic(auto, using(crate::proofs::Steps::keeps_none, dmn_indexes::proofs::Whole::keeps_then))]
pub(crate) fn set_outputs(list: &mut Working, outputs: &[StartOutput]) -> Result<(), Memory>
    requires { OutputsAscend list.old.outputs }
    ensures rows { OnOk result (list.new.rows ≡ list.old.rows) }
    ensures outputs { OnOk result (list.new.outputs ≡ outputs_with outputs.now list.old.outputs) }
    ensures keeps { OnOk result (Keeps list.old.indexes list.new.indexes) }
{
    for place in 0..outputs.len() {
        set_output(list, &outputs[place])?;
    }
    Ok(())
}
