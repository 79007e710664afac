//! What changed in the list between two heights.

ghost use Rattle.std.specs.Prelude.{◌≡◌, IfOk, IfSome};
ghost use Rattle.dmn_branch.specs.Asked.{rows_at};
ghost use Rattle.dmn_branch.specs.Machine.{MachineState};
ghost use Rattle.dmn_branch.specs.Stands.{IsHeld, StandsFor};
ghost use Rattle.dmn_diff.specs.Rows.{is_row_told};
ghost use Rattle.dmn_desk.specs.Ask.{entries_told};
ghost use Rattle.dmn_desk.specs.Kept.{IsChange};

use crate::changes::Heights;
use crate::list::add_entry;
use dmn_branch::Branch;
use dmn_bytes::{Items, Memory};
use dmn_diff::ListChange;
use dmn_rows::MnRow;
use dmn_sml::{SmlEntry, entry_of};
use std::alloc::Global;

// Whether the list of the base has no entry of this row's hash, or another one.
fn is_told(branch: &Branch, from: Option<u32>, row: &MnRow) -> bool
    requires { IfSome from (IsHeld branch.now) }
    ensures { (m : MachineState) → StandsFor branch.now m → result ≡ is_row_told (rows_at m from) row.now }
{
    match from {
        None => true,
        Some(height) => match branch.row_at(height, &row.hash) {
            None => true,
            Some(old) => entry_of(row) != entry_of(old),
        },
    }
}

// The entries of those rows that are new since the base, or whose entry changed.
fn entries_told(
    alloc: Global,
    branch: &Branch,
    from: Option<u32>,
    rows: &[MnRow],
) -> Result<Items<SmlEntry>, Memory>
    requires { IfSome from (IsHeld branch.now) }
    ensures { IfOk result (λ entries. (m : MachineState) → StandsFor branch.now m → entries ≡ entries_told (rows_at m from) rows.now) }
{
    let mut entries = Vec::new(alloc);
    for row in rows {
        if is_told(branch, from, row) {
            add_entry(&mut entries, row)?;
        }
    }
    Ok(Items::from_vec(entries))
}

/// What changes between the lists of two heights, by a walk that does not enter what they share.
pub fn walk(alloc: Global, branch: &Branch, heights: Heights) -> Result<ListChange, Memory>
    requires base { IfSome heights.base (IsHeld branch.now) }
    requires target { IsHeld branch.now heights.target }
    ensures { (m : MachineState) → StandsFor branch.now m → IfOk result (IsChange m heights) }
{
    let change = branch.changes_at(alloc, heights.base, heights.target)?;
    let entries = entries_told(alloc, branch, heights.base, &change.put)?;
    Ok(ListChange {
        deleted: Items::from_vec(change.gone),
        entries,
    })
}
