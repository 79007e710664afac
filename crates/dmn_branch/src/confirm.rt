//! Rows that have waited long enough are confirmed.

ghost use Rattle.std.specs.Prelude.{◌≡◌, ◌+◌, false, OnOk};
ghost use Rattle.dmn_bytes.specs.Points.{is_zero};
ghost use Rattle.dmn_indexes.specs.Working.{Leads};
ghost use Rattle.dmn_rows.specs.Profile.{confirm_wait};
ghost use Rattle.dmn_standing.specs.Standing.{confirmed};
ghost use Rattle.dmn_branch.specs.Events.{confirmations};
ghost use Rattle.dmn_branch.specs.Parts.{IsWorking};

use dmn_bytes::{Hash256, Memory};
use dmn_indexes::Working;
use dmn_rows::MnRow;

/// Confirms the rows that are due at a height by the hash of the block before. Only these are touched.
#[tactic(auto, using(dmn_indexes::proofs::Counting::leads_none, dmn_indexes::proofs::Counting::leads_then))]
pub fn confirm(height: u32, hash: &Hash256, list: &mut Working) -> Result<(), Memory>
    requires working { IsWorking height list.old.rows }
    requires hash { is_zero hash.now.0 ≡ false }
    ensures rows { OnOk result (list.new.rows ≡ confirmed confirm_wait height hash.now list.old.rows) }
    ensures outputs { OnOk result (list.new.outputs ≡ list.old.outputs) }
    ensures events { OnOk result (list.new.events ≡ list.old.events + confirmations confirm_wait height list.old.rows) }
    ensures working { OnOk result (IsWorking height list.new.rows) }
    ensures leads { Leads list.old list.new }
{
    while let Some(row) = list.due(height) {
        let confirmed = MnRow {
            confirmed: *hash,
            ..*row
        };
        list.set_row(&confirmed)?;
    }
    Ok(())
}
