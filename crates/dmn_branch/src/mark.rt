//! Who is paid, and the mark that it was.

ghost use Rattle.std.specs.Prelude.{◌≡◌, ◌+◌, OnOk, find, is_some};
ghost use Rattle.dmn_indexes.specs.Working.{Leads, counted};
ghost use Rattle.dmn_rows.specs.Rows.{has_hash};
ghost use Rattle.dmn_standing.specs.Payment as standing;
ghost use Rattle.dmn_standing.specs.Standing.{paid};
ghost use Rattle.dmn_branch.specs.Events.{once_there};
ghost use Rattle.dmn_branch.specs.Parts.{IsWorking};
ghost use Rattle.dmn_branch.specs.Step.{marked};

use dmn_bytes::{Hash256, Memory};
use dmn_indexes::Working;
use dmn_rows::{Look, MnRow};

/// Who is paid next by a list.
pub fn payee(list: &Working) -> Option<Hash256>
    ensures { result ≡ standing.payee list.now.rows }
{
    match list.least_pay(0) {
        Some(row) => Some(row.hash),
        None => None,
    }
}

/// Marks a masternode as paid at a height, where its row is there.
#[tactic(auto, using(dmn_indexes::proofs::Counting::leads_none))]
pub fn mark(payee: &Option<Hash256>, height: u32, list: &mut Working) -> Result<(), Memory>
    requires { IsWorking height list.old.rows }
    ensures rows { OnOk result (list.new.rows ≡ marked height payee.now list.old.rows) }
    ensures outputs { OnOk result (list.new.outputs ≡ list.old.outputs) }
    ensures events { OnOk result (list.new.events ≡ list.old.events + once_there payee.now list.old.rows) }
    ensures working { OnOk result (IsWorking height list.new.rows) }
    ensures leads { Leads list.old list.new }
{
    match payee {
        None => Ok(()),
        Some(hash) => mark_row(hash, height, list),
    }
}

#[tactic(auto, using(dmn_indexes::proofs::Counting::leads_none))]
fn mark_row(hash: &Hash256, height: u32, list: &mut Working) -> Result<(), Memory>
    requires { IsWorking height list.old.rows }
    ensures rows { OnOk result (list.new.rows ≡ paid height hash.now list.old.rows) }
    ensures outputs { OnOk result (list.new.outputs ≡ list.old.outputs) }
    ensures events { OnOk result (list.new.events ≡ list.old.events + counted (is_some (find (has_hash hash.now) list.old.rows))) }
    ensures working { OnOk result (IsWorking height list.new.rows) }
    ensures leads { Leads list.old list.new }
{
    let row = match list.row(hash) {
        None => return Ok(()),
        Some(row) => MnRow {
            last_paid: height,
            ..*row
        },
    };
    list.set_row(&row)
}
