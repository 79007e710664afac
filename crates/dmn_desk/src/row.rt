//! The row of a masternode at a height, and its frame.

ghost use Rattle.std.specs.Prelude.{◌≡◌, ◌^◌, ◌<◌, ◌++◌, length, OnErr, OnOk};
ghost use Rattle.dmn_branch.specs.Machine.{MachineState};
ghost use Rattle.dmn_branch.specs.Stands.{StandsFor};
ghost use Rattle.dmn_rows.specs.Row.{plain};
ghost use Rattle.dmn_rows.specs.RowText.{HasLengths, row_text};
ghost use Rattle.dmn_desk.specs.Ask.{row_at};
ghost use Rattle.dmn_frames.specs.Frames.{framed};
ghost use Rattle.dmn_desk.specs.Texts.{IsBounded};

use crate::answer::{Answer, GrownAnswer, ShortAnswer};
use crate::body::head;
use crate::height::{is_held, not_held};
use dmn_branch::Branch;
use dmn_bytes::{Bytes, Hash256, Memory};
use dmn_rows::{MnRow, ROW_LENGTH, plain_at, row_text};

// The row with its penalty in force after the block of a height.
fn row_after(row: &MnRow, height: u32) -> MnRow
    ensures { result ≡ record (plain height row.now) { penalty_at = height } }
{
    MnRow {
        penalty_at: height,
        ..plain_at(row, height)
    }
}

/// The row of a masternode at a height, by the one that the branch lends.
pub fn row_at(branch: &Branch, height: u32, hash: &Hash256) -> Answer
    ensures answer { (m : MachineState) → StandsFor branch.now m → result ≡ row_at m height hash.now }
    ensures bounded { IsBounded result }
{
    let tip = branch.tip();
    if !is_held(&tip, height) {
        return not_held(&tip);
    }
    match branch.row_at(height, hash) {
        None => Answer::Short(ShortAnswer::NoSuch),
        Some(row) => Answer::Grown(GrownAnswer::Row(row_after(row, height))),
    }
}

// Each field has its length.
fn field_lengths(row: MnRow)
    ensures { HasLengths row }
{
    let _hash = row.hash.0;
    let _confirmed = row.confirmed.0;
    let _owner = row.owner;
    let _operator = row.operator;
    let _voting = row.voting;
    let _address = row.service.address;
    let _payout = row.payout.hash;
    let _operator_payout = row.operator_payout.hash;
    let _collateral = row.collateral.hash.0;
    let _script = row.script.hash;
}

/// Appends the frame of a row as it is after the block of its `penalty_at`. Without memory nothing changes.
pub fn put_row(row: &MnRow, out: &mut Bytes) -> Result<(), Memory>
    ensures ok { OnOk result (out.new ≡ out.old ++ framed 0 (row_text row.now.penalty_at row.now)) }
    ensures err { OnErr result (out.new ≡ out.old) }
    ensures fits { length (row_text row.now.penalty_at row.now) < 2 ^ 32 }
{
    field_lengths(*row);
    let start = out.len();
    out.extend(head(0, ROW_LENGTH as u32).as_slice())?;
    match row_text(row, row.penalty_at, out) {
        Ok(()) => Ok(()),
        Err(fault) => {
            out.truncate(start);
            Err(fault)
        }
    }
}
