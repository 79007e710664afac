//! The text of a row.

ghost use Rattle.std.specs.Prelude.{◌≡◌, ◌+◌, ◌++◌, length, OnOk, OnErr};
ghost use Rattle.dmn_bytes.specs.Sending.{Appends};
ghost use Rattle.dmn_rows.specs.RowText as spec;

use crate::row::{MnRow, plain_at};
use dmn_bytes::{Bytes, Draft, Memory, Sink, Text};

/// The length of a row's text, in bytes.
pub const ROW_LENGTH: usize = 293;

/// Appends the text of the row as it is after block `height`: its penalty is the one in force then. A refusal changes
/// nothing.
pub fn row_text(row: &MnRow, height: u32, out: &mut Bytes) -> Result<(), Memory>
    ensures ok { OnOk result (out.new ≡ out.old ++ spec.row_text height row.now) }
    ensures length { OnOk result (length out.new ≡ length out.old + ROW_LENGTH) }
    ensures err { OnErr result (out.new ≡ out.old) }
{
    let row = plain_at(row, height);
    lengths(row);
    append(&row, out)
}

fn append(row: &MnRow, out: &mut Bytes) -> Result<(), Memory>
    ensures ok { OnOk result (out.new ≡ out.old ++ spec.row.text row.now) }
    ensures err { OnErr result (out.new ≡ out.old) }
{
    let mut draft = Draft::on(out);
    feed_row(row, &mut draft);
    draft.finish(out)
}

fn lengths(row: MnRow)
    ensures { spec.HasLengths row }
{
    let _hash = row.hash.0;
    let _confirmed = row.confirmed.0;
    let _owner = row.owner;
    let _operator = row.operator;
    let _voting = row.voting;
    let _address = row.service.address;
    let _payout = row.payout.hash;
    let _operator_payout = row.operator_payout.hash;
    let _collateral = row.collateral.hash.0;
    let _script = row.script.hash;
}

// Sends the text of a row that has no `penalty_at`.
#[tactic(auto, using(dmn_bytes::proofs::Send::sent_then), unfolding(crate::specs::RowText::row))]
fn feed_row<S: Sink>(row: &MnRow, sink: &mut S)
    ensures { Appends S.holds S.kept sink.old sink.new (spec.row.text row.now) }
{
    row.hash.feed(sink);
    row.confirmed.feed(sink);
    row.registered.feed(sink);
    row.last_paid.feed(sink);
    row.revived.feed(sink);
    row.banned.feed(sink);
    row.penalty.feed(sink);
    row.reason.feed(sink);
    row.owner.feed(sink);
    row.operator.feed(sink);
    row.voting.feed(sink);
    row.service.feed(sink);
    row.payout.feed(sink);
    row.operator_payout.feed(sink);
    row.reward.feed(sink);
    row.collateral.feed(sink);
    row.script.feed(sink);
}
