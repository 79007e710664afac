//! A row as it is stored: its text with the penalty that is stored, and behind it the height for which that is true.

ghost use Rattle.dmn_bytes.specs.Reading.{Gives};
ghost use Rattle.dmn_bytes.specs.Sending.{Appends};
ghost use Rattle.dmn_held.specs.Row.{stored_row};

use dmn_bytes::{Hash256, OutPoint, Pay, ReadError, Reader, Service, Sink, Text};
use dmn_rows::MnRow;
use std::alloc::Global;

#[tactic(auto, unfolding(crate::specs::Row::stored_row))]
pub(crate) fn read_row(reader: &mut Reader<'_>, alloc: Global) -> Result<MnRow, ReadError>
    ensures { Gives stored_row reader.old reader.new result }
{
    let hash = Hash256::read(reader, alloc)?;
    let confirmed = Hash256::read(reader, alloc)?;
    let registered = reader.u32()?;
    let last_paid = reader.u32()?;
    let revived = reader.u32()?;
    let banned = reader.u32()?;
    let penalty = reader.u32()?;
    let reason = reader.u16()?;
    let owner = <[u8; 20]>::read(reader, alloc)?;
    let operator = <[u8; 48]>::read(reader, alloc)?;
    let voting = <[u8; 20]>::read(reader, alloc)?;
    let service = Service::read(reader, alloc)?;
    let payout = Pay::read(reader, alloc)?;
    let operator_payout = Pay::read(reader, alloc)?;
    let reward = reader.u16()?;
    let collateral = OutPoint::read(reader, alloc)?;
    let script = Pay::read(reader, alloc)?;
    let penalty_at = reader.u32()?;
    Ok(MnRow {
        hash,
        confirmed,
        registered,
        last_paid,
        revived,
        banned,
        penalty,
        penalty_at,
        reason,
        owner,
        operator,
        voting,
        service,
        payout,
        operator_payout,
        reward,
        collateral,
        script,
    })
}

#[tactic(auto, using(dmn_bytes::proofs::Send::sent_then), unfolding(crate::specs::Row::stored_row))]
pub(crate) fn feed_row<S: Sink>(row: &MnRow, sink: &mut S)
    ensures { Appends S.holds S.kept sink.old sink.new (stored_row.text row.now) }
{
    row.hash.feed(sink);
    row.confirmed.feed(sink);
    row.registered.feed(sink);
    row.last_paid.feed(sink);
    row.revived.feed(sink);
    row.banned.feed(sink);
    row.penalty.feed(sink);
    row.reason.feed(sink);
    row.owner.feed(sink);
    row.operator.feed(sink);
    row.voting.feed(sink);
    row.service.feed(sink);
    row.payout.feed(sink);
    row.operator_payout.feed(sink);
    row.reward.feed(sink);
    row.collateral.feed(sink);
    row.script.feed(sink);
    row.penalty_at.feed(sink);
}
