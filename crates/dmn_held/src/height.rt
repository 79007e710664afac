//! One height, read and sent.

ghost use Rattle.std.specs.Prelude.{◌≡◌, OnOk};
ghost use Rattle.dmn_bytes.specs.Reading.{Gives};
ghost use Rattle.dmn_bytes.specs.Sending.{Appends};
ghost use Rattle.dmn_held.specs.Height.{height_data};

use crate::coinbase::{feed_part, read_part};
use crate::data::HeightData;
use crate::lists::{
    feed_commitments, feed_hashes, feed_outputs, feed_points, feed_rows, read_commitments,
    read_hashes, read_outputs, read_points, read_rows,
};
use dmn_bytes::{Hash256, Memory, ReadError, Reader, Sink, Text};
use std::alloc::Global;

#[tactic(auto, unfolding(crate::specs::Height::height_data))]
pub(crate) fn read_height(reader: &mut Reader<'_>, alloc: Global) -> Result<HeightData, ReadError>
    ensures { Gives height_data reader.old reader.new result }
{
    let hash = Hash256::read(reader, alloc)?;
    let coinbase = read_part(reader, alloc)?;
    let put = read_rows(reader, alloc)?;
    let removed = read_hashes(reader, alloc)?;
    let added = read_outputs(reader, alloc)?;
    let spent = read_points(reader, alloc)?;
    let mined = read_commitments(reader, alloc)?;
    Ok(HeightData {
        hash,
        coinbase,
        put,
        removed,
        added,
        spent,
        mined,
    })
}

#[tactic(auto, using(dmn_bytes::proofs::Send::sent_then), unfolding(crate::specs::Height::height_data))]
pub(crate) fn feed_height<S: Sink>(height: &HeightData, sink: &mut S) -> Result<(), Memory>
    ensures sent { OnOk result (Appends S.holds S.kept sink.old sink.new (height_data.text height.now)) }
    ensures same { S.kept sink.new ≡ S.kept sink.old }
{
    height.hash.feed(sink);
    feed_part(&height.coinbase, sink)?;
    feed_rows(&height.put, sink);
    feed_hashes(&height.removed, sink);
    feed_outputs(&height.added, sink);
    feed_points(&height.spent, sink);
    feed_commitments(&height.mined, sink);
    Ok(())
}
