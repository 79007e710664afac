//! Lists with a count of four bytes.

ghost use Rattle.std.specs.Prelude.{◌≡◌, None};
ghost use Rattle.std.specs.List.{flat_map};
ghost use Rattle.dmn_held.specs.Row.{stored_row};
ghost use Rattle.dmn_bytes.specs.Format.{follows, last_key, many, series};
ghost use Rattle.dmn_bytes.specs.Points.{hash_cmp};
ghost use Rattle.dmn_bytes.specs.Reading.{Gives};
ghost use Rattle.dmn_bytes.specs.Sending.{Appends};
ghost use Rattle.dmn_held.specs.Lists.{commitments_field, count_to, hash_of, hashes_field, mined_at, mined_field, next_row, outputs_field, points_field, rows_field};

use crate::row::{feed_row, read_row};
use dmn_bytes::{
    Departure, Hash256, Items, OutPoint, ReadError, Reader, Sink, Text, feed_count, feed_many,
    read_ascending, read_many,
};
use dmn_payloads::{Commitment, MinedAt};
use dmn_rows::{MOST_MASTERNODES, MOST_OUTPUTS, MnRow, StartOutput};
use std::alloc::Global;
use std::cmp::Ordering;

#[tactic(auto, unfolding(crate::specs::Lists::count_to))]
fn read_count(reader: &mut Reader<'_>, most: u32) -> Result<u32, ReadError>
    ensures { Gives (count_to most) reader.old reader.new result }
{
    let at = reader.at();
    let count = reader.u32()?;
    if count <= most {
        Ok(count)
    } else {
        Err(ReadError::Departs(Departure::Form { at }))
    }
}

fn may_follow(last: &Option<Hash256>, hash: &Hash256) -> bool
    ensures { result ≡ follows hash_cmp last.now hash.now }
{
    match last {
        None => true,
        Some(last) => match last.cmp(hash) {
            Ordering::Less => true,
            Ordering::Equal => false,
            Ordering::Greater => false,
        },
    }
}

// A row whose hash may follow the last one.
#[tactic(auto, unfolding(crate::specs::Lists::next_row))]
fn read_next(
    reader: &mut Reader<'_>,
    alloc: Global,
    last: &Option<Hash256>,
) -> Result<MnRow, ReadError>
    ensures { Gives (next_row last.now) reader.old reader.new result }
{
    let at = reader.at();
    let row = read_row(reader, alloc)?;
    if may_follow(last, &row.hash) {
        Ok(row)
    } else {
        Err(ReadError::Departs(Departure::Form { at }))
    }
}

fn read_ordered(reader: &mut Reader<'_>, alloc: Global, n: u64) -> Result<Items<MnRow>, ReadError>
    ensures { Gives (series next_row (last_key hash_of) None n) reader.old reader.new result }
{
    let mut items = Vec::new(alloc);
    let mut last = None;
    for _ in 0..n {
        let item = read_next(reader, alloc, &last)?;
        last = Some(item.hash);
        items.push(item)?;
    }
    Ok(Items::from_vec(items))
}

#[tactic(auto, unfolding(crate::specs::Lists::rows_field))]
pub(crate) fn read_rows(reader: &mut Reader<'_>, alloc: Global) -> Result<Items<MnRow>, ReadError>
    ensures { Gives rows_field reader.old reader.new result }
{
    let count = read_count(reader, MOST_MASTERNODES)?;
    read_ordered(reader, alloc, u64::from(count))
}

pub(crate) fn feed_rows<S: Sink>(rows: &Items<MnRow>, sink: &mut S)
    ensures { Appends S.holds S.kept sink.old sink.new (rows_field.text rows.now) }
{
    feed_count(rows.len(), sink);
    feed_each_row(rows.as_slice(), sink);
}

fn feed_each_row<S: Sink>(rows: &[MnRow], sink: &mut S)
    ensures { Appends S.holds S.kept sink.old sink.new (flat_map stored_row.text rows.now) }
{
    for row in rows {
        feed_row(row, sink);
    }
}

#[tactic(auto, unfolding(crate::specs::Lists::hashes_field))]
pub(crate) fn read_hashes(
    reader: &mut Reader<'_>,
    alloc: Global,
) -> Result<Items<Hash256>, ReadError>
    ensures { Gives hashes_field reader.old reader.new result }
{
    let count = read_count(reader, MOST_MASTERNODES)?;
    read_ascending(reader, alloc, u64::from(count))
}

pub(crate) fn feed_hashes<S: Sink>(hashes: &Items<Hash256>, sink: &mut S)
    ensures { Appends S.holds S.kept sink.old sink.new (hashes_field.text hashes.now) }
{
    feed_count(hashes.len(), sink);
    feed_many(hashes.as_slice(), sink);
}

#[tactic(auto, unfolding(dmn_rows::specs::Start::outputs_field, dmn_rows::specs::Start::count_field, crate::specs::Lists::count_to))]
pub(crate) fn read_outputs(
    reader: &mut Reader<'_>,
    alloc: Global,
) -> Result<Items<StartOutput>, ReadError>
    ensures { Gives outputs_field reader.old reader.new result }
{
    let count = read_count(reader, MOST_OUTPUTS)?;
    read_ascending(reader, alloc, u64::from(count))
}

pub(crate) fn feed_outputs<S: Sink>(outputs: &Items<StartOutput>, sink: &mut S)
    ensures { Appends S.holds S.kept sink.old sink.new (outputs_field.text outputs.now) }
{
    feed_count(outputs.len(), sink);
    feed_many(outputs.as_slice(), sink);
}

#[tactic(auto, unfolding(crate::specs::Lists::points_field))]
pub(crate) fn read_points(
    reader: &mut Reader<'_>,
    alloc: Global,
) -> Result<Items<OutPoint>, ReadError>
    ensures { Gives points_field reader.old reader.new result }
{
    let count = read_count(reader, MOST_OUTPUTS)?;
    read_ascending(reader, alloc, u64::from(count))
}

pub(crate) fn feed_points<S: Sink>(points: &Items<OutPoint>, sink: &mut S)
    ensures { Appends S.holds S.kept sink.old sink.new (points_field.text points.now) }
{
    feed_count(points.len(), sink);
    feed_many(points.as_slice(), sink);
}

#[tactic(auto, unfolding(crate::specs::Lists::commitments_field))]
pub(crate) fn read_commitments(
    reader: &mut Reader<'_>,
    alloc: Global,
) -> Result<Items<Commitment>, ReadError>
    ensures { Gives commitments_field reader.old reader.new result }
{
    let count = reader.u32()?;
    read_many(reader, alloc, u64::from(count))
}

pub(crate) fn feed_commitments<S: Sink>(commitments: &Items<Commitment>, sink: &mut S)
    ensures { Appends S.holds S.kept sink.old sink.new (commitments_field.text commitments.now) }
{
    feed_count(commitments.len(), sink);
    feed_many(commitments.as_slice(), sink);
}

#[tactic(auto, unfolding(crate::specs::Lists::mined_at))]
fn read_mined_at(reader: &mut Reader<'_>, alloc: Global) -> Result<MinedAt, ReadError>
    ensures { Gives mined_at reader.old reader.new result }
{
    let height = reader.u32()?;
    let commitment = Commitment::read(reader, alloc)?;
    Ok(MinedAt { height, commitment })
}

fn read_each_mined(
    reader: &mut Reader<'_>,
    alloc: Global,
    n: u64,
) -> Result<Items<MinedAt>, ReadError>
    ensures { Gives (many n mined_at) reader.old reader.new result }
{
    let mut items = Vec::new(alloc);
    for _ in 0..n {
        let item = read_mined_at(reader, alloc)?;
        items.push(item)?;
    }
    Ok(Items::from_vec(items))
}

#[tactic(auto, unfolding(crate::specs::Lists::mined_field))]
pub(crate) fn read_mined(
    reader: &mut Reader<'_>,
    alloc: Global,
) -> Result<Items<MinedAt>, ReadError>
    ensures { Gives mined_field reader.old reader.new result }
{
    let count = reader.u32()?;
    read_each_mined(reader, alloc, u64::from(count))
}

fn feed_mined_at<S: Sink>(mined: &MinedAt, sink: &mut S)
    ensures { Appends S.holds S.kept sink.old sink.new (mined_at.text mined.now) }
{
    mined.height.feed(sink);
    mined.commitment.feed(sink);
}

fn feed_each_mined<S: Sink>(mined: &[MinedAt], sink: &mut S)
    ensures { Appends S.holds S.kept sink.old sink.new (flat_map mined_at.text mined.now) }
{
    for one in mined {
        feed_mined_at(one, sink);
    }
}

pub(crate) fn feed_mined<S: Sink>(mined: &Items<MinedAt>, sink: &mut S)
    ensures { Appends S.holds S.kept sink.old sink.new (mined_field.text mined.now) }
{
    feed_count(mined.len(), sink);
    feed_each_mined(mined.as_slice(), sink);
}
