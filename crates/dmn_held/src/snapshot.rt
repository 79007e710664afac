//! What a snapshot holds, read whole and written.

ghost use Rattle.std.specs.Prelude.{◌≡◌, ◌≤◌, length, IfOk, IfErr, MatchResult, OnOk};
ghost use Rattle.std.specs.List.{flat_map};
ghost use Rattle.dmn_bytes.specs.Format.{whole};
ghost use Rattle.dmn_bytes.specs.Reading.{DepartsBy, FailsWhole, Gives, GivesWhole};
ghost use Rattle.dmn_bytes.specs.Sending.{Appends};
ghost use Rattle.dmn_held.specs.Defs.{IsHeld, held_text};
ghost use Rattle.dmn_held.specs.Height.{height_data};
ghost use Rattle.dmn_held.specs.Snapshot.{snapshot};
ghost use Rattle.dmn_held.specs.ToEnd.{to_end};
ghost use Rattle.dmn_held.specs.declared.data.SnapshotData.{SnapshotData};

use crate::coinbase::{feed_part_if, read_part_if};
use crate::data::{HeightData, SnapshotData};
use crate::height::{feed_height, read_height};
use crate::lists::{feed_mined, feed_outputs, feed_rows, read_mined, read_outputs, read_rows};
use dmn_bytes::{Bytes, Departure, Draft, Hash256, Items, Memory, ReadError, Reader, Sink, Text};
use std::alloc::Global;

// As many heights as there are up to the end of the text.
fn read_heights(reader: &mut Reader<'_>, alloc: Global) -> Result<Items<HeightData>, ReadError>
    ensures { Gives (to_end height_data) reader.old reader.new result }
{
    let mut items = Vec::new(alloc);
    let room = reader.rest();
    for _ in 0..room {
        if reader.rest() == 0 {
            return Ok(Items::from_vec(items));
        }
        let item = read_height(reader, alloc)?;
        items.push(item)?;
    }
    Ok(Items::from_vec(items))
}

/// The value whose text stands from here up to the end.
#[tactic(auto, unfolding(crate::specs::Snapshot::snapshot))]
pub fn read_to_end(reader: &mut Reader<'_>, alloc: Global) -> Result<SnapshotData, ReadError>
    ensures { Gives snapshot reader.old reader.new result }
{
    let top = reader.u32()?;
    let low = reader.u32()?;
    let low_hash = Hash256::read(reader, alloc)?;
    let rows = read_rows(reader, alloc)?;
    let outputs = read_outputs(reader, alloc)?;
    let active = read_mined(reader, alloc)?;
    let coinbase = read_part_if(reader, alloc)?;
    let heights = read_heights(reader, alloc)?;
    Ok(SnapshotData {
        top,
        low,
        low_hash,
        rows,
        outputs,
        active,
        coinbase,
        heights,
    })
}

fn all_of(alloc: Global, text: &[u8]) -> Result<SnapshotData, ReadError>
    ensures { GivesWhole snapshot text.now result }
{
    let mut reader = Reader::new(text);
    let value = read_to_end(&mut reader, alloc)?;
    let at = reader.at();
    if at < text.len() {
        return Err(ReadError::Departs(Departure::Form { at }));
    }
    Ok(value)
}

/// What the bytes, all of them, say that a snapshot holds. A count or a length takes no memory ahead of what it counts.
pub fn read_held(alloc: Global, text: &[u8]) -> Result<SnapshotData, ReadError>
    // What is read has this text.
    ensures found { IfOk result (λ held. IsHeld held × (text.now ≡ held_text held)) }
    // A value's text is read as it, unless memory runs out.
    ensures only { (held : SnapshotData) → IsHeld held → text.now ≡ held_text held → MatchResult result (λ read. read ≡ held) (λ error. error ≡ ReadError.Memory) }
    // Else it says where the text departs.
    ensures departs { IfErr result (λ error. FailsWhole error (whole snapshot text.now)) }
    ensures within { IfErr result (λ error. DepartsBy error (length text.now)) }
{
    all_of(alloc, text)
}

fn feed_heights<S: Sink>(heights: &[HeightData], sink: &mut S) -> Result<(), Memory>
    ensures sent { OnOk result (Appends S.holds S.kept sink.old sink.new (flat_map height_data.text heights.now)) }
    ensures same { S.kept sink.new ≡ S.kept sink.old }
{
    for height in heights {
        feed_height(height, sink)?;
    }
    Ok(())
}

/// Sends the text. Where there is no memory for so long a text, a part of it may be sent.
#[tactic(auto, using(dmn_bytes::proofs::Send::sent_then), unfolding(crate::specs::Snapshot::snapshot))]
pub fn feed_snapshot<S: Sink>(held: &SnapshotData, sink: &mut S) -> Result<(), Memory>
    ensures sent { OnOk result (Appends S.holds S.kept sink.old sink.new (held_text held.now)) }
    ensures same { S.kept sink.new ≡ S.kept sink.old }
{
    held.top.feed(sink);
    held.low.feed(sink);
    held.low_hash.feed(sink);
    feed_rows(&held.rows, sink);
    feed_outputs(&held.outputs, sink);
    feed_mined(&held.active, sink);
    feed_part_if(&held.coinbase, sink)?;
    feed_heights(held.heights.as_slice(), sink)?;
    Ok(())
}

/// The text.
pub fn write_held(alloc: Global, held: &SnapshotData) -> Result<Bytes, Memory>
    ensures { IfOk result (λ text. text ≡ held_text held.now) }
{
    let mut text = Bytes::new(alloc);
    let mut draft = Draft::on(&mut text);
    feed_snapshot(held, &mut draft)?;
    draft.finish(&mut text)?;
    Ok(text)
}
