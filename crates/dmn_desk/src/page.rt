//! A part of a pinned list, and its frame.

ghost use Rattle.std.specs.Prelude.{◌≡◌, ◌*◌, ◌^◌, ◌<◌, ◌≤◌, length, IfOk};
ghost use Rattle.std.specs.List.{flat_map};
ghost use Rattle.dmn_branch.specs.Machine.{MachineState};
ghost use Rattle.dmn_branch.specs.Stands.{StandsFor};
ghost use Rattle.dmn_bytes.specs.Points.{hash_cmp};
ghost use Rattle.dmn_bytes.specs.Sending.{Appends};
ghost use Rattle.dmn_indexes.specs.Version.{values};
ghost use Rattle.dmn_sml.specs.Defs.{simple};
ghost use Rattle.dmn_walk.specs.Page.{IsReady, pairs_left};
ghost use Rattle.dmn_desk.specs.Ask.{page};
ghost use Rattle.dmn_desk.specs.Framed.{most_items, page_body};
ghost use Rattle.dmn_frames.specs.Frames.{framed};
ghost use Rattle.dmn_desk.specs.Texts.{IsBounded};

use crate::answer::{Answer, GrownAnswer, ShortAnswer};
use crate::list::{ENTRY, add_entry, entry_lengths};
use dmn_branch::Branch;
use dmn_bytes::{Hash256, Items, Memory, Sink, Text, feed_count, feed_many};
use dmn_rows::MnRow;
use dmn_sml::SmlEntry;
use dmn_walk::Pairs;
use std::alloc::Global;

/// The bytes of the count before the entries.
const COUNT: usize = 2;

/// Sends the frame of a page. Its length is known before the entries are sent.
pub fn feed_page<S: Sink>(entries: &[SmlEntry], sink: &mut S)
    requires { length entries.now ≤ most_items }
    ensures text { Appends S.holds S.kept sink.old sink.new (framed 0 (page_body entries.now)) }
    ensures fits { length (page_body entries.now) < 2 ^ 32 }
{
    entry_lengths(entries);
    sink.put(&[0]);
    feed_count(COUNT + ENTRY * entries.len(), sink);
    (entries.len() as u16).feed(sink);
    feed_many(entries, sink);
}

// The simplified entries of rows that are lent.
fn entries_of(alloc: Global, pairs: Pairs<'_, Hash256, MnRow>) -> Result<Items<SmlEntry>, Memory>
    requires { IsReady hash_cmp pairs }
    ensures { IfOk result (λ entries. entries ≡ simple (values (pairs_left pairs.entry))) }
{
    let mut entries = Vec::new(alloc);
    for (_, row) in pairs {
        add_entry(&mut entries, row)?;
    }
    Ok(Items::from_vec(entries))
}

/// A part of a pinned list, by rows that the branch lends.
pub fn page_at(
    alloc: Global,
    branch: &Branch,
    pin: u32,
    from: u32,
    count: u16,
) -> Result<Answer, Memory>
    ensures answer { IfOk result (λ answer. (m : MachineState) → StandsFor branch.now m → answer ≡ page m pin from count) }
    ensures bounded { IfOk result IsBounded }
{
    let Some(pairs) = branch.pin_page(pin, from, count) else {
        return Ok(Answer::Short(ShortAnswer::PinUnknown));
    };
    let entries = entries_of(alloc, pairs)?;
    Ok(Answer::Grown(GrownAnswer::Page(entries)))
}
