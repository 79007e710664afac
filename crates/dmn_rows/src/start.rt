//! The start record.

ghost use Rattle.std.specs.Prelude.{◌≡◌, ◌++◌, List, ℕ, IfOk, IfErr, MatchResult, OnOk, OnErr};
ghost use Rattle.dmn_bytes.specs.Reading.{Gives};
ghost use Rattle.dmn_bytes.specs.Sending.{Appends};
ghost use Rattle.dmn_rows.specs.Defs.{IsStart, IsStartText, KeepsBounds, start_text};
ghost use Rattle.dmn_rows.specs.Fault.{StartDeparts};
ghost use Rattle.dmn_rows.specs.Listing.{OutputsAscend};
ghost use Rattle.dmn_rows.specs.Start.{behind_point, count_field, first_field, hash_field, outputs_field, point_of, profile_field, start_output, start_output_sound, start_record, start_record_sound, version_field};

use crate::limits::{GREATEST_HEIGHT, MOST_OUTPUTS};
use dmn_bytes::{
    Bytes, Departure, Hash256, Items, Keyed, Memory, OutPoint, Pay, ReadError, Reader, Sink, Text,
    feed_count, feed_many, is_zero, read_ascending, read_whole, write,
};
use std::alloc::Global;
use thiserror::Error;

/// An unspent output of 1,000 DASH, as a start record lists it.
#[derive(Clone, Copy, Debug, PartialEq, Eq)]
pub struct StartOutput {
    pub point: OutPoint,
    pub pay: Pay,
}

/// What a registry starts from.
#[derive(Debug, Drop)]
pub struct StartRecord {
    /// The profile's number, 1 or 2.
    pub profile: u8,
    /// The height of the first block, 1 to 4,294,967,294.
    pub first: u32,
    /// The hash of the block before it.
    pub hash: Hash256,
    /// The unspent outputs of 1,000 DASH after that block, in strictly ascending order of their outpoints; at most
    /// 1,048,576.
    pub outputs: Items<StartOutput>,
}

/// Why a text is no start record.
#[derive(Clone, Copy, Debug, PartialEq, Eq, Error)]
pub enum StartFault {
    /// The first byte of the first field that departs.
    #[error("the start record departs from its form at byte {at}")]
    StartForm { at: usize },
    /// Memory ran out.
    #[error("memory ran out")]
    Memory,
}

impl From<ReadError> for StartFault {
    ghost use Rattle.std.specs.Prelude.{◌≡◌};
    ghost use Rattle.dmn_rows.specs.Fault.{start_fault};

    ghost from_gives = { λ error fault. fault ≡ start_fault error };

    fn from(error: ReadError) -> StartFault {
        match error {
            ReadError::Memory => StartFault::Memory,
            ReadError::Departs(Departure::Form { at }) => StartFault::StartForm { at },
            ReadError::Departs(Departure::Beyond { at }) => StartFault::StartForm { at },
        }
    }
}

#[tactic(auto, unfolding(crate::specs::Start::version_field))]
fn read_version(reader: &mut Reader<'_>) -> Result<u16, ReadError>
    ensures { Gives version_field reader.old reader.new result }
{
    let at = reader.at();
    let version = reader.u16()?;
    if version == 1 {
        Ok(version)
    } else {
        Err(ReadError::Departs(Departure::Form { at }))
    }
}

#[tactic(auto, unfolding(crate::specs::Start::profile_field))]
fn read_profile(reader: &mut Reader<'_>) -> Result<u8, ReadError>
    ensures { Gives profile_field reader.old reader.new result }
{
    let at = reader.at();
    let profile = reader.u8()?;
    if 1 <= profile && profile <= 2 {
        Ok(profile)
    } else {
        Err(ReadError::Departs(Departure::Form { at }))
    }
}

#[tactic(auto, unfolding(crate::specs::Start::first_field))]
fn read_first(reader: &mut Reader<'_>) -> Result<u32, ReadError>
    ensures { Gives first_field reader.old reader.new result }
{
    let at = reader.at();
    let first = reader.u32()?;
    if 1 <= first && first <= GREATEST_HEIGHT {
        Ok(first)
    } else {
        Err(ReadError::Departs(Departure::Form { at }))
    }
}

#[tactic(auto, unfolding(crate::specs::Start::hash_field))]
fn read_hash(reader: &mut Reader<'_>, alloc: Global) -> Result<Hash256, ReadError>
    ensures { Gives hash_field reader.old reader.new result }
{
    let at = reader.at();
    let hash = Hash256::read(reader, alloc)?;
    if is_zero(&hash.0) {
        Err(ReadError::Departs(Departure::Form { at }))
    } else {
        Ok(hash)
    }
}

#[tactic(auto, unfolding(crate::specs::Start::count_field))]
fn read_count(reader: &mut Reader<'_>) -> Result<u32, ReadError>
    ensures { Gives count_field reader.old reader.new result }
{
    let at = reader.at();
    let count = reader.u32()?;
    if count <= MOST_OUTPUTS {
        Ok(count)
    } else {
        Err(ReadError::Departs(Departure::Form { at }))
    }
}

#[tactic(auto, unfolding(crate::specs::Start::behind_point))]
impl Keyed<OutPoint> for StartOutput {
    ghost key_of = { point_of };

    ghost behind = { behind_point };

    fn key(&self) -> OutPoint {
        self.point
    }

    fn read_behind(
        point: OutPoint,
        reader: &mut Reader<'_>,
        alloc: Global,
    ) -> Result<StartOutput, ReadError> {
        let pay = Pay::read(reader, alloc)?;
        Ok(StartOutput { point, pay })
    }
}

#[tactic(auto, using(dmn_bytes::proofs::Send::sent_then), unfolding(crate::specs::Start::start_output, crate::specs::Start::behind_point))]
impl Text for StartOutput {
    ghost format = { start_output };

    ghost sound = { start_output_sound };

    fn read(reader: &mut Reader<'_>, alloc: Global) -> Result<StartOutput, ReadError> {
        let point = OutPoint::read(reader, alloc)?;
        StartOutput::read_behind(point, reader, alloc)
    }

    fn feed<S: Sink>(&self, sink: &mut S) {
        self.point.feed(sink);
        self.pay.feed(sink);
    }
}

#[tactic(auto, unfolding(crate::specs::Start::outputs_field))]
fn read_outputs(reader: &mut Reader<'_>, alloc: Global) -> Result<Items<StartOutput>, ReadError>
    ensures { Gives outputs_field reader.old reader.new result }
{
    let count = read_count(reader)?;
    read_ascending(reader, alloc, u64::from(count))
}

#[tactic(auto, unfolding(crate::specs::Start::outputs_field))]
fn feed_outputs<S: Sink>(outputs: &Items<StartOutput>, sink: &mut S)
    ensures { Appends S.holds S.kept sink.old sink.new (outputs_field.text outputs.now) }
{
    feed_count(outputs.len(), sink);
    feed_many(outputs.as_slice(), sink);
}

#[tactic(auto, using(dmn_bytes::proofs::Send::sent_then), unfolding(crate::specs::Start::start_record))]
impl Text for StartRecord {
    ghost format = { start_record };

    ghost sound = { start_record_sound };

    fn read(reader: &mut Reader<'_>, alloc: Global) -> Result<StartRecord, ReadError> {
        let _version = read_version(reader)?;
        let profile = read_profile(reader)?;
        let first = read_first(reader)?;
        let hash = read_hash(reader, alloc)?;
        let outputs = read_outputs(reader, alloc)?;
        Ok(StartRecord {
            profile,
            first,
            hash,
            outputs,
        })
    }

    fn feed<S: Sink>(&self, sink: &mut S) {
        1u16.feed(sink);
        self.profile.feed(sink);
        self.first.feed(sink);
        self.hash.feed(sink);
        feed_outputs(&self.outputs, sink);
    }
}

/// The start record that the bytes are, all of them.
#[tactic(auto, using(crate::proofs::Found::found_keeps, crate::proofs::Found::found_ascends))]
pub fn read_start(alloc: Global, text: &[u8]) -> Result<StartRecord, StartFault>
    // What is read has this text.
    ensures found { IfOk result (IsStartText text.now) }
    // A start record's text is read as it, unless memory runs out.
    ensures only { (start : StartRecord) → IsStartText text.now start → MatchResult result (λ read. read ≡ start) (λ fault. fault ≡ StartFault.Memory) }
    ensures bounds { IfOk result KeepsBounds }
    ensures ascending { IfOk result (λ start. OutputsAscend start.outputs) }
    // Else it says where the text departs.
    ensures departs { IfErr result (λ fault. StartDeparts fault text.now) }
{
    match read_whole(alloc, text) {
        Ok(start) => Ok(start),
        Err(error) => Err(StartFault::from(error)),
    }
}

/// Appends the text of a start record that keeps the format's bounds and order. A refusal changes nothing.
pub fn write_start(start: &StartRecord, out: &mut Bytes) -> Result<(), Memory>
    requires { IsStart start.now }
    ensures ok { OnOk result (out.new ≡ out.old ++ start_text start.now) }
    ensures err { OnErr result (out.new ≡ out.old) }
{
    write(start, out)
}
