//! What proves a block's first transaction.

ghost use Rattle.std.specs.Prelude.{◌≡◌, OnOk, None, length};
ghost use Rattle.std.specs.Int.{w32};
ghost use Rattle.dmn_bytes.specs.Format.{compact, filled, number};
ghost use Rattle.dmn_bytes.specs.Reading.{Gives};
ghost use Rattle.dmn_bytes.specs.Sending.{Appends};
ghost use Rattle.dmn_held.specs.Coinbase.{behind_size, coinbase_part, no_part, part_if, zero_of};
ghost use Rattle.dmn_tx.specs.Tx.{tx};

use crate::counter::length_of;
use dmn_bytes::{Departure, Memory, ReadError, Reader, Sink, Text, feed_compact, read_filled};
use dmn_merkle::Branching;
use dmn_tx::Tx;
use std::alloc::Global;

/// The first transaction of a block, and the branch that proves it under the block's Merkle root.
#[derive(Debug, Drop)]
pub struct CoinbasePart {
    pub tx: Tx,
    pub branch: Branching,
}

// What stands behind the length of the transaction.
#[tactic(auto, unfolding(crate::specs::Coinbase::behind_size))]
fn read_behind_size(
    reader: &mut Reader<'_>,
    alloc: Global,
    size: u64,
) -> Result<CoinbasePart, ReadError>
    ensures { Gives (behind_size size) reader.old reader.new result }
{
    let tx: Tx = read_filled(reader, alloc, size as usize)?;
    let branch = Branching::read(reader, alloc)?;
    Ok(CoinbasePart { tx, branch })
}

#[tactic(auto, unfolding(crate::specs::Coinbase::coinbase_part))]
pub(crate) fn read_part(reader: &mut Reader<'_>, alloc: Global) -> Result<CoinbasePart, ReadError>
    ensures { Gives coinbase_part reader.old reader.new result }
{
    let size = reader.compact()?;
    read_behind_size(reader, alloc, size)
}

fn read_zero(reader: &mut Reader<'_>) -> Result<u32, ReadError>
    ensures { Gives (zero_of (number w32)) reader.old reader.new result }
{
    let at = reader.at();
    let n = reader.u32()?;
    if n == 0 {
        Ok(n)
    } else {
        Err(ReadError::Departs(Departure::Form { at }))
    }
}

fn read_compact_zero(reader: &mut Reader<'_>) -> Result<u64, ReadError>
    ensures { Gives (zero_of compact) reader.old reader.new result }
{
    let at = reader.at();
    let n = reader.compact()?;
    if n == 0 {
        Ok(n)
    } else {
        Err(ReadError::Departs(Departure::Form { at }))
    }
}

// Behind an empty blob: 0, and two empty lists.
#[tactic(auto, unfolding(crate::specs::Coinbase::no_part))]
fn read_no_part(reader: &mut Reader<'_>) -> Result<Option<CoinbasePart>, ReadError>
    ensures { Gives no_part reader.old reader.new result }
{
    let _total = read_zero(reader)?;
    let _hashes = read_compact_zero(reader)?;
    let _flags = read_compact_zero(reader)?;
    Ok(None)
}

#[tactic(auto, unfolding(crate::specs::Coinbase::part_if, crate::specs::Coinbase::behind_size_if))]
pub(crate) fn read_part_if(
    reader: &mut Reader<'_>,
    alloc: Global,
) -> Result<Option<CoinbasePart>, ReadError>
    ensures { Gives part_if reader.old reader.new result }
{
    let size = reader.compact()?;
    if size == 0 {
        return read_no_part(reader);
    }
    match read_behind_size(reader, alloc, size) {
        Ok(part) => Ok(Some(part)),
        Err(error) => Err(error),
    }
}

// Sends a part whose transaction's text is so long.
fn feed_sized<S: Sink>(part: &CoinbasePart, size: u64, sink: &mut S)
    requires { size ≡ length (tx.text part.now.tx) }
    ensures { Appends S.holds S.kept sink.old sink.new (coinbase_part.text part.now) }
{
    feed_compact(size, sink);
    part.tx.feed(sink);
    part.branch.feed(sink);
}

/// Sends the text of a part. Where there is no memory for so long a transaction, a part of it may be sent.
pub(crate) fn feed_part<S: Sink>(part: &CoinbasePart, sink: &mut S) -> Result<(), Memory>
    ensures sent { OnOk result (Appends S.holds S.kept sink.old sink.new (coinbase_part.text part.now)) }
    ensures same { S.kept sink.new ≡ S.kept sink.old }
{
    let size = length_of(&part.tx)?;
    feed_sized(part, size, sink);
    Ok(())
}

fn feed_no_part<S: Sink>(sink: &mut S)
    ensures { Appends S.holds S.kept sink.old sink.new (part_if.text None) }
{
    feed_compact(0, sink);
    0u32.feed(sink);
    feed_compact(0, sink);
    feed_compact(0, sink);
}

pub(crate) fn feed_part_if<S: Sink>(part: &Option<CoinbasePart>, sink: &mut S) -> Result<(), Memory>
    ensures sent { OnOk result (Appends S.holds S.kept sink.old sink.new (part_if.text part.now)) }
    ensures same { S.kept sink.new ≡ S.kept sink.old }
{
    match part {
        None => {
            feed_no_part(sink);
            Ok(())
        }
        Some(part) => feed_part(part, sink),
    }
}
