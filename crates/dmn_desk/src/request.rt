//! Requests, and how they are read from the bodies of frames.

ghost use Rattle.std.specs.Prelude.{◌≡◌, ◌≢◌, ◌≤◌, length, IfOk, IfErr};
ghost use Rattle.dmn_bytes.specs.Format.{hash};
ghost use Rattle.dmn_bytes.specs.Reading.{Reads};
ghost use Rattle.dmn_desk.specs.Requests.{IsRequest, Told, IsWithin, ended, request_of};

use crate::kind::Kind;
use dmn_block::{BlockFault, BlockFrame, read_block};
use dmn_bytes::{Bytes, Hash256, Memory, ReadFault, Reader};
use dmn_frames::LONGEST_BODY;
use std::alloc::Global;
use thiserror::Error;

/// What is asked for. Heights are those of blocks, and hashes those of blocks unless a comment says otherwise.
#[derive(Debug, Drop)]
pub enum Request {
    /// Adds a block. `body` are the bytes by which it came.
    Connect { block: BlockFrame, body: Bytes },
    /// Takes the last block back, which has this hash.
    Disconnect { hash: Hash256 },
    /// The tip, and which heights are held.
    Tip,
    /// The list of masternodes.
    List { height: u32 },
    /// The masternode that this transaction registered.
    Row { height: u32, hash: Hash256 },
    /// The next masternodes to be paid, as many as `count`.
    Payees { height: u32, count: u16 },
    /// The members of a quorum of this type.
    Members { kind: u8, base: u32 },
    /// The active quorums.
    Quorums { height: u32 },
    /// What changed in the list between two blocks.
    Diff { base: Hash256, block: Hash256 },
    /// Keeps the list of a height readable, under a number.
    Pin { height: u32 },
    /// A part of a pinned list: entries from this place on, as many as `count`.
    Page { pin: u32, from: u32, count: u16 },
    /// Ends a pin.
    Release { pin: u32 },
}

/// Why a body could not be read.
#[derive(Clone, Copy, Debug, PartialEq, Eq, Error)]
pub enum RequestFault {
    /// The first byte of the first field that departs, counted from the body's first byte.
    #[error("the body departs from its form at byte {at}")]
    BadRequest { at: usize },
    /// Memory ran out.
    #[error("memory ran out")]
    Memory,
}

impl From<ReadFault> for RequestFault {
    ghost use Rattle.std.specs.Prelude.{◌≡◌};
    ghost use Rattle.dmn_desk.specs.Requests.{of_read};

    ghost from_gives = { λ error fault. fault ≡ of_read error };

    fn from(fault: ReadFault) -> RequestFault {
        match fault {
            ReadFault::Short { at } | ReadFault::LongSpelling { at } => {
                RequestFault::BadRequest { at }
            }
        }
    }
}

impl From<BlockFault> for RequestFault {
    ghost use Rattle.std.specs.Prelude.{◌≡◌};
    ghost use Rattle.dmn_desk.specs.Requests.{of_block};

    ghost from_gives = { λ error fault. fault ≡ of_block error };

    fn from(fault: BlockFault) -> RequestFault {
        match fault {
            BlockFault::BlockForm { at } => RequestFault::BadRequest { at },
            BlockFault::Memory => RequestFault::Memory,
        }
    }
}

impl From<Memory> for RequestFault {
    ghost use Rattle.std.specs.Prelude.{◌≡◌};
    ghost use Rattle.dmn_desk.specs.declared.request.RequestFault.TheVariants.{Memory as NoMemory};

    ghost from_gives = { λ _ fault. fault ≡ NoMemory };

    fn from(_: Memory) -> RequestFault {
        RequestFault::Memory
    }
}

fn read_hash(reader: &mut Reader<'_>) -> Result<Hash256, ReadFault>
    ensures { Reads hash (λ h. h) reader.old reader.new result }
{
    Ok(Hash256(reader.array()?))
}

// The request, where no byte is left.
fn at_end(reader: &Reader<'_>, request: Request) -> Result<Request, RequestFault>
    ensures told { Told (ended reader.now request) result }
    ensures memory { IfErr result (λ fault. fault ≢ RequestFault.Memory) }
{
    let at = reader.at();
    if reader.rest() > 0 {
        return Err(RequestFault::BadRequest { at });
    }
    Ok(request)
}

fn read_connect(alloc: Global, body: &[u8]) -> Result<Request, RequestFault>
    ensures told { Told (request_of Kind.Connect body.now) result }
    ensures keeps { length body.now ≤ LONGEST_BODY → IfOk result IsRequest }
{
    let block = read_block(alloc, body)?;
    Ok(Request::Connect {
        block,
        body: Bytes::from_slice(alloc, body)?,
    })
}

/// The request of a body of this kind. Memory is wanted for Connect alone.
#[tactic(auto, unfolding(crate::specs::Requests::request_of))]
pub fn read_request(alloc: Global, kind: Kind, body: &[u8]) -> Result<Request, RequestFault>
    // It is read exactly where the body is in its form, and else departs at the place that is told.
    ensures told { Told (request_of kind body.now) result }
    ensures within { IfErr result (IsWithin body.now) }
    ensures memory { IfErr result (λ fault. fault ≡ RequestFault.Memory → kind ≡ Kind.Connect) }
    // What is read keeps the conditions of the calls that take a request.
    ensures keeps { length body.now ≤ LONGEST_BODY → IfOk result IsRequest }
{
    let mut reader = Reader::new(body);
    match kind {
        Kind::Connect => read_connect(alloc, body),
        Kind::Disconnect => {
            let hash = read_hash(&mut reader)?;
            at_end(&reader, Request::Disconnect { hash })
        }
        Kind::Tip => at_end(&reader, Request::Tip),
        Kind::List => {
            let height = reader.u32()?;
            at_end(&reader, Request::List { height })
        }
        Kind::Row => {
            let height = reader.u32()?;
            let hash = read_hash(&mut reader)?;
            at_end(&reader, Request::Row { height, hash })
        }
        Kind::Payees => {
            let height = reader.u32()?;
            let count = reader.u16()?;
            at_end(&reader, Request::Payees { height, count })
        }
        Kind::Members => {
            let kind = reader.u8()?;
            let base = reader.u32()?;
            at_end(&reader, Request::Members { kind, base })
        }
        Kind::Quorums => {
            let height = reader.u32()?;
            at_end(&reader, Request::Quorums { height })
        }
        Kind::Diff => {
            let base = read_hash(&mut reader)?;
            let block = read_hash(&mut reader)?;
            at_end(&reader, Request::Diff { base, block })
        }
        Kind::Pin => {
            let height = reader.u32()?;
            at_end(&reader, Request::Pin { height })
        }
        Kind::Page => {
            let pin = reader.u32()?;
            let from = reader.u32()?;
            let count = reader.u16()?;
            at_end(&reader, Request::Page { pin, from, count })
        }
        Kind::Release => {
            let pin = reader.u32()?;
            at_end(&reader, Request::Release { pin })
        }
    }
}
