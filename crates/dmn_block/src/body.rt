//! The body of a request that connects a block.

ghost use Rattle.dmn_block.specs.Body.{connect_body, connect_body_sound, header, header_sound};

use crate::with_id::WithId;
use dmn_bytes::{Hash256, Items, ReadError, Reader, Sink, Text};
use dmn_rows::Verdict;
use std::alloc::Global;

/// A block's header, 80 bytes.
#[derive(Clone, Copy, Debug, PartialEq, Eq)]
pub struct Header {
    pub version: u32,
    /// The hash of the block before.
    pub prev: Hash256,
    /// The Merkle root of the transactions.
    pub merkle: Hash256,
    pub time: u32,
    pub bits: u32,
    pub nonce: u32,
}

/// The body of a request that connects a block.
#[derive(Debug, Drop)]
pub struct ConnectBody {
    /// The block's hash.
    pub hash: Hash256,
    pub header: Header,
    pub txs: Items<WithId>,
    pub verdicts: Items<Verdict>,
}

#[tactic(auto, using(dmn_bytes::proofs::Send::sent_then), unfolding(crate::specs::Body::header))]
impl Text for Header {
    ghost format = { header };

    ghost sound = { header_sound };

    fn read(reader: &mut Reader<'_>, alloc: Global) -> Result<Header, ReadError> {
        let version = reader.u32()?;
        let prev = Hash256::read(reader, alloc)?;
        let merkle = Hash256::read(reader, alloc)?;
        let time = reader.u32()?;
        let bits = reader.u32()?;
        let nonce = reader.u32()?;
        Ok(Header {
            version,
            prev,
            merkle,
            time,
            bits,
            nonce,
        })
    }

    fn feed<S: Sink>(&self, sink: &mut S) {
        self.version.feed(sink);
        self.prev.feed(sink);
        self.merkle.feed(sink);
        self.time.feed(sink);
        self.bits.feed(sink);
        self.nonce.feed(sink);
    }
}

#[tactic(auto, using(dmn_bytes::proofs::Send::sent_then), unfolding(crate::specs::Body::connect_body))]
impl Text for ConnectBody {
    ghost format = { connect_body };

    ghost sound = { connect_body_sound };

    fn read(reader: &mut Reader<'_>, alloc: Global) -> Result<ConnectBody, ReadError> {
        let hash = Hash256::read(reader, alloc)?;
        let header = Header::read(reader, alloc)?;
        let txs = Items::read(reader, alloc)?;
        let verdicts = Items::read(reader, alloc)?;
        Ok(ConnectBody {
            hash,
            header,
            txs,
            verdicts,
        })
    }

    fn feed<S: Sink>(&self, sink: &mut S) {
        self.hash.feed(sink);
        self.header.feed(sink);
        self.txs.feed(sink);
        self.verdicts.feed(sink);
    }
}
