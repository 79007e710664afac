//! Sets of bits, and commitments.

ghost use Rattle.std.specs.Prelude.{◌≡◌, ◌+◌, ◌/◌, ◌<◌, false, length, IfOk};
ghost use Rattle.dmn_payloads.specs.Commitments.{bits, bits_sound, bit_bytes, is_padded, is_null, commitment, commitment_sound};
ghost use Rattle.dmn_payloads.specs.Mined.{mined_struct, mined_struct_sound};

use crate::payloads::read_version;
use dmn_bytes::{
    Bytes, Departure, Hash256, Memory, ReadError, Reader, Sink, Text, feed_compact, is_zero,
};
use std::alloc::Global;

/// A set of bits. They fill bytes from the lowest bit, and those past the count are 0.
#[derive(Debug, Drop)]
pub struct Bits {
    /// How many bits there are.
    pub count: u64,
    pub bytes: Bytes,
}

/// A quorum's final commitment (DIP-0006).
#[derive(Debug, Drop)]
pub struct Commitment {
    pub version: u16,
    /// The type of the quorum.
    pub kind: u8,
    /// The hash of the block from which the quorum's members are drawn.
    pub quorum: Hash256,
    /// Which members signed.
    pub signers: Bits,
    /// Which members are valid.
    pub valid: Bits,
    /// The quorum's public key (BLS).
    pub key: [u8; 48],
    /// The hash of the quorum's verification vector.
    pub vvec: Hash256,
    pub quorum_sig: [u8; 96],
    pub members_sig: [u8; 96],
}

#[tactic(auto, using(dmn_bytes::proofs::Send::sent_then), unfolding(crate::specs::Commitments::bits))]
impl Text for Bits {
    ghost format = { bits };

    ghost sound = { bits_sound };

    fn read(reader: &mut Reader<'_>, alloc: Global) -> Result<Bits, ReadError> {
        let count = reader.compact()?;
        let n = byte_count(count) as usize;
        let front = reader.take(n)?;
        if !padding_is_zero(count, front) {
            let at = reader.at() - 1;
            return Err(ReadError::Departs(Departure::Form { at }));
        }
        Ok(Bits {
            count,
            bytes: Bytes::from_slice(alloc, front)?,
        })
    }

    fn feed<S: Sink>(&self, sink: &mut S) {
        feed_compact(self.count, sink);
        sink.put(self.bytes.as_slice());
    }
}

fn byte_count(count: u64) -> u64
    ensures { result ≡ bit_bytes count }
{
    if count % 8 == 0 {
        count / 8
    } else {
        count / 8 + 1
    }
}

/// Whether no bit past the count is set.
fn padding_is_zero(count: u64, bytes: &[u8]) -> bool
    requires { length bytes.now ≡ bit_bytes count }
    ensures test { result ≡ is_padded count bytes.now }
    ensures some { result ≡ false → 0 < length bytes.now }
{
    let over = count % 8;
    if over == 0 {
        return true;
    }
    let last = bytes[bytes.len() - 1];
    u16::from(last) < 1u16 << over
}

#[tactic(auto, using(dmn_bytes::proofs::Send::sent_then), unfolding(crate::specs::Commitments::commitment))]
impl Text for Commitment {
    ghost format = { commitment };

    ghost sound = { commitment_sound };

    fn read(reader: &mut Reader<'_>, alloc: Global) -> Result<Commitment, ReadError> {
        let version = u16::read(reader, alloc)?;
        let kind = u8::read(reader, alloc)?;
        let quorum = Hash256::read(reader, alloc)?;
        let signers = Bits::read(reader, alloc)?;
        let valid = Bits::read(reader, alloc)?;
        let key = <[u8; 48]>::read(reader, alloc)?;
        let vvec = Hash256::read(reader, alloc)?;
        let quorum_sig = <[u8; 96]>::read(reader, alloc)?;
        let members_sig = <[u8; 96]>::read(reader, alloc)?;
        Ok(Commitment {
            version,
            kind,
            quorum,
            signers,
            valid,
            key,
            vvec,
            quorum_sig,
            members_sig,
        })
    }

    fn feed<S: Sink>(&self, sink: &mut S) {
        self.version.feed(sink);
        self.kind.feed(sink);
        self.quorum.feed(sink);
        self.signers.feed(sink);
        self.valid.feed(sink);
        self.key.feed(sink);
        self.vvec.feed(sink);
        self.quorum_sig.feed(sink);
        self.members_sig.feed(sink);
    }
}

impl Bits {
    /// An equal set.
    pub fn copy(&self, alloc: Global) -> Result<Bits, Memory>
        ensures { IfOk result (λ v. v ≡ self.now) }
    {
        Ok(Bits {
            count: self.count,
            bytes: Bytes::from_slice(alloc, self.bytes.as_slice())?,
        })
    }
}

impl Commitment {
    /// An equal commitment.
    pub fn copy(&self, alloc: Global) -> Result<Commitment, Memory>
        ensures { IfOk result (λ v. v ≡ self.now) }
    {
        Ok(Commitment {
            version: self.version,
            kind: self.kind,
            quorum: self.quorum,
            signers: self.signers.copy(alloc)?,
            valid: self.valid.copy(alloc)?,
            key: self.key,
            vvec: self.vvec,
            quorum_sig: self.quorum_sig,
            members_sig: self.members_sig,
        })
    }

    /// Whether it says that the quorum failed: no bit is set, and key, hash and both signatures are zero.
    pub fn is_null(&self) -> bool
        ensures { result ≡ is_null self.now }
    {
        is_zero(self.signers.bytes.as_slice())
            && is_zero(self.valid.bytes.as_slice())
            && is_zero(&self.key)
            && is_zero(&self.vvec.0)
            && is_zero(&self.quorum_sig)
            && is_zero(&self.members_sig)
    }
}

/// A commitment, and the height of the block that has it.
#[derive(Debug, Drop)]
pub(crate) struct Mined {
    pub(crate) height: u32,
    pub(crate) commitment: Commitment,
}

#[tactic(auto, using(dmn_bytes::proofs::Send::sent_then), unfolding(crate::specs::Mined::mined_struct, crate::specs::Commitments::mined, crate::specs::Payloads::version_one))]
impl Text for Mined {
    ghost format = { mined_struct };

    ghost sound = { mined_struct_sound };

    fn read(reader: &mut Reader<'_>, alloc: Global) -> Result<Mined, ReadError> {
        read_version(reader)?;
        let height = u32::read(reader, alloc)?;
        let commitment = Commitment::read(reader, alloc)?;
        Ok(Mined { height, commitment })
    }

    fn feed<S: Sink>(&self, sink: &mut S) {
        1u16.feed(sink);
        self.height.feed(sink);
        self.commitment.feed(sink);
    }
}
