//! The body by which a header comes.

ghost use Rattle.std.specs.Prelude.{◌≡◌};
ghost use Rattle.dmn_light.specs.Header.{header_body, header_body_sound, root_in};

use dmn_bytes::{Hash256, ReadError, Reader, Sink, Text};
use std::alloc::Global;

/// A block's hash, and its header: version, hash of the block before (bytes 4 to 35), root of its transactions (bytes 36
/// to 67), time, bits and nonce.
#[derive(Clone, Copy, Debug, PartialEq, Eq)]
pub struct HeaderBody {
    pub hash: Hash256,
    pub header: [u8; 80],
}

#[tactic(auto, using(dmn_bytes::proofs::Send::sent_then), unfolding(crate::specs::Header::header_body))]
impl Text for HeaderBody {
    ghost format = { header_body };

    ghost sound = { header_body_sound };

    fn read(reader: &mut Reader<'_>, alloc: Global) -> Result<HeaderBody, ReadError> {
        let hash = Hash256::read(reader, alloc)?;
        let header = <[u8; 80]>::read(reader, alloc)?;
        Ok(HeaderBody { hash, header })
    }

    fn feed<S: Sink>(&self, sink: &mut S) {
        self.hash.feed(sink);
        self.header.feed(sink);
    }
}

impl HeaderBody {
    /// The root of the block's transactions.
    pub fn root(&self) -> Hash256
        ensures { result ≡ root_in self.now.header }
    {
        let mut root = [0; 32];
        root.copy_from_slice(&self.header[36..68]);
        Hash256(root)
    }
}
