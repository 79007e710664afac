//! A command, as it is read from a record of the journal.

ghost use Rattle.dmn_journal.specs.Reading.{entry_departs};
ghost use Rattle.dmn_journal.specs.Reads.{entry_of};
ghost use Rattle.dmn_registry.specs.Opening.{Reads};
ghost use Rattle.std.specs.Prelude.{◌≡◌, ◌≤◌, length, None, IfErr};
ghost use Rattle.dmn_block.specs.Fault.{IsWithin};

use dmn_block::{BlockFault, BlockFrame, read_block};
use dmn_bytes::Hash256;
use dmn_journal::{CONNECT, JournalEntry};
use std::alloc::Global;

/// A command, as it is read.
#[derive(Drop)]
pub enum Command {
    /// A block is added.
    Connect(BlockFrame),
    /// The last block, of this hash, is taken back.
    Disconnect(Hash256),
}

// The hash that 32 bytes are.
fn hash_of(bytes: &[u8]) -> Hash256
    requires { length bytes.now ≡ 32 }
    ensures { result ≡ record { 0 = bytes.now } }
{
    let mut hash = [0; 32];
    hash.copy_from_slice(bytes);
    Hash256(hash)
}

/// The command of a record, or where its body departs from that of a Connect.
pub fn read_command(alloc: Global, entry: &JournalEntry) -> Result<Command, BlockFault>
    requires form { entry_departs (entry_of entry.now) ≡ None }
    ensures reads { Reads result (entry_of entry.now) }
    ensures within { IfErr result (λ fault. IsWithin fault entry.now.body) }
    ensures few { length entry.now.body ≤ 16777216 }
{
    let body = entry.body.as_slice();
    if entry.kind == CONNECT {
        match read_block(alloc, body) {
            Ok(block) => Ok(Command::Connect(block)),
            Err(fault) => Err(fault),
        }
    } else {
        Ok(Command::Disconnect(hash_of(body)))
    }
}
