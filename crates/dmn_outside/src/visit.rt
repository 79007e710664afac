//! What was sent to one caller.

ghost use Rattle.std.specs.Prelude.{◌≡◌, ◌++◌, [], length, replicate, OnOk, OnErr};

use dmn_bytes::{Bytes, Memory};
use std::alloc::Global;

/// What was sent to one caller, the moment of each byte, and this caller's own part of the line's faults.
#[derive(Drop)]
pub struct Visit {
    pub sent: Bytes,
    pub stamps: Vec<u64>,
    pub own: u64,
    ghost even: { length stamps.items ≡ length sent },
}

impl Visit {
    pub fn new(alloc: Global) -> Visit
        ensures sent { result.sent ≡ [] }
        ensures own { result.own ≡ 0 }
        ensures stamps { result.stamps.items ≡ [] }
    {
        Visit {
            sent: Bytes::new(alloc),
            stamps: Vec::new(alloc),
            own: 0,
        }
    }

    /// Adds bytes and the moment of each. Without memory nothing changes.
    pub fn add(&mut self, bytes: &[u8], moment: u64) -> Result<(), Memory>
        ensures own { self.new.own ≡ self.old.own }
        ensures sent { OnOk result (self.new.sent ≡ self.old.sent ++ bytes.now) }
        ensures stamps { OnOk result (self.new.stamps.items ≡ self.old.stamps.items ++ replicate (length bytes.now) moment) }
        ensures sent_err { OnErr result (self.new.sent ≡ self.old.sent) }
        ensures stamps_err { OnErr result (self.new.stamps.items ≡ self.old.stamps.items) }
    {
        let Some(len) = self.stamps.len().checked_add(bytes.len()) else {
            return Err(Memory);
        };
        self.stamps.reserve(bytes.len())?;
        self.sent.extend(bytes)?;
        match self.stamps.resize(len, moment) {
            Ok(()) => Ok(()),
            Err(_) => unreachable!(),
        }
    }
}
