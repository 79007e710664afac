//! What is known of quorums for the next block: it changes nothing of the disk.

ghost use Rattle.std.specs.Prelude.{◌≡◌, ◌+◌, false, IfOk};
ghost use Rattle.dmn_branch.specs.Machine.{formed, tip};
ghost use Rattle.dmn_outside.specs.Disk.{Told};
ghost use Rattle.dmn_registry.specs.Machine.{Machine, state_of};
ghost use Rattle.dmn_registry.specs.Own.{StandsFor, StandsOn};

use crate::registry::Registry;
use dmn_bytes::Memory;
use dmn_quorums::Forming;
use std::alloc::Global;

impl Registry {
    /// What is known of the quorum of each type for a block at a height, where that is the one behind the tip's; nothing at
    /// another.
    pub fn formings_at(&mut self, alloc: Global, height: u32) -> Result<Vec<Forming>, Memory>
        ensures formed { (m : Machine) → StandsFor self.old m → height ≡ (tip (state_of m)).height + 1 → IfOk result (λ formings. formings.items ≡ formed (state_of m)) }

        // The disk stays as it is.
        ensures same { (m : Machine) (told : Told) → StandsOn self.old m told → StandsOn self.new m told }
        ensures journal { self.new.journal ≡ self.old.journal }
        ensures newest { self.new.newest ≡ self.old.newest }
        ensures spent { self.new.spent ≡ self.old.spent }
    {
        self.branch.formings_at(alloc, height)
    }
}
