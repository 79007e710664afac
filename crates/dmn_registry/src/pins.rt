//! Pins of the registry: they change nothing of the disk.

ghost use Rattle.std.specs.Prelude.{◌≡◌, false, is_some, IfErr, IfOk, MatchBool, None, OnErr, Some};
ghost use Rattle.dmn_branch.specs.Fault.{TellsFull};
ghost use Rattle.dmn_branch.specs.Pins.{free_number, pin_of};
ghost use Rattle.dmn_branch.specs.Stands.{IsHeld};
ghost use Rattle.dmn_outside.specs.Disk.{Told};
ghost use Rattle.dmn_registry.specs.Machine.{Machine, pinned, released};
ghost use Rattle.dmn_registry.specs.Own.{StandsFor, StandsOn};

use crate::registry::Registry;
use dmn_branch::PinFault;

impl Registry {
    /// Pins the list of a height that is held: whatever is connected or disconnected, it stays readable until it is
    /// released, or the registry is opened again. Its number is one that no pin had before. The fault is PinsFull exactly
    /// where as many are live as may be, or the last number was given; or memory ran out.
    pub fn pin(&mut self, height: u32) -> Result<u32, PinFault>
        requires usable { self.old.spent ≡ false }
        requires held { IsHeld self.old.branch height }
        ensures number { (m : Machine) → StandsFor self.old m → IfOk result (λ number. free_number m.pins ≡ Some number) }
        ensures fresh { (m : Machine) → StandsFor self.old m → IfOk result (λ number. pin_of m.pins number ≡ None) }
        ensures full { (m : Machine) → StandsFor self.old m → IfErr result (TellsFull (free_number m.pins)) }

        // The disk stays as it is.
        ensures pinned { (m : Machine) (told : Told) → StandsOn self.old m told → IfOk result (λ number. StandsOn self.new (pinned m number height) told) }
        ensures same { (m : Machine) (told : Told) → StandsOn self.old m told → OnErr result (StandsOn self.new m told) }
        ensures journal { self.new.journal ≡ self.old.journal }
        ensures newest { self.new.newest ≡ self.old.newest }
        ensures spent { self.new.spent ≡ false }
    {
        self.branch.pin(height)
    }

    /// Releases a pin. False exactly where no live pin has the number, and then nothing changes.
    pub fn release(&mut self, pin: u32) -> bool
        requires usable { self.old.spent ≡ false }
        ensures live { (m : Machine) → StandsFor self.old m → result ≡ is_some (pin_of m.pins pin) }

        // The disk stays as it is.
        ensures released { (m : Machine) (told : Told) → StandsOn self.old m told → MatchBool result (StandsOn self.new (released m pin) told) (StandsOn self.new m told) }
        ensures journal { self.new.journal ≡ self.old.journal }
        ensures newest { self.new.newest ≡ self.old.newest }
        ensures spent { self.new.spent ≡ false }
    {
        self.branch.release(pin)
    }
}
