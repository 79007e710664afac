//! At which of its calls a station in memory fails.

ghost use Rattle.std.specs.Prelude.{◌≡◌, ◌↔◌, IsTrue};
ghost use Rattle.dmn_outside.specs.Failing.{IsListed};

use std::marker::Model;

/// The numbers of these calls, and the number from which on each fails.
#[derive(Drop)]
pub struct Plan {
    fails: Vec<u64>,
    stop: Option<u64>,
}

impl Model for Plan {
    ghost use Rattle.dmn_outside.specs.Failing.{Plan};

    ghost Value = { Plan };

    ghost view = { λ p. record { fails = p.fails.items; stop = p.stop } };
}

impl Plan {
    pub fn new(fails: Vec<u64>, stop: Option<u64>) -> Plan
        ensures { result ≡ record { fails = fails.items; stop = stop } }
    {
        Plan { fails, stop }
    }

    /// Whether the call of this number is to fail.
    pub fn has(&self, number: u64) -> bool
        ensures { IsTrue result ↔ IsListed self.now number }
    {
        if self.fails.contains(&number) {
            return true;
        }
        match self.stop {
            Some(stop) => stop <= number,
            None => false,
        }
    }
}
