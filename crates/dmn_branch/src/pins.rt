//! Pins: lists that stay readable, whatever comes, until they are released.

ghost use Rattle.std.specs.Prelude.{◌≡◌, ◌+◌, ◌<◌, ◌==◌, ℕ, [], ◌∷◌, ◌++◌, OnOk, OnErr, filter, find, length, map, nat_lt, not};
ghost use Rattle.std.specs.Option.{option_copied};
ghost use Rattle.dmn_branch.specs.Compact.{pin_after, pin_version, AreMade, HasVersion};
ghost use Rattle.dmn_branch.specs.Pins.{most_pins};
ghost use Rattle.dmn_branch.specs.Stands.{marks_over, most_mark};

use crate::compaction::Compaction;
use dmn_bytes::Memory;
use dmn_indexes::Version;
use dmn_versions::Root;
use std::alloc::Global;
use std::marker::Model;

/// How many pins are live at most.
pub const MOST_PINS: usize = 16;

/// A pinned list: its number, its height, the tree of its rows, and how many nodes the arena of rows had then.
#[derive(Clone, Copy, Debug)]
pub struct Pin {
    pub number: u32,
    pub height: u32,
    pub root: Root,
    pub mark: u64,
}

impl Pin {
    // A version with the tree of rows alone.
    fn version(&self) -> Version
        ensures { result ≡ pin_version self.now }
    {
        let mut version = Version::empty();
        version.rows = self.root;
        version
    }
}

/// The pins that are live, in the order of their numbers. Contracts see the list.
#[derive(Debug, Drop)]
pub struct PinList {
    pub(crate) items: Vec<Pin>,
}

impl Model for PinList {
    ghost use Rattle.std.specs.Prelude.{List};
    ghost use Rattle.dmn_branch.specs.declared.pins.Pin.{Pin as Item};

    ghost Value = { List Item };

    ghost view = { λ p. p.items.items };
}

impl PinList {
    /// None, which takes no memory.
    pub fn new(alloc: Global) -> PinList
        ensures { result ≡ [] }
    {
        PinList {
            items: Vec::new(alloc),
        }
    }

    /// Whether as many are live as may be.
    pub fn is_full(&self) -> bool
        ensures { result ≡ not (nat_lt (length self.now) most_pins) }
    {
        self.items.len() >= MOST_PINS
    }

    /// Adds one behind the others. Without memory nothing changes.
    pub fn add(&mut self, pin: Pin) -> Result<(), Memory>
        ensures ok { OnOk result (self.new ≡ self.old ++ pin ∷ []) }
        ensures err { OnErr result (self.new ≡ self.old) }
    {
        self.items.push(pin).map_err(|_| Memory)
    }

    /// The one of a number, where it is live.
    pub fn find(&self, number: u32) -> Option<&Pin>
        ensures { option_copied result ≡ find (λ pin. pin.number == number) self.now }
    {
        self.items.iter().find(|pin| pin.number == number)
    }

    /// Takes the one of a number out.
    pub fn drop(&mut self, number: u32)
        ensures { self.new ≡ filter (λ pin. not (pin.number == number)) self.old }
    {
        self.items.retain(|pin| pin.number != number);
    }

    /// Adds the version of each pin.
    pub fn add_versions(&self, versions: &mut Vec<Version>) -> Result<(), Memory>
        ensures { OnOk result (versions.new.items ≡ versions.old.items ++ map pin_version self.now) }
    {
        for pin in &self.items {
            versions.push(pin.version()).map_err(|_| Memory)?;
        }
        Ok(())
    }

    /// Gives each pin its new root, of which the first stands at a place, and its new mark.
    pub fn renew(&mut self, made: &Compaction, first: usize)
        requires { (place : ℕ) → place < length self.old → HasVersion made.now (first + place) }
        ensures { AreMade (λ place. pin_after made.now (first + place)) self.old self.new }
    {
        for (place, pin) in self.items.iter_mut().enumerate() {
            let version = made.version(first + place);
            pin.root = version.rows;
            pin.mark = made.rows_mark(pin.mark);
        }
    }

    // The greatest of a mark and those of the pins.
    fn most_mark(&self, mark: u64) -> u64
        ensures { result ≡ most_mark mark self.now }
    {
        let mut most = mark;
        for pin in &self.items {
            most = most.max(pin.mark);
        }
        most
    }

    /// The marks of a height, but that the arena of rows keeps what pins need.
    pub fn marks_over(&self, marks: &[u64; 8]) -> [u64; 8]
        ensures { result ≡ marks_over self.now marks.now }
    {
        [
            self.most_mark(marks[0]),
            marks[1],
            marks[2],
            marks[3],
            marks[4],
            marks[5],
            marks[6],
            marks[7],
        ]
    }
}
