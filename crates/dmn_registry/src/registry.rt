//! The registry.

ghost use Rattle.std.specs.Prelude.{◌≡◌, ◌+◌, ◌-◌, ◌≤◌};
ghost use Rattle.dmn_outside.specs.Disk.{IfReads, Told};
ghost use Rattle.dmn_branch.specs.Step.{profile_of};
ghost use Rattle.dmn_registry.specs.Faithful.{every, longest_tail};
ghost use Rattle.dmn_registry.specs.Machine.{Machine};
ghost use Rattle.dmn_registry.specs.Own.{StandsOn};
ghost use Rattle.dmn_slots.specs.Slots.{records_of};

use dmn_branch::Branch;
use dmn_journal::{Journal, JournalFault};
use dmn_slots::{Mark, tail};

/// Why a registry could not be opened.
pub type OpenFault = JournalFault;

/// A branch, and the journal of its commands on a disk, with snapshots in two slots. Pins are in memory alone. After a disk
/// fault it is spent, and is opened again.
#[derive(Drop)]
pub struct Registry {
    pub(crate) branch: Branch,
    pub(crate) journal: Journal,
    // The newest valid slot.
    pub(crate) newest: Option<Mark>,
    pub(crate) spent: bool,
}

impl Registry {
    /// The branch.
    pub fn branch(&self) -> &Branch
        ensures { result.now ≡ self.now.branch }
    {
        &self.branch
    }

    /// The journal's end, and how many records it has.
    pub fn journal(&self) -> &Journal
        ensures { result.now ≡ self.now.journal }
    {
        &self.journal
    }

    /// Whether a disk fault left it unusable.
    pub fn spent(&self) -> bool
        ensures { result ≡ self.now.spent }
    {
        self.spent
    }

    /// How many records of the journal an opening replays: those behind the newest snapshot.
    pub fn tail(&self) -> u64
        ensures is { result ≡ self.now.journal.records - records_of self.now.newest }

        // Where the registry stands for a machine on a disk that is told they are few: fewer than a snapshot is due at, and those
        // by which the tip went below the top; and so never more than may be taken back besides.
        ensures few { (m : Machine) (told : Told) → StandsOn self.now m told → IfReads told (λ all. result ≤ longest_tail m) }
        ensures most { (m : Machine) (told : Told) → StandsOn self.now m told → IfReads told (λ all. result ≤ every m.start + (profile_of m.start).depth) }
    {
        tail(self.newest, self.journal.records)
    }
}
