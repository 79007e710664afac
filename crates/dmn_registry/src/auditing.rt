//! An audit: file 0 is replayed, and what is found at its end is told. Nothing is written or synced.

ghost use Rattle.std.specs.Prelude.{◌≡◌, ◌≤◌, true, IsErrOf, length, filter};
ghost use Rattle.std.specs.Iterator.{YieldsFirstRef};
ghost use Rattle.dmn_branch.specs.Step.{most_rows};
ghost use Rattle.dmn_journal.specs.Sure.{NeverFails};
ghost use Rattle.dmn_outside.specs.Changes.{OnlyReads};
ghost use Rattle.dmn_outside.specs.Counts.{Rose};
ghost use Rattle.dmn_outside.specs.Crashes.{IsKnown};
ghost use Rattle.dmn_registry.specs.Audits.{Audits, AuditsOwn, audit_of, is_banned};
ghost use Rattle.dmn_registry.specs.Machine.{Machine};
ghost use Rattle.dmn_registry.specs.Own.{IsOwn, StandsFor};

use crate::registry::Registry;
use crate::replaying::replay;
use dmn_branch::Listing;
use dmn_bytes::Hash256;
use dmn_journal::JournalFault;
use dmn_outside::Disk;
use dmn_rows::MnRow;
use std::alloc::Global;

/// Why there is no audit.
pub type AuditFault = JournalFault;

/// What a journal leads to.
#[derive(Clone, Copy, Debug, PartialEq, Eq)]
pub struct Audit {
    /// The height of the tip.
    pub height: u32,
    /// How many masternodes its list has.
    pub rows: u32,
    /// How many of these are banned.
    pub banned: u32,
    /// The root of its simplified list; zero where that is empty.
    pub root: Hash256,
    /// How many records the journal has.
    pub records: u64,
}

// The next row of a list.
fn next_row<'a>(rows: &mut Listing<'a>) -> Option<&'a MnRow>
    ensures { YieldsFirstRef (λ s. s.rows) rows.old result rows.new }
{
    rows.next()
}

// How many rows of a list are banned. No list has more rows than a list may have.
fn banned_in(mut rows: Listing<'_>) -> u32
    ensures { length rows.entry.rows ≤ most_rows → result ≡ length (filter is_banned rows.entry.rows) }
{
    let mut banned = 0u32;
    'rows: while let Some(row) = next_row(&mut rows) {
        if row.banned != 0 {
            banned = banned.saturating_add(1);
        }
    }
    banned
}

impl Registry {
    /// What the registry's commands lead to, as an audit tells it.
    pub fn summary(&self) -> Audit
        ensures { (m : Machine) → StandsFor self.now m → result ≡ audit_of m }
    {
        let height = self.branch.tip().height;
        let rows = self.branch.list_at(height);
        Audit {
            height,
            rows: rows.size(),
            root: rows.root(),
            banned: banned_in(rows),
            records: self.journal.records,
        }
    }

    /// Replays the journal of a disk from its first record, and tells what it leads to.
    pub fn audit<D: Disk>(alloc: Global, disk: &mut D) -> Result<Audit, AuditFault>
        // It is told of the machine of file 0; or file 0 departs from a journal image at this place. This holds of any disk.
        ensures audits { Audits result (D.disk disk.old).told }

        // Where the disk is at rest and its image is own, it is told of the machine that is recovered from it, and nothing
        // departs.
        ensures recovered { (m : Machine) → IsKnown (IsOwn m) (D.disk disk.old).told → AuditsOwn result m }
        ensures disk { OnlyReads (D.disk disk.old) (D.disk disk.new) }
        ensures line { D.line disk.new ≡ D.line disk.old }
        ensures room { D.room disk.new ≡ D.room disk.old }
        ensures time { D.time disk.old ≤ D.time disk.new }

        // DiskFault comes only where the count of disk faults rose, and not over a disk that tells its room.
        ensures later { (D.disk disk.old).faults ≤ (D.disk disk.new).faults }
        ensures fault { IsErrOf result JournalFault.DiskFault → Rose (D.disk disk.old).faults (D.disk disk.new).faults }
        ensures sure { D.tells_room ≡ true → NeverFails result JournalFault.DiskFault (D.disk disk.old) (D.disk disk.new) }
    {
        match replay(alloc, disk) {
            Ok(registry) => Ok(registry.summary()),
            Err(fault) => Err(fault),
        }
    }
}
