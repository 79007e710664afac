//! Records that are appended: each goes behind a closed gate, which is opened by a write of its own after a sync.

ghost use Rattle.std.specs.Prelude.{◌≡◌, ◌↔◌, ◌+◌, ◌<◌, ◌≤◌, [], ◌∷◌, ◌++◌, List, ℕ, true, OnOk, IsErrOf};
ghost use Rattle.dmn_outside.specs.Changes.{but};
ghost use Rattle.dmn_outside.specs.Counts.{Rose};
ghost use Rattle.dmn_outside.specs.Crashes.{LeavesOnly};
ghost use Rattle.dmn_journal.specs.Journal.{Appending, Entry, Stands, size_of_record};
ghost use Rattle.dmn_journal.specs.Sure.{NeverFails};

use crate::fault::AppendFault;
use crate::record::RecordText;
use dmn_outside::{Disk, write_synced};

/// The closed gate's place, and the number of records before it.
#[derive(Debug, Drop)]
pub struct Journal {
    pub end: u64,
    pub records: u64,
    ghost in_range: { records ≤ end },
}

impl Journal {
    /// Appends a record, where the journal is then at most so long, with its closed gate. It takes no memory.
    pub fn append<D: Disk>(
        &mut self,
        disk: &mut D,
        limit: u64,
        entry: &RecordText,
    ) -> Result<(), AppendFault>
        // JournalFull comes exactly where the journal would be longer, and nothing has changed then.
        ensures full { IsErrOf result AppendFault.JournalFull ↔ (limit < self.old.end + 1 + size_of_record entry.now) }
        ensures idle { IsErrOf result AppendFault.JournalFull → D.disk disk.new ≡ D.disk disk.old }
        ensures still { IsErrOf result AppendFault.JournalFull → self.new ≡ self.old }

        // DiskFault comes only where the count of disk faults rose.
        ensures fault { IsErrOf result AppendFault.DiskFault → Rose (D.disk disk.old).faults (D.disk disk.new).faults }
        ensures later { (D.disk disk.old).faults ≤ (D.disk disk.new).faults }

        // A disk that tells its room, and has as much, does not fail.
        ensures sure { D.tells_room ≡ true → self.old.end + 1 + size_of_record entry.now ≤ (D.disk disk.old).room → NeverFails result AppendFault.DiskFault (D.disk disk.old) (D.disk disk.new) }
        ensures end { OnOk result (self.new.end ≡ self.old.end + size_of_record entry.now) }
        ensures records { OnOk result (self.new.records ≡ self.old.records + 1) }

        // Once it has answered Ok, the disk has the entry, and nothing of the file is pending.
        ensures kept { OnOk result ((header : List ℕ) (commands : List Entry) → Stands header commands self.old.end (D.disk disk.old).told
            → Stands header (commands ++ entry.now ∷ []) self.new.end (D.disk disk.new).told) }

        // A crash at any moment of the call leaves the commands of before, with the entry or without.
        ensures moments { (header : List ℕ) (commands : List Entry) → Stands header commands self.old.end (D.disk disk.old).told
            → LeavesOnly (D.time disk.old) (D.disk disk.old) (D.disk disk.new) (Appending header commands entry.now (D.disk disk.old).told) }
        ensures others { but 0 (D.disk disk.new).told ≡ but 0 (D.disk disk.old).told }
        ensures line { D.line disk.new ≡ D.line disk.old }
        ensures room { D.room disk.new ≡ D.room disk.old }
        ensures time { D.time disk.old ≤ D.time disk.new }
    {
        let text = entry.as_slice();
        let size = text.len() as u64 + 1;
        if limit < size || limit - size < self.end {
            return Err(AppendFault::JournalFull);
        }
        write_synced(disk, 0, self.end + 1, text)?;
        write_synced(disk, 0, self.end, &[1])?;
        self.end += size - 1;
        self.records += 1;
        Ok(())
    }
}
