//! A journal is audited, and the text of it is sent.

ghost use Rattle.std.specs.Prelude.{◌≡◌, ◌≤◌, true, length};
ghost use Rattle.dmn_outside.specs.Changes.{OnlyReads};
ghost use Rattle.dmn_outside.specs.Counts.{Rose};
ghost use Rattle.dmn_outside.specs.Crashes.{IsKnown};
ghost use Rattle.dmn_outside.specs.Later.{IsLater};
ghost use Rattle.dmn_registry.specs.Audits.{audit_of};
ghost use Rattle.dmn_registry.specs.Machine.{Machine};
ghost use Rattle.dmn_registry.specs.Own.{IsOwn};
ghost use Rattle.dmn_audit.specs.Outcome.{EndsWell, NeverFaults, OfAudit, SendsAudit, SendsOwn};
ghost use Rattle.dmn_audit.specs.Text.{audit_text};

use crate::text::audit_text;
use dmn_outside::{Failed, Station, send_all};
use dmn_registry::{AuditFault, Registry};
use dmn_status::Status;
use std::alloc::Global;

/// Replays the journal from its first record, and sends what it leads to.
pub fn audit<T: Station>(alloc: Global, station: &mut T) -> Status
    // What was sent, by the status: the text of the machine of file 0, or nothing where that departs from a journal image.
    ensures outcome { T.tells ≡ true → SendsAudit result (T.disk station.old).told (T.line station.old).talk (T.line station.new).talk }
    ensures status { OfAudit result }

    // On a disk at rest whose image is own it is the text of the machine that is recovered from it, and nothing departs.
    ensures own { T.tells ≡ true → (m : Machine) → IsKnown (IsOwn m) (T.disk station.old).told → SendsOwn result m (T.line station.old).talk (T.line station.new).talk }

    // And where no count rises, the end is Done or Memory.
    ensures complete { (m : Machine) → IsKnown (IsOwn m) (T.disk station.old).told → ¬ Rose (T.disk station.old).faults (T.disk station.new).faults → ¬ Rose (T.line station.old).faults (T.line station.new).faults → EndsWell result }

    // The files are only read.
    ensures disk { OnlyReads (T.disk station.old) (T.disk station.new) }
    ensures later { IsLater T.tells_moments (T.time station.old) (T.time station.new) (T.line station.old) (T.line station.new) }

    // A fault comes only where its count rose, and not over a station that tells its room and has as much.
    ensures line_fault { result ≡ Status.LineFault → Rose (T.line station.old).faults (T.line station.new).faults }
    ensures disk_fault { result ≡ Status.DiskFault → Rose (T.disk station.old).faults (T.disk station.new).faults }
    ensures disk_later { (T.disk station.old).faults ≤ (T.disk station.new).faults }
    ensures sure { (m : Machine) → IsKnown (IsOwn m) (T.disk station.old).told → T.tells_room ≡ true → length (audit_text (audit_of m)) ≤ T.room station.old → NeverFaults result (T.disk station.old) (T.disk station.new) (T.line station.old) (T.line station.new) }
{
    match Registry::audit(alloc, station) {
        Err(AuditFault::NotJournal { at }) => Status::NotJournal { at },
        Err(AuditFault::DiskFault) => Status::DiskFault,
        Err(AuditFault::Memory) => Status::Memory,
        Ok(audit) => match audit_text(alloc, &audit) {
            Err(_) => Status::Memory,
            Ok(text) => match send_all(station, text.as_slice()) {
                Ok(()) => Status::Done,
                Err(Failed) => Status::LineFault,
            },
        },
    }
}
