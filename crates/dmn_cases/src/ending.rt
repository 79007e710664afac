//! How a run ends, in words.

use dmn_commands::Status;
use std::alloc::{AllocError, Global};

/// The word for a status, and the place that it tells.
fn told(status: Status) -> (&'static str, Option<u64>) {
    match status {
        Status::Done => ("Done", None),
        Status::Words => ("Words", None),
        Status::Memory => ("Memory", None),
        Status::DiskFault => ("DiskFault", None),
        Status::LineFault => ("LineFault", None),
        Status::NotJournal { at } => ("NotJournal", Some(at)),
        Status::StartForm { at } => ("StartForm", Some(at as u64)),
        Status::CutInput => ("CutInput", None),
        Status::Enough => ("Enough", None),
        Status::AlreadyInit => ("AlreadyInit", None),
    }
}

/// Whether the station failed in a run that ends so.
pub fn is_fault(status: Status) -> bool {
    matches!(status, Status::DiskFault | Status::LineFault)
}

/// How a run ends, as cases say it.
pub fn ending(alloc: Global, status: Status) -> Result<String, AllocError> {
    match told(status) {
        (word, None) => String::from_str(alloc, word),
        (word, Some(at)) => format!(in alloc; "{word} at {at}"),
    }
}
