//! The journal: commands in a file, each on the disk before it is answered.
#![tactic(auto)]

mod fault;
mod head;
mod journal;
mod laws;
mod limits;
mod making;
mod record;
mod records;
mod text;

pub use fault::{AppendFault, JournalFault};
pub use head::header;
pub use journal::Journal;
pub use laws::{
    commands_once, entries_are_by_their_format, journals_have_their_commands, made_is_a_journal,
    others_are_closed, records_are_found,
};
pub use limits::{CONNECT, DISCONNECT, LONGEST_BODY};
pub use making::create;
pub use record::{RecordText, disconnect_text, entry_text};
pub use records::{JournalEntry, next};
