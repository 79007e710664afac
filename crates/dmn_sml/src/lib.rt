//! The simplified list of masternodes (DIP-0004): its entries, the list in the order of their hashes, and its root.
#![tactic(auto)]

mod entry;
mod list;
mod page;

pub use entry::{SmlEntry, entry_of, entry_text};
pub use list::{SmlList, list_root};
