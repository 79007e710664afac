//! The state after each block, prepared and then added; and what is asked of the heights that are held.
#![tactic(auto)]

mod asked;
mod branch;
mod change;
mod coinbase;
mod commitments;
mod compaction;
mod confirm;
mod drawn;
mod fault;
mod from_data;
mod held;
mod law;
mod limits;
mod listing;
mod mark;
mod origin;
mod pins;
mod quorums;
mod setting;
mod spends;
mod step;
mod tip;
mod to_data;
mod transactions;

pub use branch::{Branch, names_each_field};
pub use change::RowChange;
pub use dmn_restore::DataFault;
pub use fault::{DisconnectRefusal, PinFault, PrepareFault};
pub use held::Prepared;
pub use law::{
    bases_are_held, blocks_have_coinbases, coinbases_tell_roots, refused_by_the_least_number,
    taken_back_as_before, tip_is_at_its_height,
};
pub use limits::MOST_EVENTS;
pub use listing::Listing;
pub use tip::Tip;
