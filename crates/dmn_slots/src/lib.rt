//! Two slots, of which one is the newest: what is kept of it, which slot is written next and with which numbers, and how many
//! records stand behind it.
#![tactic(auto)]

mod law;
mod mark;

pub use law::{newest_slot_stays, next_keeps_bounds, next_slot_is_newest, slots_stay_in_order};
pub use mark::{Mark, next_mark, tail};
