//! What follows of a machine for the snapshots that hold it.
#![tactic(auto)]

mod law;

pub use law::{
    commitments_are_those_mined, each_type_is_mined_once, quorums_are_few, states_are_formed,
    stored_rows_are_formed, told_is_held_in_full,
};
