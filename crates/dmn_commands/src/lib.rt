//! The commands of the program: what the words ask for, done over a station.
#![tactic(auto)]

mod command;
mod count;
mod top;

pub use dmn_status::Status;
pub use top::dmn_main;
