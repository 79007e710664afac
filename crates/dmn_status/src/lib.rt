//! How the program ends, whatever its words asked for.
#![tactic(auto)]

mod status;

pub use status::Status;
