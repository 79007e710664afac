//! A registry is made: a journal with a start record and no command.
#![tactic(auto)]

mod input;
mod making;

pub use making::{init, is_blank, make};
