//! The rules that a provider transaction keeps, and what it does to the list of masternodes (DIP-0003).
#![tactic(auto)]

mod change;
mod checks;
mod effect;
mod facts;
mod fault;
mod judging;
mod law;
mod lookups;
mod provider;
mod reading;
mod tables;

pub use effect::Effect;
pub use fault::JudgeFault;
pub use judging::{judge, judge_read};
pub use law::judged_by_the_least_number;
pub use provider::Provider;
pub use reading::read_other;
