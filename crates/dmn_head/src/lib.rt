//! What the head of an HTTP request asks for.
#![tactic(auto)]

mod fault;
mod fields;
mod head;
mod laws;
mod path;
mod plan;
mod target;
mod values;

pub use fault::HttpFault;
pub use head::{Cut, HEAD_LIMIT, Taken, read_head};
pub use laws::{each_head_asks_once, each_path_has_one_route};
pub use plan::{Plan, plan_of};
pub use target::{Routes, Target};
