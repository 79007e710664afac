//! A registry: a branch whose commands are durable before they are answered, and whose snapshots spare an opening most of them.
#![tactic(auto)]

mod auditing;
mod command;
mod commands;
mod fault;
mod laws;
mod opening;
mod pins;
mod quorums;
mod registry;
mod replaying;
mod snapshots;

pub use auditing::{Audit, AuditFault};
pub use fault::{ConnectFault, DisconnectFault};
pub use laws::{at_rest_is_own, journals_depart_nowhere, one_machine};
pub use registry::{OpenFault, Registry};
