//! A light client: it keeps a simplified list, and takes the message of a change only where a header that it has
//! proves the list after it.
#![tactic(auto)]

mod client;
mod coinbase;
mod fault;
mod headers;
mod law;
mod next;

pub use client::{Applied, Client, count_of};
pub use fault::ClientFault;
pub use headers::Header;
pub use law::{complete_client, list_of_rows, sound_client};
