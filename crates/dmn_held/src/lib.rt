//! What a snapshot holds of a branch, as one value and as one text: rows, outputs and active quorums of the lowest height
//! that is held, and the differences from each height to the next one.
#![tactic(auto)]

mod coinbase;
mod counter;
mod data;
mod height;
mod law;
mod lists;
mod row;
mod snapshot;

pub use coinbase::CoinbasePart;
pub use counter::Counter;
pub use data::{HeightData, SnapshotData};
pub use law::one_value;
pub use snapshot::{feed_snapshot, read_held, read_to_end, write_held};
