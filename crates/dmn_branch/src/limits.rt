//! Numbers by which a block is judged as a whole.

/// The greatest number of events of a block.
pub const MOST_EVENTS: u64 = 8_192;
