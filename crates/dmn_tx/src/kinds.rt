//! The types of special transactions, by their numbers (DIP-0002).

/// The version of special transactions: one of this version whose type isn't 0 has a payload.
pub const SPECIAL_VERSION: u16 = 3;

/// The longest payload, in bytes.
pub const LONGEST_PAYLOAD: u64 = 10_000;

/// Registers a masternode (ProRegTx, DIP-0003).
pub const REGISTER_TX: u16 = 1;

/// Changes where a masternode serves (ProUpServTx, DIP-0003).
pub const SERVICE_TX: u16 = 2;

/// Changes a masternode's keys and its payout (ProUpRegTx, DIP-0003).
pub const REGISTRAR_TX: u16 = 3;

/// Gives a masternode up (ProUpRevTx, DIP-0003).
pub const REVOKE_TX: u16 = 4;

/// A block's first transaction (DIP-0004).
pub const COINBASE_TX: u16 = 5;

/// Has a quorum's commitment (DIP-0006).
pub const COMMITMENT_TX: u16 = 6;
