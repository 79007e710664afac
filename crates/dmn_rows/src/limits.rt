//! Numbers that several crates ask for.

/// What a collateral is worth: 1,000 DASH, in duffs.
pub const COLLATERAL_VALUE: u64 = 100_000_000_000;

/// The greatest number of outputs of 1,000 DASH.
pub const MOST_OUTPUTS: u32 = 1_048_576;

/// The greatest number of masternodes.
pub const MOST_MASTERNODES: u32 = 65_535;

/// A whole reward, in hundredths of a percent.
pub const WHOLE_REWARD: u16 = 10_000;

/// The greatest height of a block.
pub const GREATEST_HEIGHT: u32 = 4_294_967_294;
