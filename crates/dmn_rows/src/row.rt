//! A masternode, as a row of the list.

ghost use Rattle.std.specs.Prelude.{◌≡◌};
ghost use Rattle.dmn_rows.specs.Row.{ban, pay_key, plain};
ghost use Rattle.dmn_rows.specs.Rows.{no_service};

use dmn_bytes::{Hash256, OutPoint, Pay, Service, is_zero};

/// A registered masternode (DIP-0003). It is stored with the penalty that was in force at some height, since a
/// penalty falls by one a block and no row is written for that.
#[derive(Clone, Copy, Debug, PartialEq, Eq)]
pub struct MnRow {
    /// The id of the transaction that registered it (its ProRegTx hash), by which rows are ordered.
    pub hash: Hash256,
    /// The hash of the block before the one that confirmed it; zero while it is unconfirmed.
    pub confirmed: Hash256,
    /// The height of its registration.
    pub registered: u32,
    /// The height of the last block that paid it; 0 where none did.
    pub last_paid: u32,
    /// The height at which a ban was lifted last; 0 where none was.
    pub revived: u32,
    /// The height at which it was banned; 0 where it isn't banned.
    pub banned: u32,
    /// Its penalty for missing from quorums, in force after block `penalty_at`.
    pub penalty: u32,
    pub penalty_at: u32,
    /// The reason that the operator gave for leaving; 0 where none was given.
    pub reason: u16,
    /// The hash of the owner's public key.
    pub owner: [u8; 20],
    /// The operator's public key; zero where there is none.
    pub operator: [u8; 48],
    /// The hash of the voter's public key.
    pub voting: [u8; 20],
    /// Where it serves; all zero where that isn't set.
    pub service: Service,
    /// What the owner's share of a reward pays to.
    pub payout: Pay,
    /// What the operator's share pays to; kind 0 where the operator has none.
    pub operator_payout: Pay,
    /// The operator's share, in hundredths of a percent.
    pub reward: u16,
    /// The output that is held as its collateral, and what that output pays to.
    pub collateral: OutPoint,
    pub script: Pay,
}

/// The row as it is after block `height`: its penalty in force, and no `penalty_at`.
pub fn plain_at(row: &MnRow, height: u32) -> MnRow
    ensures { result ≡ plain height row.now }
{
    let past = height.saturating_sub(row.penalty_at);
    MnRow {
        penalty: if row.banned == 0 {
            row.penalty.saturating_sub(past)
        } else {
            row.penalty
        },
        penalty_at: 0,
        ..*row
    }
}

/// The row, banned from this height on if it wasn't banned before.
pub fn ban(height: u32, row: &MnRow) -> MnRow
    ensures row { result ≡ ban height row.now }
    ensures at { result.penalty_at ≡ row.now.penalty_at }
{
    if row.banned == 0 {
        MnRow {
            banned: height,
            ..*row
        }
    } else {
        *row
    }
}

/// The height since which the row waits to be paid.
pub fn pay_key(row: &MnRow) -> u32
    ensures { result ≡ pay_key row.now }
{
    if row.last_paid < row.revived {
        row.revived
    } else if row.last_paid == 0 {
        row.registered
    } else {
        row.last_paid
    }
}

/// Whether no service is set.
pub fn no_service(service: &Service) -> bool
    ensures { result ≡ no_service service.now }
{
    is_zero(&service.address) && service.port == 0
}
