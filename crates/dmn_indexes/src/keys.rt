//! The keys by which rows are found.

ghost use Rattle.std.specs.Prelude.{◌≡◌};

use dmn_bytes::{Hash256, OutPoint, is_zero};
use dmn_rows::{MnRow, pay_key};
use dmn_versions::Key;
use std::cmp::Ordering;

/// A key that a row may have, and that no two rows of a list have.
pub trait RowKey: Key {
    ghost use Rattle.std.specs.Prelude.{Bool, Option};
    ghost use Rattle.dmn_rows.specs.declared.row.MnRow.{MnRow};
    ghost use Rattle.dmn_indexes.specs.Index.{IsRowKey};

    // The key of a row, where the row has one.
    ghost key_of: { MnRow → Option Self };

    // A row has the key.
    ghost has: { Self → MnRow → Bool };

    /// The key of a row, where the row has one.
    fn of(row: &MnRow) -> Option<Self>
        ensures { result ≡ key_of row.now };

    // A row has its own key and no other, and no two rows have the same one.
    ghost is_row_key: { IsRowKey Self.cmp key_of has };
}

/// The hash of an owner's public key.
#[derive(Clone, Copy, Debug, PartialEq, Eq, PartialOrd, Ord)]
pub struct OwnerKey(pub [u8; 20]);

/// An operator's public key.
#[derive(Clone, Copy, Debug, PartialEq, Eq, PartialOrd, Ord)]
pub struct OperatorKey(pub [u8; 48]);

/// Where a masternode serves.
#[derive(Clone, Copy, Debug, PartialEq, Eq, PartialOrd, Ord)]
pub struct ServiceKey {
    pub address: [u8; 16],
    pub port: u16,
}

/// A place in the order of payments: the height since which a row waits to be paid, and its hash.
#[derive(Clone, Copy, Debug, PartialEq, Eq, PartialOrd, Ord)]
pub struct PayKey {
    pub since: u32,
    pub hash: Hash256,
}

/// A place in the order of confirmations: the height of a row's registration, and its hash.
#[derive(Clone, Copy, Debug, PartialEq, Eq, PartialOrd, Ord)]
pub struct UnconfirmedKey {
    pub registered: u32,
    pub hash: Hash256,
}

impl Key for OwnerKey {
    ghost use Rattle.dmn_indexes.specs.Keys.{owner_cmp, owner_laws};

    ghost cmp = { owner_cmp };

    ghost laws = { owner_laws.total };

    fn compare(&self, other: &OwnerKey) -> Ordering {
        self.cmp(other)
    }
}

impl Key for OperatorKey {
    ghost use Rattle.dmn_indexes.specs.Keys.{operator_cmp, operator_laws};

    ghost cmp = { operator_cmp };

    ghost laws = { operator_laws.total };

    fn compare(&self, other: &OperatorKey) -> Ordering {
        self.cmp(other)
    }
}

impl Key for ServiceKey {
    ghost use Rattle.dmn_indexes.specs.Keys.{service_cmp, service_laws};

    ghost cmp = { service_cmp };

    ghost laws = { service_laws.total };

    fn compare(&self, other: &ServiceKey) -> Ordering {
        self.cmp(other)
    }
}

impl Key for PayKey {
    ghost use Rattle.dmn_indexes.specs.Keys.{pay_cmp, pay_laws};

    ghost cmp = { pay_cmp };

    ghost laws = { pay_laws.total };

    fn compare(&self, other: &PayKey) -> Ordering {
        self.cmp(other)
    }
}

impl Key for UnconfirmedKey {
    ghost use Rattle.dmn_indexes.specs.Keys.{unconfirmed_cmp, unconfirmed_laws};

    ghost cmp = { unconfirmed_cmp };

    ghost laws = { unconfirmed_laws.total };

    fn compare(&self, other: &UnconfirmedKey) -> Ordering {
        self.cmp(other)
    }
}

impl RowKey for OwnerKey {
    ghost use Rattle.dmn_indexes.specs.Keys.{owner_of, has_owner_key, owner_row_key};

    ghost key_of = { owner_of };

    ghost has = { has_owner_key };

    ghost is_row_key = { owner_row_key };

    fn of(row: &MnRow) -> Option<OwnerKey> {
        Some(OwnerKey(row.owner))
    }
}

impl RowKey for OperatorKey {
    ghost use Rattle.dmn_indexes.specs.Keys.{operator_of, has_operator_key, operator_row_key};

    ghost key_of = { operator_of };

    ghost has = { has_operator_key };

    ghost is_row_key = { operator_row_key };

    fn of(row: &MnRow) -> Option<OperatorKey> {
        if is_zero(&row.operator) {
            None
        } else {
            Some(OperatorKey(row.operator))
        }
    }
}

impl RowKey for ServiceKey {
    ghost use Rattle.dmn_indexes.specs.Keys.{service_of, has_service_key, service_row_key};

    ghost key_of = { service_of };

    ghost has = { has_service_key };

    ghost is_row_key = { service_row_key };

    fn of(row: &MnRow) -> Option<ServiceKey> {
        if is_zero(&row.service.address) && row.service.port == 0 {
            None
        } else {
            Some(ServiceKey {
                address: row.service.address,
                port: row.service.port,
            })
        }
    }
}

impl RowKey for OutPoint {
    ghost use Rattle.dmn_rows.specs.Rows.{has_collateral};
    ghost use Rattle.dmn_indexes.specs.Keys.{collateral_of, collateral_row_key};

    ghost key_of = { collateral_of };

    ghost has = { has_collateral };

    ghost is_row_key = { collateral_row_key };

    fn of(row: &MnRow) -> Option<OutPoint> {
        Some(row.collateral)
    }
}

impl RowKey for PayKey {
    ghost use Rattle.dmn_indexes.specs.Keys.{pay_of, has_pay_key, pay_row_key};

    ghost key_of = { pay_of };

    ghost has = { has_pay_key };

    ghost is_row_key = { pay_row_key };

    fn of(row: &MnRow) -> Option<PayKey> {
        if row.banned == 0 {
            Some(PayKey {
                since: pay_key(row),
                hash: row.hash,
            })
        } else {
            None
        }
    }
}

impl RowKey for UnconfirmedKey {
    ghost use Rattle.dmn_indexes.specs.Keys.{unconfirmed_of, has_unconfirmed_key, unconfirmed_row_key};

    ghost key_of = { unconfirmed_of };

    ghost has = { has_unconfirmed_key };

    ghost is_row_key = { unconfirmed_row_key };

    fn of(row: &MnRow) -> Option<UnconfirmedKey> {
        if is_zero(&row.confirmed.0) {
            Some(UnconfirmedKey {
                registered: row.registered,
                hash: row.hash,
            })
        } else {
            None
        }
    }
}
