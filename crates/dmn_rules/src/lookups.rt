//! What the rules look up in the list.

ghost use Rattle.std.specs.Prelude.{◌≡◌, ℕ, find};
ghost use Rattle.dmn_rows.specs.Distinct.{HasDistinctKeys};
ghost use Rattle.dmn_rows.specs.Rows.{plain_rows, has_hash, has_owner, has_operator};
ghost use Rattle.dmn_rules.specs.Looking.{unless};
ghost use Rattle.dmn_rules.specs.Provider as spec;
ghost use Rattle.dmn_rules.specs.Table as table;

use dmn_bytes::{Hash256, OutPoint};
use dmn_payloads::{ProReg, UpReg, UpServ};
use dmn_rows::{Look, MnRow, Rule, plain_at};

/// The row of a hash, as it is after block `height`.
pub fn row_at<L: Look>(look: &L, height: u32, hash: &Hash256) -> Option<MnRow>
    ensures { result ≡ find (has_hash hash.now) (plain_rows height (L.rows look.now)) }
{
    match look.row(hash) {
        None => None,
        Some(row) => Some(plain_at(row, height)),
    }
}

/// The hash of the row whose collateral is at this outpoint.
pub fn replaced_by<L: Look>(look: &L, point: &OutPoint) -> Option<Hash256>
    ensures stored { result ≡ spec.replaced_by (L.rows look.now) point.now }
    ensures seen { (height : ℕ)
        → result ≡ spec.replaced_by (plain_rows height (L.rows look.now)) point.now }
{
    look.by_collateral(point)
}

/// The hash that was found, unless it is this one.
fn other_than(found: Option<Hash256>, one: &Option<Hash256>) -> Option<Hash256>
    ensures { result ≡ unless (spec.is_hash one.now) found }
{
    match found {
        None => None,
        Some(hash) => match one {
            None => Some(hash),
            Some(one) => { if hash == *one { None } else { Some(hash) } }
        },
    }
}

/// Whether a row has the owner's key.
pub fn dup_owner<L: Look>(look: &L, key: &[u8; 20]) -> Option<Rule>
    ensures { (height : ℕ)
        → result ≡ table.some_row (has_owner key.now) Rule.DupOwner (plain_rows height (L.rows look.now)) }
{
    match look.by_owner(key) {
        None => None,
        Some(row) => Some(Rule::DupOwner { row }),
    }
}

/// Whether a row has the operator's key.
pub fn dup_operator<L: Look>(look: &L, key: &[u8; 48]) -> Option<Rule>
    ensures { (height : ℕ)
        → result ≡ table.some_row (has_operator key.now) Rule.DupOperator (plain_rows height (L.rows look.now)) }
{
    match look.by_operator(key) {
        None => None,
        Some(row) => Some(Rule::DupOperator { row }),
    }
}

/// Whether a row but the replaced one has the service.
pub fn dup_address<L: Look>(look: &L, replaced: &Option<Hash256>, p: &ProReg) -> Option<Rule>
    requires { HasDistinctKeys (L.rows look.now) }
    ensures { (height : ℕ)
        → result ≡ spec.dup_address (plain_rows height (L.rows look.now)) replaced.now p.now }
{
    match other_than(look.by_service(&p.service), replaced) {
        None => None,
        Some(row) => Some(Rule::DupAddress { row }),
    }
}

/// Whether another row has the service.
pub fn up_dup_address<L: Look>(look: &L, up: &UpServ) -> Option<Rule>
    requires { HasDistinctKeys (L.rows look.now) }
    ensures { (height : ℕ)
        → result ≡ spec.up_dup_address (plain_rows height (L.rows look.now)) up.now }
{
    match other_than(look.by_service(&up.service), &Some(up.pro_tx)) {
        None => None,
        Some(row) => Some(Rule::UpDupAddress { row }),
    }
}

/// Whether another row has the operator's key.
pub fn up_dup_operator<L: Look>(look: &L, up: &UpReg) -> Option<Rule>
    requires { HasDistinctKeys (L.rows look.now) }
    ensures { (height : ℕ)
        → result ≡ spec.up_dup_operator (plain_rows height (L.rows look.now)) up.now }
{
    match other_than(look.by_operator(&up.operator), &Some(up.pro_tx)) {
        None => None,
        Some(row) => Some(Rule::UpDupOperator { row }),
    }
}
