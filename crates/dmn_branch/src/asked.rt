//! What is asked of one height's version, by its trees.

ghost use Rattle.std.specs.Prelude.{◌≡◌, IfOk, find, map, take};
ghost use Rattle.std.specs.Option.{option_copied};
ghost use Rattle.dmn_indexes.specs.Version.{IsWhole, rows_in};
ghost use Rattle.dmn_rows.specs.Rows.{has_hash};
ghost use Rattle.dmn_rows.specs.Waiting.{pay_order};

use dmn_bytes::{Hash256, Memory};
use dmn_indexes::{Indexes, Version};
use dmn_rows::MnRow;
use std::alloc::Global;

/// The row of a hash, where there is one.
pub(crate) fn row_of<'a>(
    indexes: &'a Indexes,
    version: &Version,
    hash: &Hash256,
) -> Option<&'a MnRow>
    requires { IsWhole indexes.now version.now }
    ensures { option_copied result ≡ find (has_hash hash.now) (rows_in indexes.now version.now) }
{
    indexes.rows.get(version.rows, hash)
}

/// The hashes of the first rows in the order of payment, as many as `count`; fewer where there are fewer.
pub(crate) fn payees_of(
    alloc: Global,
    indexes: &Indexes,
    version: &Version,
    count: u16,
) -> Result<Vec<Hash256>, Memory>
    requires { IsWhole indexes.now version.now }
    ensures { IfOk result (λ hashes. hashes.items ≡ map (λ row. row.hash) (take count (pay_order (rows_in indexes.now version.now)))) }
{
    let mut hashes = Vec::new(alloc);
    for rank in 0..u32::from(count) {
        match indexes.least_pay(version, rank) {
            None => return Ok(hashes),
            Some(row) => hashes.push(row.hash).map_err(|_| Memory)?,
        }
    }
    Ok(hashes)
}
