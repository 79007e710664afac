//! The plain list of rows and of outputs.

ghost use Rattle.std.specs.Prelude.{◌≡◌, [], OnOk, OnErr, IfOk, find, is_some};
ghost use Rattle.dmn_rows.specs.Rows.{has_hash, has_point, put_row, put_output, drop_row, drop_output};
ghost use Rattle.dmn_rows.specs.Start.{point_of};
ghost use Rattle.dmn_rows.specs.Listing.{IsAscending, OutputsAscend};
ghost use Rattle.dmn_rows.specs.Keys.{row_key, output_key};

use crate::by_key::{ByKey, add_sorted, drop_sorted, find_sorted, put_sorted};
use crate::look::Look;
use crate::row::{MnRow, no_service};
use crate::start::StartOutput;
use dmn_bytes::{Hash256, Items, Memory, OutPoint, Pay, Service, is_zero};
use std::alloc::Global;
use std::marker::Model;

/// Rows in strictly ascending order of their hashes, and outputs in that of their outpoints.
#[derive(Debug, Drop)]
pub struct RowList {
    rows: Vec<MnRow>,
    outputs: Vec<StartOutput>,
}

impl Model for RowList {
    ghost use Rattle.dmn_rows.specs.Listing.{Listing, IsAscending, OutputsAscend};

    ghost Value = { Listing };

    ghost view = { λ a. record { rows = a.rows.items; outputs = a.outputs.items } };

    ghost invariant = { λ a. IsAscending a.rows.items × OutputsAscend a.outputs.items };
}

impl RowList {
    /// No rows and no outputs, which takes no memory.
    pub fn new(alloc: Global) -> RowList
        ensures { result ≡ record { rows = []; outputs = [] } }
    {
        RowList {
            rows: Vec::new(alloc),
            outputs: Vec::new(alloc),
        }
    }

    /// No rows, and these outputs. This takes no memory.
    pub fn from_outputs(alloc: Global, outputs: Items<StartOutput>) -> RowList
        requires { OutputsAscend outputs }
        ensures { result ≡ record { rows = []; outputs = outputs } }
    {
        RowList {
            rows: Vec::new(alloc),
            outputs: outputs.into_vec(),
        }
    }

    /// Adds a row in its place, or replaces the one of its hash. Without memory nothing changes.
    pub fn put(&mut self, row: MnRow) -> Result<(), Memory>
        ensures ok { OnOk result (self.new ≡ record self.old { rows = put_row row self.old.rows }) }
        ensures err { OnErr result (self.new ≡ self.old) }
    {
        Ok(put_sorted(&mut self.rows, row)?)
    }

    /// Takes the row of a hash away, and tells whether it was there. This takes no memory.
    pub fn drop_row(&mut self, hash: &Hash256) -> bool
        ensures was { result ≡ is_some (find (has_hash hash.now) self.old.rows) }
        ensures rest { self.new ≡ record self.old { rows = drop_row hash.now self.old.rows } }
    {
        drop_sorted(&mut self.rows, hash)
    }

    /// The rows, in the order of their hashes.
    pub fn rows(&self) -> &[MnRow]
        ensures all { result.now ≡ self.now.rows }
        ensures ascending { IsAscending self.now.rows }
    {
        &self.rows
    }

    /// Adds an output in its place, unless its outpoint is there. Without memory nothing changes.
    pub fn put_output(&mut self, point: OutPoint, pay: Pay) -> Result<(), Memory>
        ensures ok { OnOk result (self.new ≡ record self.old { outputs = put_output point pay self.old.outputs }) }
        ensures err { OnErr result (self.new ≡ self.old) }
    {
        Ok(add_sorted(&mut self.outputs, StartOutput { point, pay })?)
    }

    /// Takes the output at an outpoint away, and tells whether it was there. This takes no memory.
    pub fn drop_output(&mut self, point: &OutPoint) -> bool
        ensures was { result ≡ is_some (find (has_point point.now) self.old.outputs) }
        ensures rest { self.new
            ≡ record self.old { outputs = drop_output point.now self.old.outputs } }
    {
        drop_sorted(&mut self.outputs, point)
    }

    /// The outputs, in the order of their outpoints.
    pub fn outputs(&self) -> &[StartOutput]
        ensures all { result.now ≡ self.now.outputs }
        ensures ascending { OutputsAscend self.now.outputs }
    {
        &self.outputs
    }

    /// Another list of the same rows and outputs.
    pub fn copy(&self, alloc: Global) -> Result<RowList, Memory>
        ensures { IfOk result (λ list. list ≡ self.now) }
    {
        Ok(RowList {
            rows: Vec::from_slice(alloc, &self.rows)?,
            outputs: Vec::from_slice(alloc, &self.outputs)?,
        })
    }
}

impl ByKey<Hash256> for MnRow {
    ghost key_of = { λ row. row.hash };

    ghost has = { has_hash };

    ghost is_key = { row_key };

    fn key(&self) -> &Hash256 {
        &self.hash
    }

    fn has_key(&self, hash: &Hash256) -> bool {
        self.hash == *hash
    }
}

impl ByKey<OutPoint> for StartOutput {
    ghost key_of = { point_of };

    ghost has = { has_point };

    ghost is_key = { output_key };

    fn key(&self) -> &OutPoint {
        &self.point
    }

    fn has_key(&self, point: &OutPoint) -> bool {
        self.point == *point
    }
}

impl Look for RowList {
    ghost rows = { λ s. s.rows };

    ghost outputs = { λ s. s.outputs };

    fn row(&self, hash: &Hash256) -> Option<&MnRow> {
        find_sorted(&self.rows, hash)
    }

    fn by_owner(&self, key: &[u8; 20]) -> Option<Hash256> {
        self.rows.iter().find(|r| r.owner == *key).map(|r| r.hash)
    }

    fn by_operator(&self, key: &[u8; 48]) -> Option<Hash256> {
        let zero = is_zero(key);
        self.rows
            .iter()
            .find(|r| !zero && r.operator == *key)
            .map(|r| r.hash)
    }

    fn by_service(&self, service: &Service) -> Option<Hash256> {
        let unset = no_service(service);
        self.rows
            .iter()
            .find(|r| !unset && r.service == *service)
            .map(|r| r.hash)
    }

    fn by_collateral(&self, point: &OutPoint) -> Option<Hash256> {
        self.rows
            .iter()
            .find(|r| r.collateral == *point)
            .map(|r| r.hash)
    }

    fn output(&self, point: &OutPoint) -> Option<Pay> {
        find_sorted(&self.outputs, point).map(|output| output.pay)
    }

    fn count(&self) -> u32 {
        self.rows.len() as u32
    }
}
