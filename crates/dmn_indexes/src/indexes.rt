//! Eight arenas, in which every version is held.

ghost use Rattle.std.specs.Prelude.{◌≡◌, [], OnOk};
ghost use Rattle.dmn_rows.specs.Distinct.{HasDistinctKeys};
ghost use Rattle.dmn_rows.specs.Rows.{put_row, drop_row, put_output, drop_output};
ghost use Rattle.dmn_indexes.specs.Version.{IsWhole, HasRoom, HasFewPairs, Grown, GrownBy, Keeps, rows_in, outputs_in, empty_version};

use crate::keys::{OperatorKey, OwnerKey, PayKey, ServiceKey, UnconfirmedKey};
use crate::parts::{drop_in, put_in, reserve_in};
use crate::version::Version;
use dmn_bytes::{Hash256, Memory, OutPoint, Pay};
use dmn_rows::MnRow;
use dmn_versions::Arena;
use std::alloc::Global;

/// The nodes of all versions. Each call that takes a version asks that it is whole (`IsWhole`), what it gives is so again,
/// and the versions of before stay as they are (`Keeps`). The event calls take no memory: `reserve` makes room for one.
#[derive(Drop)]
pub struct Indexes {
    /// The rows under their hashes.
    pub rows: Arena<Hash256, MnRow>,
    /// The rows' hashes under the keys of their owners and operators, their services and their collaterals; a zero
    /// operator and a service that isn't set have no place.
    pub owner: Arena<OwnerKey, Hash256>,
    pub operator: Arena<OperatorKey, Hash256>,
    pub service: Arena<ServiceKey, Hash256>,
    pub collateral: Arena<OutPoint, Hash256>,
    /// The hashes of the rows that aren't banned, in the order of payments.
    pub payment: Arena<PayKey, Hash256>,
    /// The hashes of the rows that aren't confirmed, in the order of confirmations.
    pub unconfirmed: Arena<UnconfirmedKey, Hash256>,
    /// What each output of 1,000 DASH pays to, under its outpoint.
    pub outputs: Arena<OutPoint, Pay>,
}

impl Indexes {
    /// No nodes, which takes no memory.
    pub fn new(alloc: Global) -> Indexes
        ensures whole { IsWhole result empty_version }
        ensures rows { rows_in result empty_version ≡ [] }
        ensures outputs { outputs_in result empty_version ≡ [] }
    {
        Indexes {
            rows: Arena::new(alloc),
            owner: Arena::new(alloc),
            operator: Arena::new(alloc),
            service: Arena::new(alloc),
            collateral: Arena::new(alloc),
            payment: Arena::new(alloc),
            unconfirmed: Arena::new(alloc),
            outputs: Arena::new(alloc),
        }
    }

    /// Makes room for one event on a version.
    pub fn reserve(&mut self, version: &Version) -> Result<(), Memory>
        requires { IsWhole self.old version.now }
        ensures room { OnOk result (HasRoom self.new version.now) }
        ensures grown { GrownBy 0 self.old self.new }
        ensures kept { Keeps self.old self.new }
    {
        let rows = reserve_in(&mut self.rows, version.rows);
        let owner = reserve_in(&mut self.owner, version.owner);
        let operator = reserve_in(&mut self.operator, version.operator);
        let service = reserve_in(&mut self.service, version.service);
        let collateral = reserve_in(&mut self.collateral, version.collateral);
        let payment = reserve_in(&mut self.payment, version.payment);
        let unconfirmed = reserve_in(&mut self.unconfirmed, version.unconfirmed);
        let outputs = reserve_in(&mut self.outputs, version.outputs);
        if rows && owner && operator && service && collateral && payment && unconfirmed && outputs {
            Ok(())
        } else {
            Err(Memory)
        }
    }

    /// Puts a row in its place, or in that of the row of its hash: one event.
    pub fn put_row(&mut self, version: Version, row: &MnRow) -> Version
        requires whole { IsWhole self.old version }
        requires distinct { HasDistinctKeys (put_row row.now (rows_in self.old version)) }
        requires room { HasRoom self.old version }
        ensures whole { IsWhole self.new result }
        ensures rows { rows_in self.new result ≡ put_row row.now (rows_in self.old version) }
        ensures outputs { outputs_in self.new result ≡ outputs_in self.old version }
        ensures grown { Grown self.old version self.new }
        ensures bounded { HasFewPairs self.old version → GrownBy 232 self.old self.new }
        ensures kept { Keeps self.old self.new }
    {
        let before = self.rows.get(version.rows, &row.hash).copied();
        let rows = self.rows.insert(version.rows, row.hash, *row);
        let owner = put_in(&mut self.owner, version.owner, &before, row);
        let operator = put_in(&mut self.operator, version.operator, &before, row);
        let service = put_in(&mut self.service, version.service, &before, row);
        let collateral = put_in(&mut self.collateral, version.collateral, &before, row);
        let payment = put_in(&mut self.payment, version.payment, &before, row);
        let unconfirmed = put_in(&mut self.unconfirmed, version.unconfirmed, &before, row);
        Version {
            rows,
            owner,
            operator,
            service,
            collateral,
            payment,
            unconfirmed,
            outputs: version.outputs,
        }
    }

    /// Takes the row of a hash away: one event.
    pub fn drop_row(&mut self, version: Version, hash: &Hash256) -> Version
        requires whole { IsWhole self.old version }
        requires room { HasRoom self.old version }
        ensures whole { IsWhole self.new result }
        ensures rows { rows_in self.new result ≡ drop_row hash.now (rows_in self.old version) }
        ensures outputs { outputs_in self.new result ≡ outputs_in self.old version }
        ensures grown { Grown self.old version self.new }
        ensures bounded { HasFewPairs self.old version → GrownBy 232 self.old self.new }
        ensures kept { Keeps self.old self.new }
    {
        let before = self.rows.get(version.rows, hash).copied();
        let rows = self.rows.remove(version.rows, hash);
        let owner = drop_in(&mut self.owner, version.owner, &before);
        let operator = drop_in(&mut self.operator, version.operator, &before);
        let service = drop_in(&mut self.service, version.service, &before);
        let collateral = drop_in(&mut self.collateral, version.collateral, &before);
        let payment = drop_in(&mut self.payment, version.payment, &before);
        let unconfirmed = drop_in(&mut self.unconfirmed, version.unconfirmed, &before);
        Version {
            rows,
            owner,
            operator,
            service,
            collateral,
            payment,
            unconfirmed,
            outputs: version.outputs,
        }
    }

    /// Puts an output in its place, unless its outpoint is there: one event.
    pub fn put_output(&mut self, version: Version, point: &OutPoint, pay: Pay) -> Version
        requires whole { IsWhole self.old version }
        requires room { HasRoom self.old version }
        ensures whole { IsWhole self.new result }
        ensures rows { rows_in self.new result ≡ rows_in self.old version }
        ensures outputs { outputs_in self.new result ≡ put_output point.now pay (outputs_in self.old version) }
        ensures grown { Grown self.old version self.new }
        ensures bounded { HasFewPairs self.old version → GrownBy 232 self.old self.new }
        ensures kept { Keeps self.old self.new }
    {
        if self.outputs.get(version.outputs, point).is_some() {
            return version;
        }
        let outputs = self.outputs.insert(version.outputs, *point, pay);
        Version { outputs, ..version }
    }

    /// Takes the output at an outpoint away: one event.
    pub fn drop_output(&mut self, version: Version, point: &OutPoint) -> Version
        requires whole { IsWhole self.old version }
        requires room { HasRoom self.old version }
        ensures whole { IsWhole self.new result }
        ensures rows { rows_in self.new result ≡ rows_in self.old version }
        ensures outputs { outputs_in self.new result ≡ drop_output point.now (outputs_in self.old version) }
        ensures grown { Grown self.old version self.new }
        ensures bounded { HasFewPairs self.old version → GrownBy 232 self.old self.new }
        ensures kept { Keeps self.old self.new }
    {
        let outputs = self.outputs.remove(version.outputs, point);
        Version { outputs, ..version }
    }
}
