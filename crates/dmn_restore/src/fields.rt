//! The fields of rows, outputs, outpoints and hashes have their lengths and ranges, as their types say.

ghost use Rattle.std.specs.Prelude.{IsTrue, OnOk};
ghost use Rattle.std.specs.List.{All};
ghost use Rattle.dmn_bytes.specs.Format.{hash};
ghost use Rattle.dmn_bytes.specs.Points.{out_point, pay, service};
ghost use Rattle.dmn_held.specs.Row.{stored_row};
ghost use Rattle.dmn_restore.specs.Formed.{HasFormedPay, HasFormedPays};

use dmn_bytes::{Hash256, Memory, OutPoint, Pay, Service, is_zero};
use dmn_rows::{MnRow, StartOutput};

pub(crate) fn hash_fits(value: Hash256)
    ensures { hash.Fits value }
{
    let _bytes = value.0;
}

#[tactic(auto, unfolding(dmn_bytes::specs::Points::out_point))]
pub(crate) fn point_fits(point: OutPoint)
    ensures { out_point.Fits point }
{
    hash_fits(point.hash);
    let _index = point.index;
}

#[tactic(auto, unfolding(dmn_bytes::specs::Points::service))]
fn service_fits(value: Service)
    ensures { service.Fits value }
{
    let _address = value.address;
    let _port = value.port;
}

#[tactic(auto, unfolding(dmn_held::specs::Row::stored_row))]
fn row_fits(row: MnRow)
    ensures { HasFormedPays row → stored_row.Fits row }
{
    hash_fits(row.hash);
    hash_fits(row.confirmed);
    let _registered = row.registered;
    let _last_paid = row.last_paid;
    let _revived = row.revived;
    let _banned = row.banned;
    let _penalty = row.penalty;
    let _reason = row.reason;
    let _owner = row.owner;
    let _operator = row.operator;
    let _voting = row.voting;
    service_fits(row.service);
    let _reward = row.reward;
    point_fits(row.collateral);
    let _penalty_at = row.penalty_at;
}

/// Each row has a text, where what it pays to is in its form.
pub(crate) fn rows_fit(rows: &[MnRow])
    ensures { All HasFormedPays rows.now → All stored_row.Fits rows.now }
{
    for place in 0..rows.len() {
        row_fits(rows[place]);
    }
}

/// The outpoint of each output has a text.
pub(crate) fn outputs_fit(outputs: &[StartOutput])
    ensures { All (λ output. out_point.Fits output.point) outputs.now }
{
    for place in 0..outputs.len() {
        point_fits(outputs[place].point);
    }
}

/// Each hash has 32 bytes.
pub(crate) fn hashes_fit(hashes: &[Hash256])
    ensures { All hash.Fits hashes.now }
{
    for place in 0..hashes.len() {
        hash_fits(hashes[place]);
    }
}

/// Each outpoint has a text.
pub(crate) fn points_fit(points: &[OutPoint])
    ensures { All out_point.Fits points.now }
{
    for place in 0..points.len() {
        point_fits(points[place]);
    }
}

// Whether its kind is one of three, and its hash is zero where it has none.
#[tactic(auto, unfolding(dmn_bytes::specs::Points::pay, dmn_bytes::specs::Points::pay_kind, dmn_bytes::specs::Points::pay_hash))]
fn is_formed(value: &Pay) -> bool
    ensures { IsTrue result → pay.Fits value.now }
{
    value.kind <= 2 && (value.kind != 0 || is_zero(&value.hash))
}

fn has_formed_pays(row: &MnRow) -> bool
    ensures { IsTrue result → HasFormedPays row.now }
{
    is_formed(&row.payout) && is_formed(&row.operator_payout) && is_formed(&row.script)
}

fn check_rows(rows: &[MnRow]) -> Result<(), Memory>
    ensures { OnOk result (All HasFormedPays rows.now) }
{
    for place in 0..rows.len() {
        if !has_formed_pays(&rows[place]) {
            return Err(Memory);
        }
    }
    Ok(())
}

fn check_outputs(outputs: &[StartOutput]) -> Result<(), Memory>
    ensures { OnOk result (All HasFormedPay outputs.now) }
{
    for place in 0..outputs.len() {
        if !is_formed(&outputs[place].pay) {
            return Err(Memory);
        }
    }
    Ok(())
}

/// Tests whether what rows and outputs pay to is in its form. It always is; where it weren't, this answers like want of memory.
pub(crate) fn check_pays(rows: &[MnRow], outputs: &[StartOutput]) -> Result<(), Memory>
    ensures rows { OnOk result (All HasFormedPays rows.now) }
    ensures outputs { OnOk result (All HasFormedPay outputs.now) }
{
    check_rows(rows)?;
    check_outputs(outputs)
}
