//! What the inputs and outputs of transactions do to rows and outputs.

ghost use Rattle.std.specs.Prelude.{◌≡◌, ◌+◌, ◌≤◌, OnOk, filter, find, is_some, length, map, not};
ghost use Rattle.dmn_block.specs.Defs.{most_items};
ghost use Rattle.dmn_block.specs.Spend as def;
ghost use Rattle.dmn_indexes.specs.Working.{Leads, counted, listing};
ghost use Rattle.dmn_rows.specs.Distinct.{HasDistinctKeys};
ghost use Rattle.dmn_rows.specs.Rows.{has_collateral};
ghost use Rattle.dmn_tx.specs.Defs.{id_of};
ghost use Rattle.std.specs.List.{All};
ghost use Rattle.dmn_branch.specs.Events.{point_events, inputs_events, output_events, outputs_events, spend_tx_events, spend_events};

use dmn_bytes::{Hash256, Memory, OutPoint};
use dmn_indexes::Working;
use dmn_payloads::script_kind;
use dmn_rows::{COLLATERAL_VALUE, Look};
use dmn_tx::{Tx, TxIn, TxOut};

/// Does what the inputs and outputs of these transactions, with these ids, do to the rows and outputs.
#[tactic(auto, using(dmn_indexes::proofs::Counting::leads_none, dmn_indexes::proofs::Counting::leads_then))]
pub fn spend(txs: &[Tx], ids: &[Hash256], list: &mut Working) -> Result<(), Memory>
    requires keys { HasDistinctKeys list.old.rows }
    requires ids { ids.now ≡ map id_of txs.now }
    requires outputs { All (λ tx. length tx.outputs ≤ most_items) txs.now }
    ensures after { OnOk result (listing list.new ≡ def.spend txs.now (listing list.old)) }
    ensures events { OnOk result (list.new.events ≡ list.old.events + spend_events txs.now (listing list.old)) }
    ensures leads { Leads list.old list.new }
{
    for place in 0..txs.len() {
        spend_tx(&txs[place], &ids[place], list)?;
    }
    Ok(())
}

#[tactic(auto, using(dmn_indexes::proofs::Counting::leads_none, dmn_indexes::proofs::Counting::leads_then))]
fn spend_tx(tx: &Tx, id: &Hash256, list: &mut Working) -> Result<(), Memory>
    requires keys { HasDistinctKeys list.old.rows }
    requires id { id.now ≡ id_of tx.now }
    requires outputs { length tx.now.outputs ≤ most_items }
    ensures after { OnOk result (listing list.new ≡ def.spend_tx tx.now (listing list.old)) }
    ensures events { OnOk result (list.new.events ≡ list.old.events + spend_tx_events tx.now (listing list.old)) }
    ensures leads { Leads list.old list.new }
    ensures keys { OnOk result (HasDistinctKeys list.new.rows) }
{
    spend_inputs(tx.inputs.as_slice(), list)?;
    add_outputs(id, tx.outputs.as_slice(), list)
}

#[tactic(auto, using(dmn_indexes::proofs::Counting::leads_none, dmn_indexes::proofs::Counting::leads_then))]
fn spend_inputs(inputs: &[TxIn], list: &mut Working) -> Result<(), Memory>
    requires { HasDistinctKeys list.old.rows }
    ensures after { OnOk result (listing list.new ≡ def.spend_inputs inputs.now (listing list.old)) }
    ensures events { OnOk result (list.new.events ≡ list.old.events + inputs_events inputs.now (listing list.old)) }
    ensures keys { OnOk result (HasDistinctKeys list.new.rows) }
    ensures leads { Leads list.old list.new }
{
    for input in inputs {
        spend_point(&input.point, list)?;
    }
    Ok(())
}

// No two rows have one collateral, so the first row that is found is the only one.
#[tactic(auto, using(dmn_indexes::proofs::Counting::leads_none, dmn_indexes::proofs::Counting::leads_then))]
fn spend_point(point: &OutPoint, list: &mut Working) -> Result<(), Memory>
    requires { HasDistinctKeys list.old.rows }
    ensures after { OnOk result (listing list.new ≡ def.spend_point point.now (listing list.old)) }
    ensures events { OnOk result (list.new.events ≡ list.old.events + point_events point.now (listing list.old)) }
    ensures keys { OnOk result (HasDistinctKeys list.new.rows) }
    ensures leads { Leads list.old list.new }
{
    drop_collateral(point, list)?;
    list.drop_output(point)?;
    Ok(())
}

#[tactic(auto, using(dmn_indexes::proofs::Counting::leads_none, dmn_indexes::proofs::Counting::leads_then))]
fn drop_collateral(point: &OutPoint, list: &mut Working) -> Result<(), Memory>
    requires { HasDistinctKeys list.old.rows }
    ensures rows { OnOk result (list.new.rows ≡ filter (λ row. not (has_collateral point.now row)) list.old.rows) }
    ensures events { OnOk result (list.new.events ≡ list.old.events + counted (is_some (find (has_collateral point.now) list.old.rows))) }
    ensures outputs { OnOk result (list.new.outputs ≡ list.old.outputs) }
    ensures leads { Leads list.old list.new }
{
    match list.by_collateral(point) {
        Some(hash) => {
            list.drop_row(&hash)?;
            Ok(())
        }
        None => Ok(()),
    }
}

// Adds those of a transaction's outputs that are of 1,000 DASH.
#[tactic(auto, using(dmn_indexes::proofs::Counting::leads_none, dmn_indexes::proofs::Counting::leads_then))]
fn add_outputs(id: &Hash256, outputs: &[TxOut], list: &mut Working) -> Result<(), Memory>
    requires { length outputs.now ≤ most_items }
    ensures after { OnOk result (listing list.new ≡ def.add_outputs id.now 0 outputs.now (listing list.old)) }
    ensures events { OnOk result (list.new.events ≡ list.old.events + outputs_events id.now 0 outputs.now (listing list.old)) }
    ensures leads { Leads list.old list.new }
{
    for index in 0..outputs.len() {
        let point = OutPoint {
            hash: *id,
            index: index as u32,
        };
        add_output(point, &outputs[index], list)?;
    }
    Ok(())
}

#[tactic(auto, using(dmn_indexes::proofs::Counting::leads_none, dmn_indexes::proofs::Counting::leads_then))]
fn add_output(point: OutPoint, output: &TxOut, list: &mut Working) -> Result<(), Memory>
    ensures after { OnOk result (listing list.new ≡ def.add_output point output.now (listing list.old)) }
    ensures events { OnOk result (list.new.events ≡ list.old.events + output_events point output.now (listing list.old)) }
    ensures leads { Leads list.old list.new }
{
    if output.value == COLLATERAL_VALUE {
        list.put_output(&point, script_kind(output.script.as_slice()))?;
    }
    Ok(())
}
