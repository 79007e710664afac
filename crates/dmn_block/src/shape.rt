//! The rules on a block as a whole, in the order of their numbers.

ghost use Rattle.std.specs.Prelude.{◌≡◌, ◌≤◌, ◌+◌, ◌==◌, [], ◌∷◌, length, IfOk, OnOk};
ghost use Rattle.dmn_payloads.specs.Payloads.{cb};
ghost use Rattle.dmn_block.specs.Defs.{IsBlock, most_items};
ghost use Rattle.dmn_block.specs.Shape as table;
ghost use Rattle.dmn_block.specs.Shape.{Judges, IsPayloadOfFirst, VerdictsAscend};

use crate::fault::ShapeFault;
use crate::frame::BlockFrame;
use crate::refusal::Refusal;
use dmn_bytes::{Hash256, Memory, is_zero};
use dmn_merkle::root;
use dmn_payloads::{CbTx, PayloadFault, read_cb};
use dmn_rows::{COLLATERAL_KEY, GREATEST_HEIGHT, MEMBERS_KEYS, Rule, Verdict, check, when};
use dmn_tx::Tx;
use std::alloc::Global;
use std::collections::BTreeSet;

/// Judges a block that is to follow this tip by rules 1, 3, 4 and 6 to 13, in the order of their numbers, and gives
/// the coinbase's payload. Equal ids are found by an ordered set, and not by comparing all pairs.
#[tactic(auto, using(dmn_rows::proofs::Table::first_broken_append))]
pub fn check_shape(
    alloc: Global,
    block: &BlockFrame,
    tip: &Hash256,
    tip_height: u32,
) -> Result<CbTx, ShapeFault>
    requires { IsBlock block.now }
    // It refuses exactly with the first rule that is broken.
    ensures rule { Judges (table.broken_rule block.now tip.now tip_height) result }
    ensures payload { IfOk result (IsPayloadOfFirst block.now.txs) }
    // It tells the height behind the tip's, so that fits 32 bits.
    ensures height { IfOk result (λ value. value.height ≡ tip_height + 1) }
    ensures verdicts { OnOk result (VerdictsAscend block.now.verdicts) }
{
    check_table(&link_rules(block, tip, tip_height))?;
    check_table(&tx_rules(block))?;
    check_table(&id_rules(alloc, block)?)?;
    check_table(&[verdict_form(block)])?;
    match block.txs.as_slice() {
        [] => Err(ShapeFault::Broken(by_block(Rule::NoCoinbase))),
        [coinbase, ..] => judge_payload(alloc, coinbase, tip_height),
    }
}

// Refuses with the first broken rule of a table.
fn check_table(rules: &[Option<Refusal>]) -> Result<(), ShapeFault>
    ensures { Judges (table.first_broken rules.now) result }
{
    match check(rules) {
        Ok(()) => Ok(()),
        Err(refusal) => Err(ShapeFault::Broken(refusal)),
    }
}

// The refusal by a rule that names no transaction.
fn by_block(rule: Rule) -> Refusal
    ensures { result ≡ table.by_block rule }
{
    Refusal { rule, tx: None }
}

// The refusal by a rule that names the transaction at this place.
fn by_tx(place: u32, rule: Rule) -> Refusal
    ensures { result ≡ table.by_tx place rule }
{
    Refusal {
        rule,
        tx: Some(place),
    }
}

fn of_tx(place: Option<u32>, rule: Rule) -> Option<Refusal>
    ensures { result ≡ table.of_tx place rule }
{
    place.map(|tx| by_tx(tx, rule))
}

#[tactic(auto, unfolding(crate::specs::Shape::link_rules))]
fn link_rules(block: &BlockFrame, tip: &Hash256, tip_height: u32) -> [Option<Refusal>; 3]
    ensures { result ≡ table.unnumbered (table.link_rules block.now tip.now tip_height) }
{
    [
        when(is_zero(&block.hash.0), by_block(Rule::ZeroHash)),
        when(block.prev != *tip, by_block(Rule::NotNext { tip: *tip })),
        when(tip_height == GREATEST_HEIGHT, by_block(Rule::HeightLimit)),
    ]
}

#[tactic(auto, unfolding(crate::specs::Shape::tx_rules))]
fn tx_rules(block: &BlockFrame) -> [Option<Refusal>; 2]
    requires { length block.now.txs ≤ most_items }
    ensures { result ≡ table.unnumbered (table.tx_rules block.now) }
{
    let txs = block.txs.as_slice();
    [
        when(!begins_with_coinbase(txs), by_block(Rule::NoCoinbase)),
        of_tx(second_coinbase(txs), Rule::SecondCoinbase),
    ]
}

#[tactic(auto, unfolding(crate::specs::Shape::id_rules))]
fn id_rules(alloc: Global, block: &BlockFrame) -> Result<[Option<Refusal>; 2], Memory>
    requires { length block.now.ids ≤ most_items }
    ensures { IfOk result (λ rules. rules ≡ table.unnumbered (table.id_rules block.now)) }
{
    let ids = block.ids.as_slice();
    let duplicate = duplicate_id(alloc, ids)?;
    let computed = root(alloc, ids)?;
    Ok([
        of_tx(duplicate, Rule::DuplicateTx),
        when(
            block.merkle != computed,
            by_block(Rule::BadMerkle { computed }),
        ),
    ])
}

#[tactic(auto, unfolding(crate::specs::Shape::begins_with_coinbase))]
fn begins_with_coinbase(txs: &[Tx]) -> bool
    ensures { result ≡ table.begins_with_coinbase txs.now }
{
    match txs.first() {
        None => false,
        Some(tx) => tx.is_coinbase(),
    }
}

// The least place of a coinbase behind the first transaction.
#[tactic(auto, using(crate::proofs::Rules::none_before_second, crate::proofs::Rules::second_is, crate::proofs::Rules::second_not, crate::proofs::Rules::least_none, crate::proofs::Rules::least_found, crate::proofs::Rules::least_more))]
fn second_coinbase(txs: &[Tx]) -> Option<u32>
    requires { length txs.now ≤ most_items }
    ensures { result ≡ table.least (length txs.now) (table.is_second_coinbase txs.now) }
{
    for place in 1..txs.len() {
        if txs[place].is_coinbase() {
            return Some(place as u32);
        }
    }
    None
}

// The least place whose id stands at an earlier one.
#[tactic(auto, using(crate::proofs::Rules::least_none, crate::proofs::Rules::least_found, crate::proofs::Rules::least_more))]
fn duplicate_id(alloc: Global, ids: &[Hash256]) -> Result<Option<u32>, Memory>
    requires { length ids.now ≤ most_items }
    ensures { IfOk result (λ place. place ≡ table.least (length ids.now) (table.stands_earlier ids.now)) }
{
    let mut seen = BTreeSet::new(alloc);
    for place in 0..ids.len() {
        match seen.insert(ids[place]) {
            Ok(true) => {}
            Ok(false) => return Ok(Some(place as u32)),
            Err(_) => return Err(Memory),
        }
    }
    Ok(None)
}

#[tactic(auto, unfolding(crate::specs::Shape::is_in_form))]
fn is_in_form(count: usize, from: u32, verdict: &Verdict) -> bool
    ensures { result ≡ table.is_in_form count from verdict.now }
{
    from <= verdict.tx
        && (verdict.tx as usize) < count
        && COLLATERAL_KEY <= verdict.kind
        && verdict.kind <= MEMBERS_KEYS
        && verdict.valid <= 1
}

// The place of the first verdict that is out of form or out of order.
#[tactic(auto, using(crate::proofs::Rules::in_form_from, crate::proofs::Rules::in_form_below, crate::proofs::Rules::bad_here, crate::proofs::Rules::bad_next, crate::proofs::Rules::bad_end))]
fn bad_verdict(count: usize, verdicts: &[Verdict]) -> Option<u32>
    requires { count ≤ most_items }
    ensures { result ≡ table.bad_verdict count 0 verdicts.now }
{
    let mut from = 0;
    for place in 0..verdicts.len() {
        let verdict = &verdicts[place];
        if !is_in_form(count, from, verdict) {
            return Some(place as u32);
        }
        from = verdict.tx + 1;
    }
    None
}

#[tactic(auto, unfolding(crate::specs::Shape::verdict_rules))]
fn verdict_form(block: &BlockFrame) -> Option<Refusal>
    requires { length block.now.txs ≤ most_items }
    ensures { table.unnumbered (table.verdict_rules block.now) ≡ result ∷ [] }
{
    let position = bad_verdict(block.txs.len(), block.verdicts.as_slice())?;
    Some(by_block(Rule::VerdictForm { position }))
}

fn is_next(height: u32, tip_height: u32) -> bool
    ensures { result ≡ (height == tip_height + 1) }
{
    u64::from(height) == u64::from(tip_height) + 1
}

// The refusal by a rule on the first transaction.
fn by_first(rule: Rule) -> ShapeFault
    ensures { result ≡ ShapeFault.Broken (table.by_tx 0 rule) }
{
    ShapeFault::Broken(by_tx(0, rule))
}

// Judges the first transaction's payload, which must tell the height behind the tip.
fn judge_payload(alloc: Global, tx: &Tx, tip_height: u32) -> Result<CbTx, ShapeFault>
    ensures rule { Judges (table.first_broken (table.unnumbered (table.payload_rules (tip_height + 1) tx.now))) result }
    ensures payload { IfOk result (λ value. cb.Fits value × (tx.now.payload ≡ cb.text value)) }
    ensures height { IfOk result (λ value. value.height ≡ tip_height + 1) }
{
    if !tx.is_cb_type() {
        return Err(by_first(Rule::CbPayload));
    }
    match read_cb(alloc, tx.payload.as_slice()) {
        Ok(value) => {
            if is_next(value.height, tip_height) {
                Ok(value)
            } else {
                let found = value.height;
                Err(by_first(Rule::CbHeight { found }))
            }
        }
        Err(PayloadFault::PayloadVersion { found }) => { Err(by_first(Rule::CbVersion { found })) }
        Err(PayloadFault::PayloadForm { .. }) => { Err(by_first(Rule::CbPayload)) }
        Err(PayloadFault::Memory) => Err(ShapeFault::Memory),
    }
}
