//! One block more on a version.

ghost use Rattle.std.specs.Prelude.{◌≡◌, ◌+◌, ◌≤◌, false, IfNone, ◌*◌, IfOk, List, None, OnOk, OnErr, IfErr, length};
ghost use Rattle.std.specs.Option.{option_map};
ghost use Rattle.dmn_block.specs.Defs.{IsBlock};
ghost use Rattle.dmn_block.specs.Shape.{IsPayloadOfFirst, broken_rule, by_block, first_broken, unnumbered};
ghost use Rattle.dmn_block.specs.State.{State};
ghost use Rattle.dmn_bytes.specs.Points.{is_zero};
ghost use Rattle.dmn_indexes.specs.Marks.{marks_of, SameNodes};
ghost use Rattle.dmn_indexes.specs.Version.{Keeps, GrownBy};
ghost use Rattle.dmn_indexes.specs.Version as versions;
ghost use Rattle.dmn_indexes.specs.Working.{Leads, listing};
ghost use Rattle.dmn_payloads.specs.declared.commitment.Commitment.{Commitment};
ghost use Rattle.dmn_rows.specs.Listing.{OutputsAscend};
ghost use Rattle.dmn_sml.specs.Defs.{leaf, root_of, simple};
ghost use Rattle.dmn_sml.specs.Entry.{entry_of};
ghost use Rattle.dmn_branch.specs.Fault.{Tells, TellsRule};
ghost use Rattle.dmn_branch.specs.Parts.{Follows, IsMinedAt, IsTip, IsWithin, IsWorking, given_of, outcome_of};
ghost use Rattle.dmn_branch.specs.Stands.{Kept, StandsAt, IsWhole, kept_of, kept_at};
ghost use Rattle.dmn_branch.specs.Step.{last_rules, step_from, most_events, most_rows};

use crate::commitments::Commitments;
use crate::confirm::confirm;
use crate::fault::PrepareFault;
use crate::held::{HeightVersion, Stepped};
use crate::limits::MOST_EVENTS;
use crate::mark::{mark, payee};
use crate::setting::Setting;
use crate::spends::spend;
use crate::transactions::judge_all;
use dmn_block::{BlockFrame, Refusal};
use dmn_bytes::{Hash256, digest};
use dmn_indexes::{Indexes, Working};
use dmn_merkle::RootBuilder;
use dmn_payloads::CbTx;
use dmn_quorums::{Mined, missing};
use dmn_rows::{MOST_MASTERNODES, MOST_OUTPUTS, MnRow, Rule};
use dmn_sml::entry_of;
use std::alloc::Global;
use std::mem;

/// Makes the version after a block of the right shape that is to follow a version, and adds the block's commitments to
/// those that were mined. The versions of before stay as they are; where a rule refuses the block or memory runs out, no
/// node and no commitment is left.
#[tactic(auto, using(dmn_indexes::proofs::Counting::leads_then))]
pub fn advance(
    alloc: Global,
    setting: &Setting<'_>,
    last: &HeightVersion,
    block: &BlockFrame,
    coinbase: &CbTx,
    indexes: &mut Indexes,
    mined: &mut Mined,
) -> Result<Stepped, PrepareFault>
    requires block { IsBlock block.now }
    requires shape { broken_rule block.now last.now.hash last.now.height ≡ None }
    requires payload { IsPayloadOfFirst block.now.txs coinbase.now }
    requires next { coinbase.now.height ≡ last.now.height + 1 }
    requires setting { setting.now ≡ given_of setting.now.profile setting.now.formed coinbase.now.height block.now }
    requires version { versions.IsWhole indexes.old last.now.version }
    requires whole { IsWhole (kept_at indexes.old last.now) }
    ensures next { (state : State) → StandsAt (kept_at indexes.old last.now) state → IfOk result (λ stepped. Follows setting.now.profile setting.now.formed state block.now stepped.events (kept_at indexes.new stepped.next) mined.old mined.new) }
    ensures refused { (state : State) → StandsAt (kept_at indexes.old last.now) state → IfErr result (Tells (step_from setting.now.profile setting.now.formed state block.now)) }
    ensures version { IfOk result (λ stepped. versions.IsWhole indexes.new stepped.next.version) }
    ensures marks { IfOk result (λ stepped. stepped.next.marks ≡ marks_of indexes.new) }
    ensures whole { IfOk result (λ stepped. IsWhole (kept_at indexes.new stepped.next)) }
    ensures height { IfOk result (λ stepped. stepped.next.height ≡ last.now.height + 1) }
    ensures kept { Keeps indexes.old indexes.new }
    ensures mined { OnOk result (IsMinedAt (last.now.height + 1) mined.old mined.new) }
    ensures same_mined { OnErr result (mined.new ≡ mined.old) }
    ensures grown { IfOk result (λ stepped. GrownBy (232 * stepped.events) indexes.old indexes.new) }
    ensures same { OnErr result (SameNodes indexes.old indexes.new) }
{
    let marks = indexes.marks();
    let mut list = Working::new(
        mem::replace(&mut *indexes, Indexes::new(alloc)),
        last.version,
    );
    let followed = follow(alloc, setting, last, block, coinbase, &mut list, mined);
    let version = list.version();
    let events = list.events();
    *indexes = list.into_indexes();
    match followed {
        Err(fault) => {
            indexes.cut(&marks);
            Err(fault)
        }
        Ok(()) => Ok(Stepped {
            next: HeightVersion {
                height: coinbase.height,
                hash: block.hash,
                root: coinbase.rows,
                version,
                marks: indexes.marks(),
            },
            events,
        }),
    }
}

/// Does to the last version what a block of the right shape does, whose coinbase has this payload; or tells the first rule
/// that the block breaks.
#[tactic(auto, using(dmn_indexes::proofs::Counting::leads_then))]
pub fn follow(
    alloc: Global,
    setting: &Setting<'_>,
    last: &HeightVersion,
    block: &BlockFrame,
    coinbase: &CbTx,
    list: &mut Working,
    mined: &mut Mined,
) -> Result<(), PrepareFault>
    requires block { IsBlock block.now }
    requires setting { setting.now ≡ given_of setting.now.profile setting.now.formed coinbase.now.height block.now }
    requires hash { is_zero block.now.hash.0 ≡ false }
    requires before { is_zero last.now.hash.0 ≡ false }
    requires working { IsWorking coinbase.now.height list.old.rows }
    ensures next { (tip : Kept) (state : State) → IsTip tip last.now block.now coinbase.now list.old → StandsAt tip state → OnOk result (Follows setting.now.profile setting.now.formed state block.now list.new.events (kept_of coinbase.now.height block.now.hash coinbase.now.rows (listing list.new)) mined.old mined.new) }
    ensures refused { (tip : Kept) (state : State) → IsTip tip last.now block.now coinbase.now list.old → StandsAt tip state → IfErr result (Tells (step_from setting.now.profile setting.now.formed state block.now)) }
    ensures whole { OnOk result (IsWhole (kept_of coinbase.now.height block.now.hash coinbase.now.rows (listing list.new))) }
    ensures mined { OnOk result (IsMinedAt coinbase.now.height mined.old mined.new) }
    ensures same { OnErr result (mined.new ≡ mined.old) }
    ensures few { OnOk result (list.new.events ≤ most_events) }
    ensures leads { Leads list.old list.new }
{
    let paid = payee(list);
    confirm(coinbase.height, &last.hash, list)?;
    let mut committed = Commitments::new(alloc);
    judge_all(alloc, setting, block, list, &mut committed)?;
    refuse(missing(setting.formings(), committed.kinds()))?;
    spend(block.txs.as_slice(), block.ids.as_slice(), list)?;
    mark(&paid, coinbase.height, list)?;
    refuse(last_rule(coinbase, &last.root, list))?;
    mined.append(coinbase.height, committed.into_mined())?;
    Ok(())
}

// Refuses a block by a rule that is broken, if one is.
fn refuse(broken: Option<Rule>) -> Result<(), PrepareFault>
    ensures none { OnOk result (broken ≡ None) }
    ensures some { IfErr result (TellsRule (option_map by_block broken)) }
{
    match broken {
        Some(rule) => Err(PrepareFault::Refused(Refusal { rule, tx: None })),
        None => Ok(()),
    }
}

// The first of the rules 81 to 84 that is broken. Where no entry changed, the root is that of before.
#[tactic(auto, unfolding(crate::specs::Step::last_rules))]
fn last_rule(coinbase: &CbTx, before: &Hash256, list: &Working) -> Option<Rule>
    ensures rule { (list.now.entries_changed ≡ false → before.now ≡ root_of (simple list.now.rows)) → (mined : List Commitment) → first_broken (unnumbered (last_rules (Some coinbase.now) (outcome_of list.now mined))) ≡ option_map by_block result }
    ensures ascending { IfNone result (OutputsAscend list.now.outputs) }
    ensures within { IfNone result (IsWithin list.now) }
{
    if list.events() > MOST_EVENTS {
        return Some(Rule::TooManyChanges);
    }
    if list.rows_len() > u64::from(MOST_MASTERNODES) {
        return Some(Rule::TooManyMasternodes);
    }
    if list.outputs_len() > u64::from(MOST_OUTPUTS) {
        return Some(Rule::TooManyOutputs);
    }
    let computed = root_after(before, list);
    if coinbase.rows != computed {
        return Some(Rule::CbRoot {
            committed: coinbase.rows,
            computed,
        });
    }
    None
}

// The root of the list as it is, by that of before. The entries are hashed only where one changed.
fn root_after(before: &Hash256, list: &Working) -> Hash256
    requires { length list.now.rows ≤ most_rows }
    ensures { (list.now.entries_changed ≡ false → before.now ≡ root_of (simple list.now.rows)) → result ≡ root_of (simple list.now.rows) }
{
    if list.entries_changed() {
        root_of_rows(list)
    } else {
        *before
    }
}

// The root of a list's simplified entries, which are hashed one by one.
fn root_of_rows(list: &Working) -> Hash256
    requires { length list.now.rows ≤ most_rows }
    ensures { result ≡ root_of (simple list.now.rows) }
{
    let mut builder = RootBuilder::new();
    for rank in 0..list.rows_len() {
        match list.row_at(rank as u32) {
            Some(row) => builder.push(&leaf(row)),
            None => unreachable!(),
        }
    }
    builder.finish()
}

#[tactic(auto, unfolding(dmn_sml::specs::Defs::leaf))]
fn leaf(row: &MnRow) -> Hash256
    ensures { result ≡ leaf (entry_of row.now) }
{
    digest(&entry_of(row))
}
