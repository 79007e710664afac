//! Who is paid next, and how a reward is split.

ghost use Rattle.std.specs.Prelude.{◌≡◌, ◌+◌, Some, map, IfOk};
ghost use Rattle.dmn_rows.specs.Ranked.{lesser_of};
ghost use Rattle.dmn_standing.specs.Dues as turn;
ghost use Rattle.dmn_standing.specs.Payment as spec;

use dmn_bytes::{Hash256, Memory};
use dmn_rows::{MnRow, RowList, pay_key};
use std::alloc::Global;

/// A row's turn to be paid: the height since which it waits, and its hash.
#[derive(Clone, Copy, Debug, PartialEq, Eq, PartialOrd, Ord)]
struct Due {
    key: u32,
    hash: Hash256,
}

/// The parts of a reward.
#[derive(Clone, Copy, Debug, PartialEq, Eq)]
pub struct Parts {
    pub operator: u64,
    pub owner: u64,
}

fn due_of(row: &MnRow) -> Due
    ensures { result ≡ turn.due_of row.now }
{
    Due {
        key: pay_key(row),
        hash: row.hash,
    }
}

/// Who is paid next: of the rows that aren't banned, the one with the least pay key and then the least hash.
pub fn payee(rows: &RowList) -> Option<Hash256>
    ensures { result ≡ spec.payee rows.now.rows }
{
    let mut first = None;
    for row in rows.rows() {
        if row.banned == 0 {
            first = Some(earlier(first, due_of(row)));
        }
    }
    first.map(|due: Due| due.hash)
}

// The earlier turn of the two.
fn earlier(first: Option<Due>, due: Due) -> Due
    ensures { Some result ≡ lesser_of turn.due_cmp first (Some due) }
{
    match first {
        None => due,
        Some(first) => { if due.cmp(&first).is_lt() { due } else { first } }
    }
}

/// The next n payees, in their order; fewer where fewer rows aren't banned.
pub fn forecast(alloc: Global, rows: &RowList, n: u16) -> Result<Vec<Hash256>, Memory>
    ensures { IfOk result (λ hashes. hashes.items ≡ spec.forecast n rows.now.rows) }
{
    let mut dues = dues_of(alloc, rows.rows())?;
    dues.sort_unstable();
    dues.truncate(usize::from(n));
    hashes_of(alloc, &dues)
}

fn dues_of(alloc: Global, rows: &[MnRow]) -> Result<Vec<Due>, Memory>
    ensures { IfOk result (λ dues. dues.items ≡ turn.dues rows.now) }
{
    Ok(
        rows.iter()
            .filter(|row| row.banned == 0)
            .map(|row| due_of(row))
            .collect(alloc)?,
    )
}

fn hashes_of(alloc: Global, dues: &[Due]) -> Result<Vec<Hash256>, Memory>
    ensures { IfOk result (λ hashes. hashes.items ≡ map (λ d. d.hash) dues.now) }
{
    Ok(dues.iter().map(|due| due.hash).collect(alloc)?)
}

// The operator's share of a reward.
#[tactic(auto, unfolding(crate::specs::Payment::share))]
fn share(reward: u64, row: &MnRow) -> u64
    ensures { result ≡ spec.share reward row.now }
{
    if row.operator_payout.kind == 0 {
        0
    } else {
        let part = u128::from(reward) * u128::from(row.reward) / 10_000;
        part.min(u128::from(reward)) as u64
    }
}

/// Splits a reward: the operator gets its share where it has a payout, rounded down, and the owner the rest.
#[tactic(auto, unfolding(crate::specs::Payment::share))]
pub fn split(reward: u64, row: &MnRow) -> Parts
    ensures parts { result ≡ spec.split reward row.now }
    ensures sum { result.operator + result.owner ≡ reward }
{
    let operator = share(reward, row);
    Parts {
        operator,
        owner: reward - operator,
    }
}
