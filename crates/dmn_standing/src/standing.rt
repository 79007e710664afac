//! Penalties, each with the height for which it is stored.

ghost use Rattle.std.specs.Prelude.{◌≡◌};
ghost use Rattle.dmn_rows.specs.Row.{plain};
ghost use Rattle.dmn_standing.specs.Standing as spec;

use dmn_rows::{MnRow, plain_at};

/// The row's penalty after block `height`.
pub fn standing_at(row: &MnRow, height: u32) -> u32
    ensures { result ≡ (plain height row.now).penalty }
{
    plain_at(row, height).penalty
}

// The greatest penalty in a list of so many rows.
fn most_penalty(count: u32) -> u32
    ensures { result ≡ spec.most_penalty count }
{
    count.max(100)
}

// A penalty, after one more quorum was missed.
fn raised(count: u32, penalty: u32) -> u32
    ensures { result ≡ spec.raised count penalty }
{
    let most = u64::from(most_penalty(count));
    let penalty = u64::from(penalty) + most * 66 / 100;
    penalty.min(most) as u32
}

/// The row, punished at block `height` as a member of a quorum from which it was missing. The list has `count` rows.
#[tactic(auto, unfolding(crate::specs::Standing::punished))]
pub fn punish(row: &MnRow, height: u32, count: u32) -> MnRow
    ensures row { plain height result ≡ spec.punished height count (plain height row.now) }
    // The stored penalty is that of this height.
    ensures at { result.penalty_at ≡ height }
    ensures core { spec.core result ≡ spec.core row.now }
{
    let penalty = raised(count, standing_at(row, height));
    let is_banned = row.banned == 0 && penalty == most_penalty(count);
    MnRow {
        penalty,
        penalty_at: height,
        banned: if is_banned { height } else { row.banned },
        ..*row
    }
}
