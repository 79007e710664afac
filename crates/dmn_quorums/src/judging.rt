//! Commitments are judged.

ghost use Rattle.std.specs.Prelude.{◌≡◌, not, IfOk};
ghost use Rattle.std.specs.Option.{option_copied};
ghost use Rattle.std.specs.Result.{result_err};
ghost use Rattle.dmn_payloads.specs.Commitments.{is_null};
ghost use Rattle.dmn_quorums.specs.Rules as spec;

use crate::case::QuorumCase;
use crate::tables::typed_rules;
use dmn_payloads::Commitment;
use dmn_rows::{MEMBERS_KEYS, Rule, Verdict, check, verdict_rules, when};

/// Judges a commitment in a block at `height` by rules 63 to 75, in the order of their numbers, and tells whether it
/// isn't null. `verdict` is the one that names its transaction. This takes no memory.
#[tactic(auto, using(dmn_rows::proofs::Table::first_broken_append), unfolding(crate::specs::Rules::judge_of))]
pub fn judge_commitment(
    case: &QuorumCase,
    height: u32,
    commitment: &Commitment,
    verdict: Option<&Verdict>,
) -> Result<bool, Rule>
    // It refuses exactly with the first rule that is broken.
    ensures rule { result_err result
        ≡ spec.judge_of case.now height commitment.now (option_copied verdict.entry) }
    ensures value { IfOk result (λ counts. counts ≡ not (is_null commitment.now)) }
{
    check(&[when(
        commitment.version != 1,
        Rule::QuorumVersion {
            found: commitment.version,
        },
    )])?;
    let params = case.params.ok_or(Rule::QuorumType {
        found: commitment.kind,
    })?;
    check(&typed_rules(&params, case, height, commitment))?;
    let counts = !commitment.is_null();
    if counts {
        check(&verdict_rules(&verdict.copied(), MEMBERS_KEYS, &case.digest))?;
    }
    Ok(counts)
}
