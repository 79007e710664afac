//! The table of rules, in the order of their numbers.

ghost use Rattle.std.specs.Prelude.{◌≡◌};
ghost use Rattle.dmn_quorums.specs.Rules as spec;
ghost use Rattle.dmn_rows.specs.Table as table;

use crate::case::QuorumCase;
use crate::checks::{quorum_bits, quorum_few};
use dmn_payloads::Commitment;
use dmn_rows::{QuorumParams, Rule, when};

/// A commitment of a type that the profile has.
#[tactic(auto, unfolding(crate::specs::Rules::typed_rules))]
pub fn typed_rules(
    params: &QuorumParams,
    case: &QuorumCase,
    height: u32,
    v: &Commitment,
) -> [Option<Rule>; 7]
    ensures { result ≡ table.unnumbered (spec.typed_rules params.now case.now height v.now) }
{
    [
        when(
            case.payload_height != height,
            Rule::QuorumHeight {
                found: case.payload_height,
            },
        ),
        when(!case.in_window, Rule::QuorumWindow),
        when(
            v.quorum != case.base_hash,
            Rule::QuorumBase {
                base: case.base_hash,
            },
        ),
        when(case.already, Rule::QuorumSecond),
        when(case.done, Rule::QuorumDone),
        quorum_bits(params, case.members, v),
        quorum_few(params, v),
    ]
}
