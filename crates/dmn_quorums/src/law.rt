//! Laws of the definitions.

ghost use Rattle.std.specs.Prelude.{◌≡◌, ℕ, List, Option};
ghost use Rattle.dmn_bytes.specs.declared.hash.Hash256.{Hash256};
ghost use Rattle.dmn_payloads.specs.declared.commitment.Commitment.{Commitment};
ghost use Rattle.dmn_quorums.specs.declared.case.QuorumCase.{QuorumCase as Case};
ghost use Rattle.dmn_quorums.specs.Digest.{digest_of};
ghost use Rattle.dmn_quorums.specs.Rules.{commitment_rules, judge_of};
ghost use Rattle.dmn_quorums.specs.Score.{members_of};
ghost use Rattle.dmn_rows.specs.declared.row.MnRow.{MnRow};
ghost use Rattle.dmn_rows.specs.declared.verdict.Verdict.{Verdict};
ghost use Rattle.dmn_rows.specs.Order.{TellsLeast};
ghost use Rattle.dmn_rows.specs.Rows.{plain_rows};
ghost use Rattle.dmn_rows.specs.Rule.{rule_number};

/// A commitment is judged by the broken rule with the least number, and by none where no rule is broken. Each rule of the
/// table stands beside its own number.
pub fn judged_by_the_least_number()
    ensures { (c : Case) (height : ℕ) (v : Commitment) (verdict : Option Verdict)
        → TellsLeast rule_number (commitment_rules c height v verdict) (judge_of c height v verdict) }
{}

/// The members are told by the stored rows of the base block.
pub fn members_seen()
    ensures { (seen : ℕ) (rows : List MnRow) (size : ℕ) (modifier : Hash256)
        → members_of (plain_rows seen rows) size modifier ≡ members_of rows size modifier }
{}

/// So is their digest.
pub fn digest_seen()
    ensures { (seen : ℕ) (rows : List MnRow) (members : List Hash256)
        → digest_of (plain_rows seen rows) members ≡ digest_of rows members }
{}
