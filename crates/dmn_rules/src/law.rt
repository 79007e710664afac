//! A law of the definitions.

ghost use Rattle.std.specs.Prelude.{ℕ, List, Option};
ghost use Rattle.dmn_rows.specs.declared.profile.Profile.{Profile};
ghost use Rattle.dmn_rows.specs.declared.row.MnRow.{MnRow};
ghost use Rattle.dmn_rows.specs.declared.verdict.Verdict.{Verdict};
ghost use Rattle.dmn_rows.specs.Order.{TellsLeast};
ghost use Rattle.dmn_rows.specs.Rows.{Outputs};
ghost use Rattle.dmn_rows.specs.Rule.{rule_number};
ghost use Rattle.dmn_tx.specs.declared.tx.Tx.{Tx};
ghost use Rattle.dmn_rules.specs.Defs.{judge_of, rules_of};

/// A transaction is judged by the broken rule with the least number, and by none where no rule is broken. The numbers
/// are the rules' own.
pub fn judged_by_the_least_number()
    ensures { (profile : Profile) (rows : List MnRow) (outputs : Outputs) (height : ℕ) (tx : Tx) (verdict : Option Verdict)
        → TellsLeast rule_number (rules_of profile rows outputs height tx verdict) (judge_of profile rows outputs height tx verdict) }
{}
