//! The rules on a verdict that is needed.

ghost use Rattle.std.specs.Prelude.{◌≡◌};
ghost use Rattle.dmn_rows.specs.Signed as spec;
ghost use Rattle.dmn_rows.specs.Table.{unnumbered};

use crate::checks::when;
use crate::rule::Rule;
use crate::verdict::Verdict;
use dmn_bytes::Hash256;

/// A verdict that is needed: its kind, and the digest of the key that it is to be on.
#[tactic(auto, unfolding(crate::specs::Signed::verdict_rules))]
pub fn verdict_rules(verdict: &Option<Verdict>, kind: u8, digest: &Hash256) -> [Option<Rule>; 3]
    ensures { result ≡ unnumbered (spec.verdict_rules verdict.now kind digest.now) }
{
    [
        verdict_missing(verdict),
        verdict_other(verdict, kind, digest),
        verdict_no(verdict),
    ]
}

#[tactic(auto, unfolding(crate::specs::Signed::verdict_missing))]
fn verdict_missing(verdict: &Option<Verdict>) -> Option<Rule>
    ensures { result ≡ spec.verdict_missing verdict.now }
{
    when(verdict.is_none(), Rule::VerdictMissing)
}

#[tactic(auto, unfolding(crate::specs::Signed::verdict_other))]
fn verdict_other(verdict: &Option<Verdict>, kind: u8, digest: &Hash256) -> Option<Rule>
    ensures { result ≡ spec.verdict_other verdict.now kind digest.now }
{
    match verdict {
        None => None,
        Some(v) => when(
            !(v.kind == kind && v.key == *digest),
            Rule::VerdictOther { wanted: *digest },
        ),
    }
}

#[tactic(auto, unfolding(crate::specs::Signed::verdict_no))]
fn verdict_no(verdict: &Option<Verdict>) -> Option<Rule>
    ensures { result ≡ spec.verdict_no verdict.now }
{
    match verdict {
        None => None,
        Some(v) => when(v.valid == 0, Rule::VerdictNo),
    }
}
