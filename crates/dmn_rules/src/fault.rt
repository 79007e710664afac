//! Why a transaction is refused.

use dmn_rows::Rule;
use thiserror::Error;

/// Why a transaction is refused.
#[derive(Clone, Copy, Debug, PartialEq, Eq, Error)]
pub enum JudgeFault {
    /// The first rule that it breaks.
    #[error("the transaction is refused: {0}")]
    Broken(Rule),
    /// Memory ran out while its payload was read.
    #[error("memory ran out")]
    Memory,
}

impl From<Rule> for JudgeFault {
    ghost use Rattle.std.specs.Prelude.{◌≡◌};
    ghost use Rattle.dmn_rules.specs.declared.fault.JudgeFault.TheVariants.{Broken as BrokenBy};

    ghost from_gives = { λ rule fault. fault ≡ BrokenBy rule };

    fn from(rule: Rule) -> JudgeFault {
        JudgeFault::Broken(rule)
    }
}
