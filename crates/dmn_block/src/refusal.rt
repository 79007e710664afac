//! Why a block is refused.

use dmn_rows::Rule;
use std::error::Error;
use std::fmt;

/// Why a block is refused: the first rule that it breaks, and the place of the transaction that the rule names. A rule
/// on the block as a whole names none.
#[derive(Clone, Copy, Debug, PartialEq, Eq)]
pub struct Refusal {
    pub rule: Rule,
    pub tx: Option<u32>,
}

impl Error for Refusal {}

impl fmt::Display for Refusal {
    fn fmt<W: fmt::Write>(&self, f: &mut fmt::Formatter<W>) -> fmt::Result {
        let rule = self.rule;
        match self.tx {
            None => write!(f, "{rule}"),
            Some(tx) => write!(f, "{rule}, broken by transaction {tx}"),
        }
    }
}
