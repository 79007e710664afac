//! What goes otherwise than a case says.

use crate::trouble::Trouble;
use std::alloc::Global;

/// What came in the place of what was wanted, and the line that wanted it.
#[derive(Drop)]
pub struct Difference {
    pub line: u64,
    pub wanted: String,
    pub came: String,
}

impl Difference {
    /// The same on another line, and of which call.
    pub fn at_call(&self, alloc: Global, line: u64, call: u64) -> Result<Difference, Trouble> {
        let came = self.came.as_str();
        Ok(Difference {
            line,
            wanted: String::from_str(alloc, self.wanted.as_str())?,
            came: format!(in alloc; "{came} at call {call}")?,
        })
    }
}
