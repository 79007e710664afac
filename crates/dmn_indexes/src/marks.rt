//! How far the arenas had grown at some moment, and the way back to it.

ghost use Rattle.std.specs.Prelude.{◌≡◌};
ghost use Rattle.dmn_indexes.specs.Marks.{marks_of, Cut, KeepsBelow};

use crate::indexes::Indexes;

impl Indexes {
    /// How many nodes each arena has.
    pub fn marks(&self) -> [u64; 8]
        ensures { result ≡ marks_of self.now }
    {
        [
            self.rows.nodes.len() as u64,
            self.owner.nodes.len() as u64,
            self.operator.nodes.len() as u64,
            self.service.nodes.len() as u64,
            self.collateral.nodes.len() as u64,
            self.payment.nodes.len() as u64,
            self.unconfirmed.nodes.len() as u64,
            self.outputs.nodes.len() as u64,
        ]
    }

    /// Cuts each arena back to its mark. Each version below the marks reads as before.
    pub fn cut(&mut self, marks: &[u64; 8])
        ensures cut { Cut marks.now self.old self.new }
        ensures kept { KeepsBelow marks.now self.old self.new }
    {
        self.rows.truncate(marks[0] as usize);
        self.owner.truncate(marks[1] as usize);
        self.operator.truncate(marks[2] as usize);
        self.service.truncate(marks[3] as usize);
        self.collateral.truncate(marks[4] as usize);
        self.payment.truncate(marks[5] as usize);
        self.unconfirmed.truncate(marks[6] as usize);
        self.outputs.truncate(marks[7] as usize);
    }
}
