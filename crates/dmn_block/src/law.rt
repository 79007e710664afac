//! A law of the definitions.

ghost use Rattle.std.specs.Prelude.{ℕ};
ghost use Rattle.dmn_bytes.specs.declared.hash.Hash256.{Hash256};
ghost use Rattle.dmn_rows.specs.Order.{TellsLeast};
ghost use Rattle.dmn_block.specs.declared.frame.BlockFrame.{BlockFrame};
ghost use Rattle.dmn_block.specs.Shape.{broken_rule, number_of, shape_rules};

/// A block is refused by the broken rule on its shape with the least number, and by none where no rule is broken. Each
/// rule stands in the table beside its own number.
pub fn refused_by_the_least_number()
    ensures { (block : BlockFrame) (tip : Hash256) (tip_height : ℕ) → TellsLeast number_of (shape_rules block tip tip_height) (broken_rule block tip tip_height) }
{}
