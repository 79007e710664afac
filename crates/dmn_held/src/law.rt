//! Texts that are equal are those of one value.

ghost use Rattle.std.specs.Prelude.{◌≡◌};
ghost use Rattle.dmn_held.specs.Defs.{IsHeld, held_text};
ghost use Rattle.dmn_held.specs.declared.data.SnapshotData.{SnapshotData};

/// Two values with one and the same text are one value.
pub fn one_value()
    ensures { (a b : SnapshotData) → IsHeld a → IsHeld b → held_text a ≡ held_text b → a ≡ b }
{}
