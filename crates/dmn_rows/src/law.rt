//! A law of the definitions.

ghost use Rattle.std.specs.Prelude.{◌≡◌, ℕ, List, ◌++◌};
ghost use Rattle.dmn_rows.specs.declared.row.MnRow.{MnRow};
ghost use Rattle.dmn_rows.specs.RowText.{row};

/// Where the texts of two rows begin one and the same text, they are one row: each field stands in its row's text.
pub fn one_row_text()
    ensures { (a b : MnRow) (x y : List ℕ) → row.Fits a → row.Fits b → row.text a ++ x ≡ row.text b ++ y → (a ≡ b) × (x ≡ y) }
{}
