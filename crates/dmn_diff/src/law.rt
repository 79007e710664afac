//! A change leads from its base to its target; what it tells, by look-ups; and which diffs have a text.

ghost use Rattle.std.specs.Prelude.{◌≡◌, Bool, true, List, map, filter, find, not, is_some};
ghost use Rattle.dmn_rows.specs.declared.row.MnRow.{MnRow};
ghost use Rattle.dmn_rows.specs.Listing.{IsAscending as RowsAscend};
ghost use Rattle.dmn_sml.specs.declared.entry.SmlEntry.{SmlEntry};
ghost use Rattle.dmn_sml.specs.Defs.{IsAscending, has_hash, simple};
ghost use Rattle.dmn_sml.specs.Entry.{entry_of};
ghost use Rattle.dmn_diff.specs.Change.{gone, fresh, is_told, change_of, changed};
ghost use Rattle.dmn_diff.specs.Diff.{hash_of};
ghost use Rattle.dmn_diff.specs.Defs.{IsDiff};
ghost use Rattle.dmn_diff.specs.Fitting.{FieldsFit};
ghost use Rattle.dmn_diff.specs.Rows.{is_row_told, rows_gone};
ghost use Rattle.dmn_diff.specs.declared.diff.Diff.{Diff};

/// What changes from a base to a target, applied to the base, gives the target.
pub fn restored_by_its_change()
    ensures { (base target : List SmlEntry) → IsAscending base → IsAscending target → changed base (change_of base target) ≡ target }
{}

/// The same change, by look-ups: what is deleted is what has no entry of its hash in the target, and what is told is
/// what has none in the base, or another one.
pub fn changes_by_look_ups()
    ensures deleted { (base target : List SmlEntry) → gone base target ≡ map hash_of (filter (λ b. not (is_some (find (has_hash b.hash) target))) base) }
    ensures entries { (base target : List SmlEntry) → IsAscending base → fresh base target ≡ filter (is_told base) target }
{}

/// What changes between the simplified lists of rows, by look-ups among the rows. Rows of the target whose entry is the
/// base's may be passed over before.
pub fn changes_of_rows()
    ensures deleted { (base target : List MnRow) → gone (simple base) (simple target) ≡ rows_gone base target }
    ensures entries { (base target : List MnRow) → RowsAscend base → fresh (simple base) (simple target) ≡ map entry_of (filter (is_row_told base) target) }
    ensures some { (base target : List MnRow) (test : MnRow → Bool) → ((r : MnRow) → is_row_told base r ≡ true → test r ≡ true) → filter (is_row_told base) (filter test target) ≡ filter (is_row_told base) target }
{}

/// A diff whose fields fit and whose lists ascend has a text, so what is written of it is read as it.
pub fn texts_of_diffs()
    ensures { (d : Diff) → FieldsFit d → IsDiff d }
{}
