//! Laws of the definitions: stored rows, changed as a block changes every row, are seen as the definitions change them.

ghost use Rattle.std.specs.Prelude.{◌≡◌, ℕ, ◌+◌, ◌≤◌, List, None, Some, find, length, map, slice_get, take};
ghost use Rattle.std.specs.List.{All};
ghost use Rattle.std.specs.Option.{option_map};
ghost use Rattle.dmn_bytes.specs.declared.hash.Hash256.{Hash256};
ghost use Rattle.dmn_rows.specs.declared.row.MnRow.{MnRow};
ghost use Rattle.dmn_rows.specs.Row.{plain};
ghost use Rattle.dmn_rows.specs.Rows.{has_hash, plain_rows, put_row};
ghost use Rattle.dmn_rows.specs.Listing.{IsAscending};
ghost use Rattle.dmn_rows.specs.Waiting.{pay_order};
ghost use Rattle.dmn_standing.specs.Payment.{IsFirst, forecast, payee};
ghost use Rattle.dmn_standing.specs.Standing.{confirmed, decreased, paid, punish_in, punished};

/// Penalties fall by themselves: the rows one block later have the penalties decreased.
pub fn decreased_seen()
    ensures { (height : ℕ) (rows : List MnRow)
        → All (λ row. row.penalty_at ≤ height) rows
        → plain_rows (height + 1) rows ≡ decreased (plain_rows height rows) }
{}

/// Stored rows may be confirmed as they are.
pub fn confirmed_seen()
    ensures { (seen wait height : ℕ) (hash : Hash256) (rows : List MnRow)
        → plain_rows seen (confirmed wait height hash rows) ≡ confirmed wait height hash (plain_rows seen rows) }
{}

/// A stored row may be marked as paid as it is.
pub fn paid_seen()
    ensures { (seen height : ℕ) (hash : Hash256) (rows : List MnRow)
        → plain_rows seen (paid height hash rows) ≡ paid height hash (plain_rows seen rows) }
{}

/// A row of the list that was punished and put in its place is seen as the definition punishes it.
pub fn punished_seen()
    ensures found { (height : ℕ) (hash : Hash256) (rows : List MnRow) (row put : MnRow)
        → find (has_hash hash) rows ≡ Some row
        → plain height put ≡ punished height (length rows) (plain height row)
        → plain_rows height (put_row put rows) ≡ punish_in height hash (plain_rows height rows) }
    ensures none { (height : ℕ) (hash : Hash256) (rows : List MnRow)
        → find (has_hash hash) rows ≡ None
        → plain_rows height rows ≡ punish_in height hash (plain_rows height rows) }
{}

/// The payee is a row that isn't banned, and no such row has an earlier turn.
pub fn payee_is_first()
    ensures { (rows : List MnRow) (hash : Hash256) → payee rows ≡ Some hash → IsFirst rows hash }
{}

/// The payee is the first in the order of payment.
pub fn payee_in_order()
    ensures { (rows : List MnRow)
        → payee rows ≡ option_map (λ row. row.hash) (slice_get (pay_order rows) 0) }
{}

/// The forecast of n, which takes n times the first that is left, is the first n in the order of payment.
pub fn forecast_in_order()
    ensures { (n : ℕ) (rows : List MnRow)
        → IsAscending rows
        → forecast n rows ≡ map (λ row. row.hash) (take n (pay_order rows)) }
{}

/// Who is paid next is told by the stored rows.
pub fn payee_seen()
    ensures { (seen : ℕ) (rows : List MnRow) → payee (plain_rows seen rows) ≡ payee rows }
{}

/// So are the next payees.
pub fn forecast_seen()
    ensures { (seen n : ℕ) (rows : List MnRow) → IsAscending rows → forecast n (plain_rows seen rows) ≡ forecast n rows }
{}
