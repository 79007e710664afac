//! Who is paid next, and who is confirmed next.

ghost use Rattle.std.specs.Prelude.{◌≡◌, ◌+◌, IsNone, IsTrue, IfSome, None, Some, nat_le, find, slice_get};
ghost use Rattle.std.specs.Option.{option_copied};
ghost use Rattle.dmn_rows.specs.Profile.{confirm_wait};
ghost use Rattle.dmn_rows.specs.Rows.{has_hash};
ghost use Rattle.dmn_rows.specs.Waiting.{is_due, pay_order};
ghost use Rattle.dmn_indexes.specs.Order.{is_unconfirmed, unconfirmed_order, first_due};
ghost use Rattle.dmn_indexes.specs.Version.{IsWhole, rows_in};

use crate::indexes::Indexes;
use crate::version::Version;
use dmn_rows::{CONFIRM_WAIT, MnRow};

// Whether a row that isn't confirmed has waited long enough to be confirmed by the block of a height.
fn is_old(row: &MnRow, height: u32) -> bool
    ensures { result ≡ nat_le (row.now.registered + confirm_wait) height }
{
    CONFIRM_WAIT <= height && row.registered <= height - CONFIRM_WAIT
}

impl Indexes {
    /// The row at a place of the order of payments, counted from 0. None exactly at or past its end.
    pub fn least_pay(&self, version: &Version, rank: u32) -> Option<&MnRow>
        requires { IsWhole self.now version.now }
        ensures item { option_copied result ≡ slice_get (pay_order (rows_in self.now version.now)) rank }
        ensures row { IfSome result (λ row.
            find (has_hash row.now.hash) (rows_in self.now version.now) ≡ Some row.now) }
    {
        match self.payment.at_rank(version.payment, rank) {
            None => None,
            Some((_, hash)) => self.rows.get(version.rows, hash),
        }
    }

    // The row that waits longest to be confirmed.
    fn first_unconfirmed(&self, version: &Version) -> Option<&MnRow>
        requires { IsWhole self.now version.now }
        ensures item { option_copied result ≡ slice_get (unconfirmed_order (rows_in self.now version.now)) 0 }
        ensures row { IfSome result (λ row.
            (find (has_hash row.now.hash) (rows_in self.now version.now) ≡ Some row.now)
            × IsTrue (is_unconfirmed row.now)) }
    {
        match self.unconfirmed.at_rank(version.unconfirmed, 0) {
            None => None,
            Some((_, hash)) => self.rows.get(version.rows, hash),
        }
    }

    /// The row that is to be confirmed next by the block of a height: of those that aren't confirmed the one that was
    /// registered first, where it has waited long enough.
    pub fn due(&self, version: &Version, height: u32) -> Option<&MnRow>
        requires { IsWhole self.now version.now }
        ensures first { option_copied result ≡ first_due height (unconfirmed_order (rows_in self.now version.now)) }
        ensures row { IfSome result (λ row.
            (find (has_hash row.now.hash) (rows_in self.now version.now) ≡ Some row.now)
            × IsTrue (is_due confirm_wait height row.now)) }
        ensures none { IsNone result
            → find (is_due confirm_wait height) (rows_in self.now version.now) ≡ None }
    {
        match self.first_unconfirmed(version) {
            None => None,
            Some(row) => { if is_old(row, height) { Some(row) } else { None } }
        }
    }
}
