//! Tables of rules, and their first broken one.

ghost use Rattle.std.specs.Prelude.{◌≡◌};
ghost use Rattle.std.specs.Result.{result_err};
ghost use Rattle.dmn_rows.specs.Table as table;

/// Refuses with the first broken rule of a table.
pub fn check<R: Copy>(rules: &[Option<R>]) -> Result<(), R>
    ensures { result_err result ≡ table.first_broken rules.now }
{
    for rule in rules {
        if let Some(refusal) = rule {
            return Err(*refusal);
        }
    }
    Ok(())
}

/// A rule that is broken where the test holds.
pub fn when<R: Copy>(broken: bool, refusal: R) -> Option<R>
    ensures { result ≡ table.when broken refusal }
{
    if broken { Some(refusal) } else { None }
}
