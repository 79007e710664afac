//! A level of a tree, made from the one below in its own place.

ghost use Rattle.std.specs.Prelude.{◌≡◌};
ghost use Rattle.dmn_merkle.specs.Defs.{above};

use crate::builder::pair;
use dmn_bytes::Hash256;

/// Puts the next level in the place of a level. This takes no memory.
pub(crate) fn halve(level: &mut Vec<Hash256>)
    ensures { level.new.items ≡ above level.old.items }
{
    let count = level.len();
    let half = count / 2 + count % 2;
    for i in 0..half {
        let left = level[2 * i];
        let right = if 2 * i + 1 < count {
            level[2 * i + 1]
        } else {
            left
        };
        level[i] = pair(&left, &right);
    }
    level.truncate(half);
}
