//! Keys: the order by which a tree is searched.

ghost use Rattle.std.specs.Prelude.{◌≡◌};

use dmn_bytes::{Hash256, OutPoint};
use std::cmp::Ordering;

/// A key of a tree, by a total order. Keys that tie have one place in a tree.
pub trait Key: Copy {
    ghost use Rattle.std.specs.declared.cmp.Ordering.{Ordering};
    ghost use Rattle.std.specs.Cmp.{IsTotalOrder};

    ghost cmp: { Self → Self → Ordering };

    ghost laws: { IsTotalOrder cmp };

    /// How the key stands to another one. Each call of a tree makes one comparison a node.
    fn compare(&self, other: &Self) -> Ordering
        ensures { result ≡ cmp self.now other.now };
}

impl Key for u64 {
    ghost use Rattle.std.specs.Ordering.{nat_cmp};
    ghost use Rattle.dmn_versions.specs.Laws.{number_laws};

    ghost cmp = { nat_cmp };

    ghost laws = { number_laws.total };

    fn compare(&self, other: &u64) -> Ordering {
        self.cmp(other)
    }
}

impl Key for Hash256 {
    ghost use Rattle.dmn_bytes.specs.Points.{hash_cmp};
    ghost use Rattle.dmn_versions.specs.Laws.{hash_laws};

    ghost cmp = { hash_cmp };

    ghost laws = { hash_laws.total };

    fn compare(&self, other: &Hash256) -> Ordering {
        self.cmp(other)
    }
}

impl Key for OutPoint {
    ghost use Rattle.dmn_bytes.specs.Points.{point_cmp};
    ghost use Rattle.dmn_versions.specs.Laws.{point_laws};

    ghost cmp = { point_cmp };

    ghost laws = { point_laws.total };

    fn compare(&self, other: &OutPoint) -> Ordering {
        self.cmp(other)
    }
}
