//! One version of the rows and outputs.

ghost use Rattle.std.specs.Prelude.{◌≡◌};

use dmn_versions::Root;

/// A tree in each of the eight arenas: the rows, their six indexes, and the outputs.
#[derive(Clone, Copy, Debug, PartialEq, Eq)]
pub struct Version {
    pub rows: Root,
    pub owner: Root,
    pub operator: Root,
    pub service: Root,
    pub collateral: Root,
    pub payment: Root,
    pub unconfirmed: Root,
    pub outputs: Root,
}

impl Version {
    ghost use Rattle.dmn_indexes.specs.Version.{empty_version};

    /// No rows and no outputs.
    pub fn empty() -> Version
        ensures { result ≡ empty_version }
    {
        Version {
            rows: Root(0),
            owner: Root(0),
            operator: Root(0),
            service: Root(0),
            collateral: Root(0),
            payment: Root(0),
            unconfirmed: Root(0),
            outputs: Root(0),
        }
    }
}
