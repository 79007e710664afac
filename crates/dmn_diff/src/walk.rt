//! One step of a walk over two lists.

ghost use Rattle.std.specs.Prelude.{◌≡◌, ◌<◌, length, drop};
ghost use Rattle.dmn_sml.specs.Defs.{IsAscending};
ghost use Rattle.dmn_diff.specs.Walk.{IsFront};

use dmn_bytes::Hash256;
use dmn_sml::SmlEntry;
use std::cmp::Ordering;

/// What is in front of two lists.
#[derive(Clone, Copy, Debug, PartialEq, Eq)]
pub(crate) enum Front {
    /// An entry of the old list, whose hash isn't in the new one.
    Gone(Hash256),
    /// An entry of the new list, whose hash isn't in the old one.
    New(SmlEntry),
    /// An entry of the new list that differs from the old list's.
    Changed(SmlEntry),
    /// An entry of both.
    Same,
    /// Neither list goes on.
    Done,
}

/// What is in front of the old list and of the new one.
pub(crate) fn look_ahead(old: &[SmlEntry], new: &[SmlEntry]) -> Front
    requires old { IsAscending old.now }
    requires new { IsAscending new.now }
    ensures { IsFront old.now new.now result }
{
    match (old.first(), new.first()) {
        (None, None) => Front::Done,
        (None, Some(entry)) => Front::New(*entry),
        (Some(entry), None) => Front::Gone(entry.hash),
        (Some(before), Some(entry)) => match before.hash.cmp(&entry.hash) {
            Ordering::Less => Front::Gone(before.hash),
            Ordering::Greater => Front::New(*entry),
            Ordering::Equal => {
                if entry == before {
                    Front::Same
                } else {
                    Front::Changed(*entry)
                }
            }
        },
    }
}

/// All but the first.
pub(crate) fn behind<T>(items: &[T]) -> &[T]
    requires { 0 < length items.now }
    ensures { result.now ≡ drop 1 items.now }
{
    &items[1..]
}
