//! The fields of a head.

ghost use Rattle.std.specs.Prelude.{◌≡◌, ◌↔◌, length, map, All, IsTrue, EachIndex, slice_index, MatchBool};
ghost use Rattle.std.specs.Int.{IsInRange};
ghost use Rattle.std.specs.Str.Parse.{IsNumeral};
ghost use Rattle.httparse.specs.Spans.{IsHeaderWithin, header_bytes};
ghost use Rattle.std.specs.Str.{str_eq_ignore_ascii_case};
ghost use Rattle.dmn_head.specs.Fields.{values_of, Finds, Steps, SizeIs};

use httparse::spans::HeaderSpan;
use std::str::from_utf8;

/// The values of the fields of one name.
#[derive(Clone, Copy, Debug, PartialEq, Eq)]
pub enum Found<'a> {
    Nothing,
    One(&'a [u8]),
    Several,
}

/// What a Content-Length says.
#[derive(Clone, Copy, Debug, PartialEq, Eq)]
pub enum Size {
    Of(usize),
    TooLong,
    NoNumber,
}

// Whether two names are the same, without regard to case.
fn is_named(name: &[u8], other: &[u8]) -> bool
    ensures { result ≡ str_eq_ignore_ascii_case name.now other.now }
{
    name.eq_ignore_ascii_case(other)
}

// One field more.
fn step<'a>(found: Found<'a>, hit: bool, value: &'a [u8]) -> Found<'a>
    ensures { Steps found.entry hit value.now result }
{
    if !hit {
        return found;
    }
    match found {
        Found::Nothing => Found::One(value),
        Found::One(_) | Found::Several => Found::Several,
    }
}

/// The values of the fields of this name.
pub fn find_values<'a>(head: &'a [u8], headers: &[HeaderSpan], name: &[u8]) -> Found<'a>
    requires { All (IsHeaderWithin (length head.now)) headers.now }
    ensures { Finds (values_of name.now (map (header_bytes head.now) headers.now)) result }
{
    let mut found = Found::Nothing;
    'fields: for header in headers {
        let hit = is_named(name, header.name.of(head));
        found = step(found, hit, header.value.of(head));
    }
    found
}

// Whether each byte is a decimal digit.
fn all_digits(value: &[u8]) -> bool
    ensures { IsTrue result ↔ EachIndex value.now (λ k. IsInRange 48 57 (slice_index value.now k)) }
{
    value.iter().all(|b| 48 <= *b && *b <= 57)
}

// Whether it is one or more decimal digits.
fn is_numeral(value: &[u8]) -> bool
    ensures { MatchBool result (IsNumeral 10 value.now) (¬ IsNumeral 10 value.now) }
{
    if value.is_empty() {
        return false;
    }
    all_digits(value)
}

/// The number that a Content-Length writes.
pub fn size_of(value: &[u8]) -> Size
    ensures { SizeIs value.now result }
{
    if !is_numeral(value) {
        return Size::NoNumber;
    }
    match from_utf8(value) {
        Ok(text) => match text.parse::<u64>() {
            Ok(size) if size <= 16_777_216 => Size::Of(size as usize),
            Ok(_) => Size::TooLong,
            Err(_) => Size::TooLong,
        },
        Err(_) => Size::NoNumber,
    }
}
