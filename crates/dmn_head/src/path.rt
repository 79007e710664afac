//! The request that a path asks for by its values.

ghost use Rattle.std.specs.Prelude.{◌≡◌, drop, IfSome};
ghost use Rattle.dmn_desk.specs.Requests.{IsRequest};
ghost use Rattle.dmn_head.specs.Wants.{ReadsPath};

use crate::target::Target;
use crate::values::{cut_at_slash, hash, number};
use dmn_desk::Request;

const MOST_U8: u64 = 255;

const MOST_U16: u64 = 65_535;

const MOST_U32: u64 = 4_294_967_295;

// What stands behind so many bytes.
fn behind(path: &[u8], n: usize) -> &[u8]
    ensures { result.now ≡ drop n path.now }
{
    if path.len() < n { &[] } else { &path[n..] }
}

fn list(path: &[u8]) -> Option<Request>
    ensures reads { ReadsPath Target.List path.now result }
    ensures keeps { IfSome result IsRequest }
{
    let height = number(behind(path, 6), MOST_U32);
    Some(Request::List {
        height: height? as u32,
    })
}

fn row(path: &[u8]) -> Option<Request>
    ensures reads { ReadsPath Target.Row path.now result }
    ensures keeps { IfSome result IsRequest }
{
    let (first, second) = cut_at_slash(behind(path, 5));
    let height = number(first, MOST_U32);
    let of = hash(second);
    Some(Request::Row {
        height: height? as u32,
        hash: of?,
    })
}

fn payees(path: &[u8]) -> Option<Request>
    ensures reads { ReadsPath Target.Payees path.now result }
    ensures keeps { IfSome result IsRequest }
{
    let (first, second) = cut_at_slash(behind(path, 8));
    let height = number(first, MOST_U32);
    let count = number(second, MOST_U16);
    Some(Request::Payees {
        height: height? as u32,
        count: count? as u16,
    })
}

fn members(path: &[u8]) -> Option<Request>
    ensures reads { ReadsPath Target.Members path.now result }
    ensures keeps { IfSome result IsRequest }
{
    let (first, second) = cut_at_slash(behind(path, 9));
    let kind = number(first, MOST_U8);
    let base = number(second, MOST_U32);
    Some(Request::Members {
        kind: kind? as u8,
        base: base? as u32,
    })
}

fn quorums(path: &[u8]) -> Option<Request>
    ensures reads { ReadsPath Target.Quorums path.now result }
    ensures keeps { IfSome result IsRequest }
{
    let height = number(behind(path, 9), MOST_U32);
    Some(Request::Quorums {
        height: height? as u32,
    })
}

fn diff(path: &[u8]) -> Option<Request>
    ensures reads { ReadsPath Target.Diff path.now result }
    ensures keeps { IfSome result IsRequest }
{
    let (first, second) = cut_at_slash(behind(path, 6));
    let base = hash(first);
    let block = hash(second);
    Some(Request::Diff {
        base: base?,
        block: block?,
    })
}

fn disconnect(path: &[u8]) -> Option<Request>
    ensures reads { ReadsPath Target.Disconnect path.now result }
    ensures keeps { IfSome result IsRequest }
{
    let of = hash(behind(path, 12));
    Some(Request::Disconnect { hash: of? })
}

fn pin(path: &[u8]) -> Option<Request>
    ensures reads { ReadsPath Target.Pin path.now result }
    ensures keeps { IfSome result IsRequest }
{
    let height = number(behind(path, 5), MOST_U32);
    Some(Request::Pin {
        height: height? as u32,
    })
}

fn page(path: &[u8]) -> Option<Request>
    ensures reads { ReadsPath Target.Page path.now result }
    ensures keeps { IfSome result IsRequest }
{
    let (first, others) = cut_at_slash(behind(path, 6));
    let (second, third) = cut_at_slash(others);
    let of = number(first, MOST_U32);
    let from = number(second, MOST_U32);
    let count = number(third, MOST_U16);
    Some(Request::Page {
        pin: of? as u32,
        from: from? as u32,
        count: count? as u16,
    })
}

fn release(path: &[u8]) -> Option<Request>
    ensures reads { ReadsPath Target.Release path.now result }
    ensures keeps { IfSome result IsRequest }
{
    let of = number(behind(path, 9), MOST_U32);
    Some(Request::Release { pin: of? as u32 })
}

/// The request that a path of this route asks for by its values.
pub fn read_path(target: Target, path: &[u8]) -> Option<Request>
    ensures reads { ReadsPath target path.now result }
    ensures keeps { IfSome result IsRequest }
{
    match target {
        Target::Tip => Some(Request::Tip),
        Target::List => list(path),
        Target::Row => row(path),
        Target::Payees => payees(path),
        Target::Members => members(path),
        Target::Quorums => quorums(path),
        Target::Diff => diff(path),
        Target::Block => None,
        Target::Disconnect => disconnect(path),
        Target::Pin => pin(path),
        Target::Page => page(path),
        Target::Release => release(path),
    }
}
