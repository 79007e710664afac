//! What a request's head asks for.

ghost use Rattle.std.specs.Prelude.{◌≡◌, ◌≢◌, List, ℕ, length, map, All, MatchBool};
ghost use Rattle.httparse.specs.Spans.{IsHeaderWithin, header_bytes};
ghost use Rattle.dmn_head.specs.Fields.{Finds};
ghost use Rattle.dmn_head.specs.Wants.{BodyPlan, is_block, method_of, TargetPlan, RoutePlan, FieldsPlan, HeadPlan, IsPlan};

use crate::fault::HttpFault;
use crate::fields::{Found, Size, find_values, size_of};
use crate::path::read_path;
use crate::target::{Routes, Target};
use dmn_desk::Request;
use httparse::Status;
use httparse::spans::{EMPTY_HEADER_SPAN, HeaderSpan, parse_request};

/// What a request's head asks for.
#[derive(Debug, Drop)]
pub enum Plan {
    /// Nothing: the reply is this.
    Refuse(HttpFault),
    /// This.
    Ask(Request),
    /// To connect the block in a body of so many bytes.
    Body(usize),
}

fn body_plan(found: Found<'_>) -> Plan
    ensures plans { (values : List (List ℕ)) → Finds values found.entry → BodyPlan values result }
    ensures keeps { IsPlan result }
{
    match found {
        Found::One(value) => match size_of(value) {
            Size::Of(size) => Plan::Body(size),
            Size::TooLong => Plan::Refuse(HttpFault::BodyTooLong),
            Size::NoNumber => Plan::Refuse(HttpFault::Length),
        },
        Found::Nothing | Found::Several => Plan::Refuse(HttpFault::Length),
    }
}

fn is_block(target: Target) -> bool
    ensures { result ≡ is_block target }
{
    match target {
        Target::Block => true,
        Target::Tip
        | Target::List
        | Target::Row
        | Target::Payees
        | Target::Members
        | Target::Quorums
        | Target::Diff
        | Target::Disconnect
        | Target::Pin
        | Target::Page
        | Target::Release => false,
    }
}

fn method_of(target: Target) -> &'static [u8]
    ensures { result.now ≡ method_of target }
{
    match target {
        Target::Tip
        | Target::List
        | Target::Row
        | Target::Payees
        | Target::Members
        | Target::Quorums
        | Target::Diff
        | Target::Page => b"GET",
        Target::Block | Target::Disconnect | Target::Pin | Target::Release => b"POST",
    }
}

fn has_method(target: Target, method: &[u8]) -> bool
    ensures { MatchBool result (method.now ≡ method_of target) (method.now ≢ method_of target) }
{
    method == method_of(target)
}

fn target_plan(target: Target, path: &[u8], head: &[u8], headers: &[HeaderSpan]) -> Plan
    requires { All (IsHeaderWithin (length head.now)) headers.now }
    ensures plans { TargetPlan target path.now (map (header_bytes head.now) headers.now) result }
    ensures keeps { IsPlan result }
{
    if is_block(target) {
        let found = find_values(head, headers, b"content-length");
        return body_plan(found);
    }
    match read_path(target, path) {
        Some(request) => Plan::Ask(request),
        None => Plan::Refuse(HttpFault::BadPath),
    }
}

fn route_plan(
    routes: &Routes,
    method: &[u8],
    path: &[u8],
    head: &[u8],
    headers: &[HeaderSpan],
) -> Plan
    requires { All (IsHeaderWithin (length head.now)) headers.now }
    ensures plans { RoutePlan method.now path.now (map (header_bytes head.now) headers.now) result }
    ensures keeps { IsPlan result }
{
    match routes.target(path) {
        Some(target) => {
            if has_method(target, method) {
                target_plan(target, path, head, headers)
            } else {
                Plan::Refuse(HttpFault::Method)
            }
        }
        None => Plan::Refuse(HttpFault::NoRoute),
    }
}

fn fields_plan(
    routes: &Routes,
    method: &[u8],
    path: &[u8],
    head: &[u8],
    headers: &[HeaderSpan],
) -> Plan
    requires { All (IsHeaderWithin (length head.now)) headers.now }
    ensures plans { FieldsPlan method.now path.now (map (header_bytes head.now) headers.now) result }
    ensures keeps { IsPlan result }
{
    match find_values(head, headers, b"transfer-encoding") {
        Found::Nothing => route_plan(routes, method, path, head, headers),
        Found::One(_) | Found::Several => Plan::Refuse(HttpFault::Encoding),
    }
}

/// What the bytes of a head ask for, by the first check that fails.
pub fn plan_of(routes: &Routes, head: &[u8]) -> Plan
    ensures plans { HeadPlan head.now result }
    ensures keeps { IsPlan result }
{
    let mut headers = [EMPTY_HEADER_SPAN; 32];
    match parse_request(head, &mut headers) {
        Ok(Status::Complete(spans)) => {
            if spans.len == head.len() {
                let method = spans.method.of(head);
                let path = spans.path.of(head);
                fields_plan(routes, method, path, head, &headers[..spans.headers])
            } else {
                Plan::Refuse(HttpFault::BadHead)
            }
        }
        Ok(Status::Partial) => Plan::Refuse(HttpFault::BadHead),
        Err(_) => Plan::Refuse(HttpFault::BadHead),
    }
}
