//! The routes.

ghost use Rattle.std.specs.Prelude.{◌≡◌, IfOk, OnOk};
ghost use Rattle.dmn_head.specs.Routes.{Routed};
ghost use Rattle.dmn_head.specs.Router.{with_route, the_rows, Seeks};

use dmn_bytes::Memory;
use matchit::{InsertError, Router};
use std::alloc::Global;
use std::marker::Model;
use std::str::from_utf8;

/// What a path asks for.
#[derive(Clone, Copy, Debug, PartialEq, Eq)]
pub enum Target {
    Tip,
    List,
    Row,
    Payees,
    Members,
    Quorums,
    Diff,
    Block,
    Disconnect,
    Pin,
    Page,
    Release,
}

/// The twelve routes.
#[derive(Drop)]
pub struct Routes {
    router: Router<Target>,
}

impl Model for Routes {
    ghost use Rattle.std.specs.Prelude.{◌≡◌};
    ghost use Rattle.dmn_head.specs.Router.{the_rows};

    ghost Value = { Unit {0} };

    ghost view = { λ r. tt };

    ghost invariant = { λ r. r.router ≡ the_rows };
}

// Adds a route.
fn add(router: &mut Router<Target>, route: &str, target: Target) -> Result<(), InsertError>
    ensures { OnOk result (router.new ≡ with_route route.now target router.old) }
{
    router.insert(route, target)
}

// A router of the twelve routes.
fn build(alloc: Global) -> Result<Router<Target>, InsertError>
    ensures { IfOk result (λ router. router ≡ the_rows) }
{
    let mut router = Router::new(alloc);
    add(&mut router, "/tip", Target::Tip)?;
    add(&mut router, "/list/{height}", Target::List)?;
    add(&mut router, "/row/{height}/{hash}", Target::Row)?;
    add(&mut router, "/payees/{height}/{n}", Target::Payees)?;
    add(&mut router, "/members/{type}/{height}", Target::Members)?;
    add(&mut router, "/quorums/{height}", Target::Quorums)?;
    add(&mut router, "/diff/{base}/{target}", Target::Diff)?;
    add(&mut router, "/block", Target::Block)?;
    add(&mut router, "/disconnect/{hash}", Target::Disconnect)?;
    add(&mut router, "/pin/{height}", Target::Pin)?;
    add(&mut router, "/page/{pin}/{from}/{n}", Target::Page)?;
    add(&mut router, "/release/{pin}", Target::Release)?;
    Ok(router)
}

// What the router finds for a path.
fn seek(router: &Router<Target>, path: &[u8]) -> Option<Target>
    requires { router.now ≡ the_rows }
    ensures { Seeks path.now result }
{
    if !path.is_ascii() {
        return None;
    }
    match from_utf8(path) {
        Ok(text) => match router.at(text) {
            Ok(found) => Some(*found.value),
            Err(_) => None,
        },
        Err(_) => None,
    }
}

impl Routes {
    /// The table of routes.
    pub fn new(alloc: Global) -> Result<Routes, Memory> {
        match build(alloc) {
            Ok(router) => Ok(Routes { router }),
            Err(_) => Err(Memory),
        }
    }

    /// The route of a path.
    pub fn target(&self, path: &[u8]) -> Option<Target>
        ensures { Routed path.now result }
    {
        seek(&self.router, path)
    }
}
