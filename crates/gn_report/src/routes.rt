//! Whether what was admitted is routed. A ticket's Route is looked for near the one before, since tickets are routed nearly in
//! order.

ghost use Rattle.std.specs.Prelude.{◌≡◌, ◌+◌, ◌<◌, false, true, length, IfNone, IfSome};
ghost use Rattle.gn_rules.specs.Flight.{is_routed};
ghost use Rattle.gn_report.specs.BodyEnds.{is_settled};
ghost use Rattle.gn_report.specs.Routes.{IsReach, IsRouteAt, RoutesNotAt, RoutesNotNear};
ghost use Rattle.gn_report.specs.Survey.{AreSettled};

use crate::report::LinkReport;
use crate::survey::is_drains_close;
use gn_rules::{Step, Ticket};
use std::alloc::Allocator;

/// How far the routes of what was admitted have been found.
#[derive(Clone, Copy)]
pub struct Reach {
    /// The place of the route that was found last.
    pub near: usize,
    /// How many steps there are up to the last of the routes.
    pub until: usize,
}

/// Whether the step at a place routes the ticket.
fn is_route_at<A: Allocator>(steps: &[Step<A>], place: usize, t: Ticket) -> bool
    ensures yes { result ≡ true → IsRouteAt t steps.now place }
    ensures no { result ≡ false → RoutesNotAt t steps.now place }
{
    place < steps.len() && steps[place].event.routes(t)
}

/// A place so far apart from another where the ticket is routed.
fn route_apart<A: Allocator>(
    steps: &[Step<A>],
    near: usize,
    apart: usize,
    t: Ticket,
) -> Option<usize>
    requires near { near < length steps.now }
    requires before { RoutesNotNear t steps.now near apart }
    ensures found { IfSome result (λ place. IsRouteAt t steps.now place) }
    ensures none { IfNone result (RoutesNotNear t steps.now near (apart + 1)) }
{
    if apart < steps.len() - near && is_route_at(steps, near + apart, t) {
        return Some(near + apart);
    }
    if apart <= near && is_route_at(steps, near - apart, t) {
        return Some(near - apart);
    }
    None
}

/// The place nearest to another where the ticket is routed.
fn route_near<A: Allocator>(steps: &[Step<A>], near: usize, t: Ticket) -> Option<usize>
    requires { near < length steps.now }
    ensures found { IfSome result (λ place. IsRouteAt t steps.now place) }
    ensures none { IfNone result (is_routed steps.now t ≡ false) }
{
    for apart in 0..steps.len() {
        if let Some(place) = route_apart(steps, near, apart, t) {
            return Some(place);
        }
    }
    None
}

/// The reach with one step more: none where what that step admitted isn't routed.
fn reach_after<A: Allocator>(steps: &[Step<A>], reach: Reach, i: usize) -> Option<Reach>
    requires within { i < length steps.now }
    requires reach { IsReach steps.now i reach }
    ensures more { IfSome result (λ more. IsReach steps.now (i + 1) more) }
    ensures none { IfNone result (is_settled steps.now (length steps.now) ≡ false) }
{
    let Some(t) = steps[i].reply.admitted() else {
        return Some(reach);
    };
    let Some(place) = route_near(steps, reach.near, t) else {
        return None;
    };
    Some(Reach {
        near: place,
        until: reach.until.max(place + 1),
    })
}

/// What a walk finds that looks for the routes of a history.
#[derive(Clone, Copy)]
pub struct Routes {
    /// Each admitted ticket is routed.
    pub are_all: bool,
    /// Nothing is in flight at each Close by a writer that ended Drained.
    pub are_settled: bool,
}

/// Looks for the routes of a history. Where tickets are routed nearly in order each step is looked at a few times.
pub fn routes_in<Rd, W, A: Allocator>(links: &[LinkReport<Rd, W, A>], steps: &[Step<A>]) -> Routes
    ensures all { result.are_all ≡ is_settled steps.now (length steps.now) }
    ensures settled { result.are_settled ≡ true → AreSettled links.now steps.now }
{
    let mut reach = Reach { near: 0, until: 0 };
    let mut are_settled = true;
    for i in 0..steps.len() {
        if i < reach.until && is_drains_close(links, &steps[i]) {
            are_settled = false;
        }
        match reach_after(steps, reach, i) {
            Some(more) => reach = more,
            None => {
                return Routes {
                    are_all: false,
                    are_settled: false,
                };
            }
        }
    }
    Routes {
        are_all: true,
        are_settled,
    }
}
