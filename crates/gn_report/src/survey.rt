//! One look at a whole report, so that no actor's comparison walks over the history.

ghost use Rattle.std.specs.Prelude.{◌≡◌, not, true, drop};
ghost use Rattle.std.specs.List.{list_all};
ghost use Rattle.gn_shake.specs.Greeting.{is_calling};
ghost use Rattle.gn_report.specs.Actors as actors;
ghost use Rattle.gn_report.specs.BodyEnds as ends;
ghost use Rattle.gn_report.specs.Survey.{AreSettled, IsDrainsCloseAt, IsReadUntil, IsSurvey};
ghost use Rattle.gn_report.specs.Survey as found;

use crate::report::{LinkReport, Report};
use crate::routes::routes_in;
use gn_bodies::WriterEnd;
use gn_rules::{Event, Step};
use gn_shake::Role;
use std::alloc::Allocator;

/// What a look at a whole report finds.
#[derive(Clone, Copy)]
pub struct Survey {
    /// Each actor's receipts are its own steps. Where this is false, each actor's are compared by themselves.
    pub are_own: bool,
    /// All links call.
    pub all_call: bool,
    /// Each admitted ticket is routed.
    pub are_routed: bool,
    /// Nothing is in flight at each Close by a writer that ended Drained. Where this is false, each such Close is looked
    /// at by itself.
    pub are_settled: bool,
    /// How many steps there are up to the last one of a reader that the run waits for.
    pub read: usize,
}

/// Whether all links call.
fn do_all_call(roles: &[Role]) -> bool
    ensures { result ≡ list_all is_calling roles.now }
{
    roles.iter().all(|role| role.is_calling())
}

/// Whether an actor is a reader that the run waits for.
fn is_awaited_reader(roles: &[Role], all_call: bool, actor: u32) -> bool
    requires { all_call ≡ list_all is_calling roles.now }
    ensures { result ≡ actors.is_awaited_reader roles.now actor }
{
    match roles.get(actor as usize) {
        Some(role) => role.is_awaited(all_call),
        None => false,
    }
}

/// How many steps there are up to the last one of a reader that the run waits for.
fn read_until<A: Allocator>(roles: &[Role], all_call: bool, steps: &[Step<A>]) -> usize
    requires { all_call ≡ list_all is_calling roles.now }
    ensures { IsReadUntil roles.now steps.now result }
{
    let mut read = steps.len();
    while read > 0 {
        if is_awaited_reader(roles, all_call, steps[read - 1].actor) {
            return read;
        }
        read -= 1;
    }
    0
}

/// Whether an event is a Close.
fn is_any_close<A: Allocator>(event: &Event<A>) -> bool
    ensures { result ≡ found.is_any_close event.now }
{
    matches!(event, Event::Close(_))
}

/// Whether a writer ended Drained.
fn is_drained(end: WriterEnd) -> bool
    ensures { result ≡ found.is_drained end }
{
    matches!(end, WriterEnd::Drained)
}

/// Whether an actor is the writer of a link, and ended Drained.
fn is_drained_writer<Rd, W, A: Allocator>(links: &[LinkReport<Rd, W, A>], actor: u32) -> bool
    ensures { result ≡ found.is_drained_writer links.now actor }
{
    let place = actor as usize;
    if place < links.len() {
        return false;
    }
    match links.get(place - links.len()) {
        Some(link) => is_drained(link.writer_end),
        None => false,
    }
}

/// Whether a step is a Close by the writer of a link, where that ended Drained.
pub fn is_drains_close<Rd, W, A: Allocator>(links: &[LinkReport<Rd, W, A>], step: &Step<A>) -> bool
    ensures { result ≡ found.is_drains_close links.now step.now }
{
    is_any_close(&step.event) && is_drained_writer(links, step.actor)
}

/// Whether the step at this index is one.
fn is_drains_close_at<Rd, W, A: Allocator>(
    links: &[LinkReport<Rd, W, A>],
    steps: &[Step<A>],
    k: u32,
) -> bool
    ensures { result ≡ true → IsDrainsCloseAt links.now steps.now k }
{
    let place = k as usize;
    place < steps.len() && is_drains_close(links, &steps[place])
}

/// Whether nothing is in flight after the first k steps.
fn is_settled<Rd, W, A: Allocator>(
    links: &[LinkReport<Rd, W, A>],
    steps: &[Step<A>],
    k: u32,
) -> bool
    ensures { result ≡ ends.is_settled steps.now k }
{
    let place = k as usize;
    if place < steps.len() {
        routes_in(links, &steps[..place]).are_all
    } else {
        routes_in(links, steps).are_all
    }
}

impl Survey {
    /// Whether nothing is in flight after the first k steps. Their routes are looked for only where the step there isn't the
    /// Close of a writer that ended Drained, or the look at the whole report didn't find each such Close settled.
    pub fn is_settled_at<Rd, W, A: Allocator>(
        &self,
        links: &[LinkReport<Rd, W, A>],
        steps: &[Step<A>],
        k: u32,
    ) -> bool
        requires { self.now.are_settled ≡ true → AreSettled links.now steps.now }
        ensures { result ≡ ends.is_settled steps.now k }
    {
        if self.are_settled && is_drains_close_at(links, steps, k) {
            return true;
        }
        is_settled(links, steps, k)
    }

    /// Whether each step of a reader that the run waits for stands before this place.
    pub fn is_read_by<A: Allocator>(&self, roles: &[Role], steps: &[Step<A>], k: u32) -> bool
        requires { IsReadUntil roles.now steps.now self.now.read }
        ensures { result ≡ list_all (λ step. not (actors.is_awaited_reader roles.now step.actor)) (drop k steps.now) }
    {
        self.read <= k as usize
    }
}

impl<Rd, W, A: Allocator> Report<Rd, W, A> {
    /// What a look at the whole report finds. Each receipt and each step is looked at a few times.
    pub fn survey(&self, roles: &[Role]) -> Survey
        ensures { IsSurvey roles.now self.now result }
    {
        let all_call = do_all_call(roles);
        let routes = routes_in(self.links.as_slice(), self.history.as_slice());
        Survey {
            are_own: self.are_all_own(),
            all_call,
            are_routed: routes.are_all,
            are_settled: routes.are_settled,
            read: read_until(roles, all_call, self.history.as_slice()),
        }
    }
}
