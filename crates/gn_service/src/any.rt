//! A run over TCP that takes any number of callers, one after another.

ghost use Rattle.std.specs.Prelude.{◌≡◌, ◌<◌, ◌≤◌, [], is_some, IfOk, IfSome, MatchResult};
ghost use Rattle.gn_rules.specs.Limits.{most_links};
ghost use Rattle.gn_threads.specs.Courses.{IsLeft};
ghost use Rattle.gn_threads.specs.OpenRuns.{AreOpenStepsOf};
ghost use Rattle.gn_service.specs.Any.{IsServedAfter, IsServedToAny, open_account, ran_of_any, served_open};

use crate::accepting::Accepter;
use crate::counted::Counted;
use crate::doorstep::Doorstep;
use crate::entrance::Entrance;
use crate::failing::{call_fault, cut_for};
use crate::host::Host;
use crate::newcomers::Newcomers;
use crate::parting::{Parting, Told};
use crate::past::{NoPast, Past, Recalling};
use crate::pings::{Pinging, Reminder};
use crate::ran::Ran;
use crate::running::{run_watched, watch_and_call};
use crate::serving::{Any, Serve};
use crate::stop::Stop;
use crate::stops::Stops;
use gn_links::Watch;
use gn_report::Telling;
use gn_room::Signal;
use gn_rules::{MOST_LINKS, RouterCore};
use gn_tcp::{TcpReader, TcpWriter};
use gn_threads::{Asked, Course, Entering, Halted, OpenAccount, Routing, run_open};
use std::alloc::{Allocator, Global};
use std::sync::Wait;
use std::thread::Threads;
use std::time::Clock;

/// Places for callers that are greeted, or told that there are too many, beside those of the neighbours.
const MORE: u32 = 16;

/// How many links may be there at once of a router with so many neighbours.
fn slots_of(neighbours: u32) -> u32
    ensures { (0 < result) × (result ≤ most_links) }
{
    neighbours.saturating_add(MORE).min(MOST_LINKS as u32)
}

/// A run over all links that come, by a router of no steps.
#[derive(Drop)]
struct Unlimited<'a, 's, C: RouterCore<A>, W, G, T, P, R, A: Allocator + Copy = Global> {
    rt: &'a R,
    alloc: A,
    serve: &'a Serve<'a, 's, G, Any<'a, T>>,
    routing: Routing<C, W>,
    past: P,
    ghost empty: { C.steps routing.core ≡ [] },
}

impl<
    'a,
    's,
    C: RouterCore<A> + Drop + Send,
    W: Course<C, A> + Send + Drop,
    G: Watch + Sync,
    T: Parting<A> + Sync,
    P: Past + Send,
    R: Host,
    A: Allocator + Copy + Send + Sync,
> Unlimited<'a, 's, C, W, G, T, P, R, A>
where
    W::Followed: Send + Drop,
{
    /// Runs the router, and calls the peers and accepts callers beside it.
    fn watched(
        self,
    ) -> (
        Result<OpenAccount<TcpReader<'s>, TcpWriter, A>, Halted<A>>,
        W::Rest,
    )
        ensures served { let s = self.entry.serve.now in
            IsServedAfter (P.recalls self.entry.past) s.accept.again (is_some s.accept.pings) s.batch s.config.now
            s.peers.now s.workers open_account result.0 }
        ensures rest { IsLeft (W.follows self.entry.routing.course) W.leaves result.1 (AreOpenStepsOf result.0) }
    {
        let own = Stop::new(None, false);
        let (again, links) = (
            self.serve.accept.again,
            self.serve.config.numbers.neighbours,
        );
        let stops = Stops::new(self.rt, self.alloc, self.serve, &own, again, links);
        self.beside(&stops)
    }

    /// The same, where these stop the run.
    fn beside(
        self,
        stops: &'a Stops<'a, A>,
    ) -> (
        Result<OpenAccount<TcpReader<'s>, TcpWriter, A>, Halted<A>>,
        W::Rest,
    )
        ensures served { let s = self.entry.serve.now in
            IsServedAfter (P.recalls self.entry.past) s.accept.again (is_some s.accept.pings) s.batch s.config.now
            s.peers.now s.workers open_account result.0 }
        ensures rest { IsLeft (W.follows self.entry.routing.course) W.leaves result.1 (AreOpenStepsOf result.0) }
    {
        let rt = self.rt;
        let serving = &self.serve.limits;
        let watch = self.serve.watch;
        let signal = Signal::new();
        let doorstep = Doorstep::new(&signal);
        let reminder = Reminder::new(&signal, self.serve.accept.pings);
        let signal = &signal;
        let doorstep = &doorstep;
        let reminder = &reminder;
        let entrance = Entrance::new(rt, rt.alloc(), self.serve.listener, stops);
        let accepter = Accepter {
            entrance,
            doorstep,
            callers_a_minute: self.serve.accept.callers_a_minute,
        };
        let accepter = &accepter;
        run_watched(
            rt,
            || watch_and_call(rt, serving, stops, watch, Some(accepter), Some(reminder)),
            || stops.lack_memory(),
            move ||
                ensures served { let s = self.entry.serve.now in
                    IsServedAfter (P.recalls self.entry.past) s.accept.again (is_some s.accept.pings) s.batch
                    s.config.now s.peers.now s.workers open_account result.0 }
                ensures rest { IsLeft (W.follows self.entry.routing.course) W.leaves result.1 (AreOpenStepsOf result.0) }
            { self.run(stops, doorstep, reminder, signal) },
        )
    }
}

impl<
    'a,
    's,
    C: RouterCore<A> + Drop + Send,
    W: Course<C, A> + Send + Drop,
    G: Watch + Sync,
    T: Parting<A> + Sync,
    P: Past + Send,
    R: Threads + Wait + Clock + AllocGlobal + Sync,
    A: Allocator + Copy + Send + Sync,
> Unlimited<'a, 's, C, W, G, T, P, R, A>
where
    W::Followed: Send + Drop,
{
    /// Runs the router, until `stops` ends it where it is stopped. Where one of its calls fails the run has failed, whatever it answers.
    fn run(
        self,
        stops: &Stops<'_, A>,
        doorstep: &Doorstep<'_>,
        reminder: &Reminder<'_>,
        signal: &Signal,
    ) -> (
        Result<OpenAccount<TcpReader<'s>, TcpWriter, A>, Halted<A>>,
        W::Rest,
    )
        ensures served { let s = self.entry.serve.now in
            IsServedAfter (P.recalls self.entry.past) s.accept.again (is_some s.accept.pings) s.batch s.config.now
            s.peers.now s.workers open_account result.0 }
        ensures rest { IsLeft (W.follows self.entry.routing.course) W.leaves result.1 (AreOpenStepsOf result.0) }
    {
        let calls = self.serve.peers.len();
        self.serve.watch.open(self.serve.config.numbers.steps);
        let (answer, rest) = self.over_links(stops, doorstep, reminder, signal);
        match call_fault(stops, calls) {
            Some(fault) => (Err(cut_for(answer, fault)), rest),
            None => (answer, rest),
        }
    }

    /// Runs the router, whatever becomes of its calls.
    fn over_links(
        self,
        stops: &Stops<'_, A>,
        doorstep: &Doorstep<'_>,
        reminder: &Reminder<'_>,
        signal: &Signal,
    ) -> (
        Result<OpenAccount<TcpReader<'s>, TcpWriter, A>, Halted<A>>,
        W::Rest,
    )
        ensures served { let s = self.entry.serve.now in
            IsServedAfter (P.recalls self.entry.past) s.accept.again (is_some s.accept.pings) s.batch s.config.now
            s.peers.now s.workers open_account result.0 }
        ensures rest { IsLeft (W.follows self.entry.routing.course) W.leaves result.1 (AreOpenStepsOf result.0) }
    {
        let Unlimited {
            rt,
            alloc,
            serve,
            routing,
            past,
        } = self;
        let (watch, numbers) = (serve.watch, &serve.config.numbers);
        let gate = Counted::new(rt, watch, stops);
        let incoming = Newcomers {
            recalling: Recalling::new(past, numbers.steps),
            entrance: Entrance::new(rt, rt.alloc(), serve.listener, stops),
            doorstep,
            called: serve.peers,
            again: serve.accept.again,
            next: 0,
            serving: serve.limits,
            watch,
            gate: &gate,
            pinging: Pinging::new(serve.accept.pings, reminder),
        };
        let asked = Asked {
            config: serve.config,
            workers: serve.workers,
            gate: &gate,
            batch: serve.batch,
        };
        let told = Told::new(serve.accept.leaving, rt, &stops.callees);
        let entering = Entering {
            incoming,
            keeper: Telling::new(&told),
            slots: slots_of(numbers.neighbours),
            signal,
        };
        let (answer, _keeper, rest) = run_open::<C, W, _, _, _, _, _>(
            rt, alloc, &asked, entering, routing,
        );
        (answer, rest)
    }
}

/// Runs a router, of no steps, as `serve_by` does, over links to these peers and to all that call for as long as it runs. There are
/// places for as many links as the router has neighbours, and for some more: while all are taken nobody is accepted. Each link is let go as
/// it ends, and nobody keeps anything of it but counters. Once the run is stopped nobody comes any more, no peer that wasn't called by
/// then either.
///
/// Where it calls its peers again none of them ends the run. One that isn't there is called again after 1, 2, 4 seconds and so on, at
/// most 60; one that goes is called again so over a new link, and after 1 second where it had stood for a minute.
pub fn serve_any<
    's,
    C: RouterCore<A> + Drop + Send,
    W: Course<C, A> + Send + Drop,
    G: Watch + Sync,
    T: Parting<A> + Sync,
    A: Allocator + Copy + Send + Sync,
    R: Host,
>(
    rt: &R,
    alloc: A,
    serve: &Serve<'_, 's, G, Any<'_, T>>,
    routing: Routing<C, W>,
) -> (
    Result<(OpenAccount<TcpReader<'s>, TcpWriter, A>, Ran<A>), Halted<A>>,
    W::Rest,
)
where
    W::Followed: Send + Drop,
    requires empty { C.steps routing.core ≡ [] }
    ensures served { let s = serve.now in
        IsServedToAny s.accept.again (is_some s.accept.pings) s.batch s.config.now s.peers.now s.workers
        served_open result.0 }
    ensures ran { IfOk result.0 (λ done. done.1 ≡ ran_of_any done.0) }
    ensures rest { IsLeft (W.follows routing.course) W.leaves result.1 (λ steps. MatchResult result.0
        (λ done. done.0.history.items ≡ steps)
        (λ halted. IfSome halted.history (λ history. history.items ≡ steps))) }
{
    serve_past(rt, alloc, serve, routing, NoPast)
}

/// Runs a router as `serve_any` does, of no steps, but for those that it goes on with: the house makes them again, in order, before any
/// link comes, and they are the first steps of the run.
pub fn serve_past<
    's,
    C: RouterCore<A> + Drop + Send,
    W: Course<C, A> + Send + Drop,
    G: Watch + Sync,
    T: Parting<A> + Sync,
    P: Past + Send,
    A: Allocator + Copy + Send + Sync,
    R: Host,
>(
    rt: &R,
    alloc: A,
    serve: &Serve<'_, 's, G, Any<'_, T>>,
    routing: Routing<C, W>,
    past: P,
) -> (
    Result<(OpenAccount<TcpReader<'s>, TcpWriter, A>, Ran<A>), Halted<A>>,
    W::Rest,
)
where
    W::Followed: Send + Drop,
    requires empty { C.steps routing.core ≡ [] }
    ensures served { let s = serve.now in
        IsServedAfter (P.recalls past) s.accept.again (is_some s.accept.pings) s.batch s.config.now s.peers.now
        s.workers served_open result.0 }
    ensures ran { IfOk result.0 (λ done. done.1 ≡ ran_of_any done.0) }
    ensures rest { IsLeft (W.follows routing.course) W.leaves result.1 (λ steps. MatchResult result.0
        (λ done. done.0.history.items ≡ steps)
        (λ halted. IfSome halted.history (λ history. history.items ≡ steps))) }
{
    let run = Unlimited {
        rt,
        alloc,
        serve,
        routing,
        past,
    };
    let (answer, rest) = run.watched();
    match answer {
        Ok(account) => {
            let ran = Ran::of_any(&account);
            (Ok((account, ran)), rest)
        }
        Err(halted) => (Err(halted), rest),
    }
}
