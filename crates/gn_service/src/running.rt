//! A run over TCP: its links come and are watched, its peers are called, and bodies run over them.

ghost use Rattle.std.specs.Prelude.{◌≡◌, ◌+◌, ◌≤◌, [], length};
ghost use Rattle.gn_rules.specs.Limits.{most_links};
ghost use Rattle.gn_threads.specs.Courses.{AreStepsOf, IsLeft};
ghost use Rattle.gn_service.specs.Serves.{IsTallied};

use crate::accepting::Accepter;
use crate::calling::Callers;
use crate::counted::Counted;
use crate::entrance::Entrance;
use crate::failing::{call_fault, failed_for};
use crate::host::Host;
use crate::peers::{Peers, roles_of};
use crate::pings::Reminder;
use crate::serving::{Serve, Serving};
use crate::stop::Stop;
use crate::stops::Stops;
use gn_links::Watch;
use gn_report::Account;
use gn_rules::{Numbers, RouterCore};
use gn_tcp::{TcpReader, TcpWriter};
use gn_threads::{Asked, Coming, Course, Halted, Routing, run_arriving_by};
use std::alloc::{Allocator, Global};
use std::net::{Net, TcpListener, TcpStream};
use std::sync::Wait;
use std::thread;
use std::thread::{Scope, Threads};
use std::time::Clock;

/// A run over these links, at most 256, by a router of no steps.
#[derive(Drop)]
pub(crate) struct Running<'a, 's, C: RouterCore<A>, W, G, R, A: Allocator + Copy = Global> {
    pub rt: &'a R,
    pub alloc: A,
    pub serve: &'a Serve<'a, 's, G>,
    pub routing: Routing<C, W>,
    pub ghost few: { serve.now.accept + length serve.now.peers.now ≤ most_links },
    pub ghost empty: { C.steps routing.core ≡ [] },
}

impl<'a, 's, C: RouterCore<A>, W, G, R, A: Allocator + Copy> Running<'a, 's, C, W, G, R, A> {
    /// How many links it has.
    fn links(&self) -> u32 {
        let calls = self.serve.peers.len() as u32;
        calls.saturating_add(self.serve.accept)
    }
}

impl<
    'a,
    's,
    C: RouterCore<A> + Drop + Send,
    W: Course<C, A> + Send + Drop,
    G: Watch + Sync,
    R: Host,
    A: Allocator + Copy + Send + Sync,
> Running<'a, 's, C, W, G, R, A>
where
    W::Followed: Send + Drop,
{
    /// Runs the router, and calls the peers beside it.
    pub(crate) fn watched(
        self,
    ) -> (
        Result<Account<TcpReader<'s>, TcpWriter, A>, Halted<A>>,
        W::Rest,
    )
        ensures served { let s = self.entry.serve.now in
            IsTallied s.batch s.config.now s.peers.now s.accept s.workers result.0 }
        ensures rest { IsLeft (W.follows self.entry.routing.course) W.leaves result.1 (AreStepsOf result.0) }
    {
        let rt = self.rt;
        let serving = &self.serve.limits;
        let watch = self.serve.watch;
        let own = Stop::new(None, false);
        let stops = Stops::new(rt, self.alloc, self.serve, &own, false, self.links());
        let stops = &stops;
        run_watched(
            rt,
            || watch_and_call(rt, serving, stops, watch, None, None),
            || stops.lack_memory(),
            move ||
                ensures served { let s = self.entry.serve.now in
                    IsTallied s.batch s.config.now s.peers.now s.accept s.workers result.0 }
                ensures rest { IsLeft (W.follows self.entry.routing.course) W.leaves result.1 (AreStepsOf result.0) }
            { self.run(stops) },
        )
    }
}

impl<
    'a,
    's,
    C: RouterCore<A> + Drop + Send,
    W: Course<C, A> + Send + Drop,
    G: Watch + Sync,
    R: Threads + Wait + Clock + AllocGlobal + Sync,
    A: Allocator + Copy + Send + Sync,
> Running<'a, 's, C, W, G, R, A>
where
    W::Followed: Send + Drop,
{
    /// Runs the router, until `stops` ends it where it is stopped. Where one of its calls fails the run has failed, whatever it answers.
    fn run(
        self,
        stops: &Stops<'_, A>,
    ) -> (
        Result<Account<TcpReader<'s>, TcpWriter, A>, Halted<A>>,
        W::Rest,
    )
        ensures served { let s = self.entry.serve.now in
            IsTallied s.batch s.config.now s.peers.now s.accept s.workers result.0 }
        ensures rest { IsLeft (W.follows self.entry.routing.course) W.leaves result.1 (AreStepsOf result.0) }
    {
        let (alloc, calls) = (self.alloc, self.serve.peers.len());
        let (answer, rest) = self.over_links(stops);
        match call_fault(stops, calls) {
            Some(fault) => (Err(failed_for(alloc, answer, fault)), rest),
            None => (answer, rest),
        }
    }

    /// Runs the router, whatever becomes of its calls.
    fn over_links(
        self,
        stops: &Stops<'_, A>,
    ) -> (
        Result<Account<TcpReader<'s>, TcpWriter, A>, Halted<A>>,
        W::Rest,
    )
        ensures served { let s = self.entry.serve.now in
            IsTallied s.batch s.config.now s.peers.now s.accept s.workers result.0 }
        ensures rest { IsLeft (W.follows self.entry.routing.course) W.leaves result.1 (AreStepsOf result.0) }
    {
        let Running {
            rt,
            alloc,
            serve,
            routing,
        } = self;
        let (peers, watch) = (serve.peers, serve.watch);
        let links = peers.len() + serve.accept as usize;
        let all = roles_of(peers.len(), links);
        let roles = &all[..links];
        let numbers = &serve.config.numbers;
        begin(watch, numbers, serve.accept, stops);
        let gate = Counted::new(rt, watch, stops);
        let arrivals = Peers {
            entrance: Entrance {
                net: rt,
                cells: rt.alloc(),
                listener: serve.listener,
                stops,
            },
            called: peers,
            next: 0,
            left: links as u32,
            serving: serve.limits,
            watch,
        };
        let asked = Asked {
            config: serve.config,
            workers: serve.workers,
            gate: &gate,
            batch: serve.batch,
        };
        let coming = Coming { roles, arrivals };
        run_arriving_by::<C, W, _, _, _, _>(rt, alloc, &asked, coming, routing)
    }
}

/// The run begins, as who watches it learns; where it accepts nobody, nobody listens any more.
fn begin<G: Watch, A: Allocator>(watch: &G, numbers: &Numbers, accept: u32, stops: &Stops<'_, A>) {
    watch.open(numbers.steps);
    if accept == 0 {
        stops.close_listener();
    }
}

/// Watches a run, and calls its peers, until it is over; so long somebody accepts its callers, where it takes any number of them, and the run
/// learns when a Ping is due, where its own servent may send any.
pub(crate) fn watch_and_call<
    'x,
    G: Watch + Sync,
    A: Allocator + Send + Sync,
    R: Threads + Wait + Net<Listener = TcpListener, Stream = TcpStream> + Clock + Sync,
>(
    rt: &'x R,
    serving: &Serving<'_>,
    stops: &'x Stops<'x, A>,
    watch: &'x G,
    accepter: Option<&'x Accepter<'x, R, A>>,
    reminder: Option<&'x Reminder<'x>>,
) {
    let serving = *serving;
    thread::scope(thread::scope_env(), rt, |scope| {
        let callers = Callers {
            net: rt,
            scope,
            serving,
            stops,
            watch,
            accepter,
            reminder,
        };
        callers.watch();
    });
}

/// Runs a body, and what watches it beside it, in a thread of its own. Where none can be made that is told first, and nobody watches.
pub(crate) fn run_watched<
    R: Threads + Wait,
    F: FnOnce() + Send + Drop,
    L: FnOnce(),
    T,
    B: FnOnce() -> T,
>(rt: &R, watch: F, lack: L, body: B) -> T
    requires { F.pre watch × L.pre lack × B.pre body }
    ensures { B.post body result }
{
    thread::scope(
        thread::scope_env(),
        rt,
        |scope| -> T
            requires { F.pre watch × L.pre lack × B.pre body }
            ensures { B.post body result }
        { run_within(scope, watch, lack, body) },
    )
}

/// The same, with a thread of this scope.
fn run_within<'x, X: 'x, F: FnOnce() + Send + Drop + 'x, L: FnOnce(), T, B: FnOnce() -> T>(
    scope: &Scope<'x, X>,
    watch: F,
    lack: L,
    body: B,
) -> T
    requires { F.pre watch × L.pre lack × B.pre body }
    ensures { B.post body result }
{
    if scope.spawn(watch).is_err() {
        lack();
    }
    body()
}
