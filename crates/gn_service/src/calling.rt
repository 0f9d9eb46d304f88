//! How a peer of a run over TCP is called, beside the run's other links.

ghost use Rattle.std.specs.Prelude.{◌≡◌, OnOk, false};
ghost use Rattle.gn_tcp.specs.Tcp.{IsLoopback};

use crate::accepting::Accepter;
use crate::asked::Asked;
use crate::looks::Looks;
use crate::pings::Reminder;
use crate::registering::{moment, pause, registered};
use crate::serving::Serving;
use crate::stop::earlier;
use crate::stops::Stops;
use gn_links::Watch;
use gn_shake::Role;
use gn_tcp::{TcpCall, TcpLink, Unmet};
use std::alloc::{Allocator, Global};
use std::net::{Net, SocketAddr, TcpListener, TcpStream};
use std::sync::Wait;
use std::thread::{Scope, Threads};
use std::time::{Clock, Duration};

/// Seconds for which a call waits for its answer.
const CALL: u64 = 1;

/// Whether so much time hasn't passed yet since that began, where it is limited and both times are known.
fn is_within(limit: Option<Duration>, begun: Option<Duration>, now: Option<Duration>) -> bool {
    match (limit, begun, now) {
        (Some(limit), Some(begun), Some(now)) => now.saturating_sub(begun) < limit,
        _ => false,
    }
}

/// Who calls the peer of this link.
#[derive(Drop)]
struct Caller<'a, 's, N, G, A: Allocator = Global> {
    net: &'a N,
    link: u32,
    peer: SocketAddr,
    serving: Serving<'s>,
    stops: &'a Stops<'a, A>,
    watch: &'a G,
}

impl<'a, 's, N: Net<Listener = TcpListener, Stream = TcpStream>, G, A: Allocator> Caller<
    'a,
    's,
    N,
    G,
    A,
> {
    /// Calls the peer, which has to answer within a second. One on another machine is called only where the run calls such ones.
    fn try_call(&self) -> Result<TcpLink<'static>, Unmet>
        ensures near { self.now.serving.calls_far ≡ false → OnOk result (IsLoopback self.now.peer) }
    {
        let limit = Duration::from_secs(CALL);
        if self.serving.calls_far {
            TcpLink::try_call_far(self.net, self.peer, limit)
        } else {
            TcpLink::try_call(self.net, self.peer, limit)
        }
    }
}

impl<
    'a,
    's,
    N: Wait + Net<Listener = TcpListener, Stream = TcpStream> + Clock,
    G,
    A: Allocator,
> Caller<'a, 's, N, G, A> {
    /// Calls the peer, again until it listens or the time for that is over; where the system has no handle for it, until that has one.
    /// Where the run is stopped the peer never comes.
    fn call(&self) -> Result<TcpLink<'static>, Unmet> {
        let begun = self.stops.now(self.net);
        for _ in 0..u64::MAX {
            if self.stops.lets_go() {
                break;
            }
            match self.try_call() {
                Ok(found) => return Ok(found),
                Err(unmet) => {
                    let now = self.stops.now(self.net);
                    let is_patient = unmet.wants_handle
                        || is_within(self.serving.retry, begun, now);
                    if !is_patient && !self.stops.lets_go() {
                        return Err(unmet);
                    }
                    pause(self.net);
                }
            }
        }
        Ok(TcpLink::missing(Role::Calling, Some(self.peer)))
    }

    /// Calls the peer; where the system has no handle for it, again until that has one. None, where it couldn't be called or the run is
    /// stopped meanwhile.
    fn call_once(&self) -> Option<TcpLink<'static>> {
        for _ in 0..u64::MAX {
            if self.stops.is_stopped() {
                return None;
            }
            match self.try_call() {
                Ok(found) => return Some(found),
                Err(unmet) if unmet.wants_handle => pause(self.net),
                Err(_) => return None,
            }
        }
        None
    }

    /// Calls the peer for as long as the run goes on, until it listens: each time after a wait, which grows.
    fn call_on(&self) -> TcpLink<'static> {
        let callees = &self.stops.callees;
        for _ in 0..u64::MAX {
            callees.wait(self.net, self.link, self.stops.stop.flag());
            if let Some(found) = self.call_once() {
                callees.come(self.net, self.link);
                return found;
            }
            if self.stops.is_stopped() {
                break;
            }
            callees.slow_down(self.net, self.link);
            // where the clock can't be read the wait takes no time
            pause(self.net);
        }
        TcpLink::missing(Role::Calling, Some(self.peer))
    }
}

impl<'a, 's, N: Wait + Clock, G: Watch, A: Allocator> Caller<'a, 's, N, G, A> {
    /// The halves of the called link go on over the socket of this one.
    fn answer(&self, found: TcpLink<'static>, call: TcpCall) {
        match registered(self.net, self.stops, self.link, found) {
            Ok(found) => {
                if !found.is_missing() {
                    self.watch.came(self.net, self.link, self.peer);
                }
                let found = found
                    .with_idle(self.serving.idle)
                    .with_stop(self.serving.flag());
                let answered = found.answer(self.net, call);
                if answered.is_err() && !self.stops.callees.again {
                    self.stops.give_up_call(self.link);
                }
            }
            Err(_) => {
                self.stops.lack_memory();
                call.give_up(self.net);
            }
        }
    }
}

impl<
    'a,
    's,
    N: Wait + Net<Listener = TcpListener, Stream = TcpStream> + Clock,
    G: Watch,
    A: Allocator,
> Caller<'a, 's, N, G, A> {
    /// Calls the peer, and tells both halves of the called link how that ended. The run ends where the peer can't be called and isn't
    /// called again.
    fn run(&self, call: TcpCall) {
        if self.stops.callees.again {
            let found = self.call_on();
            self.answer(found, call);
            return;
        }
        match self.call() {
            Ok(found) => self.answer(found, call),
            Err(unmet) => {
                self.watch.not_called(self.link, self.peer, unmet.why);
                self.stops.give_up_call(self.link);
                call.give_up(self.net);
            }
        }
    }
}

/// Calls the peer of one of the calls that the run asked for.
fn call_next<
    N: Wait + Net<Listener = TcpListener, Stream = TcpStream> + Clock,
    G: Watch,
    A: Allocator,
>(net: &N, serving: Serving<'_>, stops: &Stops<'_, A>, watch: &G) {
    if let Some(Asked { link, peer, call }) = stops.next_call(net) {
        let caller = Caller {
            net,
            link,
            peer,
            serving,
            stops,
            watch,
        };
        caller.run(call);
    }
}

/// How long it is until the others of these calls are tried again that were asked for, if so many were begun.
fn pause_of(started: u64, asked: u64) -> Option<Duration> {
    if started < asked {
        Some(moment())
    } else {
        None
    }
}

/// What the threads are started with that call the peers of a run, and accept its callers.
#[derive(Drop)]
pub(crate) struct Callers<'a, 's, E, N, G, A: Allocator = Global> {
    pub net: &'a N,
    pub scope: &'a Scope<'a, E>,
    pub serving: Serving<'s>,
    pub stops: &'a Stops<'a, A>,
    pub watch: &'a G,
    /// Who accepts callers beside the run, where it takes any number of them.
    pub accepter: Option<&'a Accepter<'a, N, A>>,
    /// By what the run learns that a Ping is due, where its own servent may send any.
    pub reminder: Option<&'a Reminder<'a>>,
}

impl<'a, 's, E, N: Wait, G, A: Allocator> Callers<'a, 's, E, N, G, A> {
    /// Where the run is stopped, who accepts callers, who waits for them, and who waits to call a peer look again.
    fn wake_others(&self) {
        if let Some(accepter) = self.accepter
            && self.stops.is_stopped()
        {
            accepter.doorstep.wake(self.net);
            self.stops.callees.wake(self.net);
        }
    }
}

impl<
    'a,
    's,
    E: 'a,
    N: Threads + Wait + Clock + Sync + 'a,
    G,
    A: Allocator + Send + Sync + 'a,
> Callers<'a, 's, E, N, G, A> {
    /// Starts who accepts callers. Where no thread can be made for it the run has failed.
    fn start_accepter(&self) {
        if let Some(accepter) = self.accepter {
            if self.scope.spawn(move || accepter.run()).is_err() {
                self.stops.lack_memory();
            }
        }
    }
}

impl<
    'a,
    's: 'a,
    E: 'a,
    N: Threads + Wait + Net<Listener = TcpListener, Stream = TcpStream> + Clock + Sync + 'a,
    G: Watch + Sync + 'a,
    A: Allocator + Send + Sync + 'a,
> Callers<'a, 's, E, N, G, A> {
    /// Starts a thread for one of the calls that the run asked for. Where none can be made the call is left, or given up where the run is
    /// stopped. Whether it isn't left.
    fn start_one(&self) -> bool {
        let (net, serving, stops, watch) = (self.net, self.serving, self.stops, self.watch);
        let has_started = self
            .scope
            .spawn(move || call_next(net, serving, stops, watch))
            .is_ok();
        if has_started {
            return true;
        }
        let is_stopped = stops.is_stopped();
        if is_stopped {
            stops.give_up_next(net);
        }
        is_stopped
    }

    /// Starts who calls the peers that were asked for since so many calls were begun. How many are by now: less than were asked for where
    /// the system refuses a thread.
    fn start_new(&self, started: u64) -> u64 {
        let asked = self.stops.asked();
        for call in started..asked {
            if !self.start_one() {
                return call;
            }
        }
        asked
    }

    /// Starts who accepts callers, and who calls a peer of the run, as that asks for it; stops the run where its time is over, shuts each link whose peer
    /// has had its grace or floods the run, says when a Ping is due, and tells who watches that the run goes on. It returns once the run is over.
    pub(crate) fn watch(&self) {
        self.start_accepter();
        let mut started = 0;
        let mut looks = Looks::new(self.reminder, &self.stops.floods);
        for _ in self.net.forever() {
            if self.stops.is_over() {
                return;
            }
            started = self.start_new(started);
            self.wake_others();
            let next = looks.look(self.net, self.stops, self.watch);
            let next = earlier(next, pause_of(started, self.stops.asked()));
            self.stops.turn(self.net, earlier(self.watch.tick(), next));
        }
    }
}
