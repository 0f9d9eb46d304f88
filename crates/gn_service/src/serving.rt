//! What a run over TCP is asked for, and how long it goes on and waits for its peers.

ghost use Rattle.std.specs.Prelude.{◌≡◌};

use crate::pings::Pings;
use crate::stop::Stop;
use gn_hub::Batch;
use gn_links::Place;
use gn_rules::Config;
use gn_tcp::{Brake, TcpLink};
use std::net::{SocketAddr, TcpListener};
use std::sync::atomic::AtomicBool;
use std::time::Duration;

/// How long a run over TCP goes on, and waits for its peers.
#[derive(Clone, Copy, Debug)]
pub struct Serving<'s> {
    /// A read or a write that waits longer fails; `None`: it waits without a limit.
    pub idle: Option<Duration>,
    /// A peer that can't be called is called again until so much time has passed; `None`: it is called once. Where `Any` says that peers
    /// are called again it means nothing.
    pub retry: Option<Duration>,
    /// How long a neighbour that was let go is still listened to, and how long a run that is stopped goes on; `None`: 5 seconds.
    pub grace: Option<Duration>,
    /// A neighbour is let go of which descriptors are refused at the threshold of its connection in each second for so long; `None`: none
    /// is let go so.
    pub flood: Option<Duration>,
    /// By what the run is stopped before its peers end it; `None`: by nothing.
    pub stop: Option<&'s Stop>,
    /// Whether what stands of the history of a run that stops at a fault is written.
    pub is_kept: bool,
    /// Whether peers on other machines are called, too. Else a peer whose address isn't one of this machine, which begins with 127, can't be
    /// called.
    pub calls_far: bool,
}

/// What a run over TCP is asked for, whatever its router: where it is called, by which configuration it routes, the peers that it calls
/// and how many more call it, or `Any`, how many workers route, how long it goes on and waits, who watches it, and how many packets a
/// writer takes at once at most.
#[derive(Drop)]
pub struct Serve<'a, 's, G, M = u32> {
    pub listener: &'a TcpListener,
    pub config: &'a Config,
    pub peers: &'a [SocketAddr],
    pub accept: M,
    pub workers: u32,
    pub limits: Serving<'s>,
    pub watch: &'a G,
    pub batch: Batch,
}

impl<'a, 's, G, M> Serve<'a, 's, G, M> {
    /// The same, with this in the place of how many call.
    pub fn with<M2>(&self, accept: M2) -> Serve<'a, 's, G, M2>
        ensures { result ≡ record {
          listener = self.now.listener;
          config = self.now.config;
          peers = self.now.peers;
          accept = accept;
          workers = self.now.workers;
          limits = self.now.limits;
          watch = self.now.watch;
          batch = self.now.batch;
        } }
    {
        Serve {
            listener: self.listener,
            config: self.config,
            peers: self.peers,
            accept,
            workers: self.workers,
            limits: self.limits,
            watch: self.watch,
            batch: self.batch,
        }
    }
}

/// Any number of callers, one after another. Nothing is kept of a link that has ended, but what this one learns of it. The own servent sends
/// its neighbours these Pings meanwhile; `None`: it sends none.
#[derive(Drop)]
pub struct Any<'a, T> {
    pub leaving: &'a T,
    /// Whether each peer is called for as long as the run goes on: again, where it isn't there or goes.
    pub again: bool,
    pub pings: Option<Pings>,
    /// How many callers from one IP address are let in within a minute, which begins with the first of them: further ones are
    /// disconnected at once, and are no links of the run. `None`: as many as come; of `Some(0)` nobody is let in.
    pub callers_a_minute: Option<u32>,
}

/// The seconds of grace that a run gives that is told nothing else.
const GRACE: u64 = 5;

impl Serving<'static> {
    /// It waits for everything, and goes on until its peers end it, which have a grace of 5 seconds then. It calls no other machine.
    pub const UNLIMITED: Serving<'static> = Serving {
        idle: None,
        retry: None,
        grace: None,
        flood: None,
        stop: None,
        is_kept: false,
        calls_far: false,
    };
}

impl<'s> Serving<'s> {
    /// How long the grace is.
    pub(crate) fn grace(&self) -> Duration {
        match self.grace {
            Some(grace) => grace,
            None => Duration::from_secs(GRACE),
        }
    }

    /// What is set once the run is stopped, where it may be.
    pub(crate) fn flag(&self) -> Option<&'s AtomicBool> {
        Some(self.stop?.flag())
    }

    /// A link in this place among those of the run, numbered, which reads and ends as they do.
    pub(crate) fn placed(&self, place: Place, found: TcpLink<'static>) -> TcpLink<'s>
        ensures { (result.role ≡ found.entry.role)
            × (result.origin ≡ record found.entry.origin { link = place.link }) }
    {
        found
            .numbered(place.link)
            .with_idle(self.idle)
            .with_stop(self.flag())
            .with_brake(self.brake(), place.slot)
            .lingering()
    }

    /// What is set once the run's readers have to read little at a time, where it may be.
    pub(crate) fn brake(&self) -> Option<&'s Brake> {
        Some(self.stop?.brake())
    }
}
