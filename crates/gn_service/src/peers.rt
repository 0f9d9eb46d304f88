//! Where the links of a run over TCP come from.

ghost use Rattle.gn_rules.specs.Limits.{most_links};
ghost use Rattle.std.specs.Prelude.{◌≡◌, ◌<◌, ◌≤◌, ℕ, take, true, IfErr, IfOk};
ghost use Rattle.std.specs.List.{slice_get};
ghost use Rattle.gn_start.specs.Faults.{IsArrivingFault};
ghost use Rattle.gn_service.specs.Links.{roles_of};

use crate::entrance::Entrance;
use crate::serving::Serving;
use gn_links::{Link, Place, Watch};
use gn_rules::MOST_LINKS;
use gn_shake::Role;
use gn_tcp::{Socket, TcpLink, TcpOrigin, TcpReader, TcpWriter};
use gn_threads::{Arrivals, RunFault};
use std::alloc::{Allocator, Global};
use std::net::SocketAddr;
use std::sync::Wait;
use std::time::Clock;

/// The peers that are called, over the first links, and where the others call.
pub(crate) struct Peers<'a, 's, N, G, A: Allocator = Global> {
    pub entrance: Entrance<'a, N, A>,
    pub called: &'a [SocketAddr],
    /// The number of the next link.
    pub next: u32,
    /// How many links are still to come.
    pub left: u32,
    pub serving: Serving<'s>,
    pub watch: &'a G,
}

impl<'a, 's, N, G, A: Allocator> Drop for Peers<'a, 's, N, G, A> {
    /// A run lets them go once it is over.
    fn drop(self) {
        let Peers {
            entrance,
            called: _,
            next: _,
            left: _,
            serving: _,
            watch: _,
        } = self;
        entrance.stops.end();
    }
}

/// The roles of the links of a run that calls so many peers: the called ones come first.
pub(crate) fn roles_of(calls: usize, links: usize) -> [Role; MOST_LINKS]
    requires { (calls ≤ links) × (links ≤ most_links) }
    ensures { take links result ≡ roles_of calls links }
{
    let mut roles = [Role::Accepting; MOST_LINKS];
    let mut link = 0;
    while link < calls {
        roles[link] = Role::Calling;
        link += 1;
    }
    roles
}

impl<'a, 's, N: Wait, G: Watch, A: Allocator> Peers<'a, 's, N, G, A> {
    /// Tells who watches of a caller that has come, and calls no more callers in where it was the last.
    fn tell(&self, link: u32, reader: &TcpReader<'s>) {
        if self.left == 0 {
            self.entrance.stops.close_listener();
        }
        if !reader.is_missing() {
            self.watch.came(self.entrance.net, link, reader.peer());
        }
    }
}

impl<'a, 's, N: Wait + Clock, G, A: Allocator> Peers<'a, 's, N, G, A> {
    /// Has the peer of this link called, or waits for one that calls.
    fn meet(&self, link: u32, role: Role) -> Result<TcpLink<'static>, RunFault>
        ensures found { IfOk result (λ found. (found.role ≡ role)
            × (found.origin ≡ record { link = 0; called = slice_get self.now.called.now link })) }
        ensures fault { IfErr result (λ fault. (links workers : ℕ) → link < links
            → IsArrivingFault true links workers fault) }
    {
        match (role, self.called.get(link as usize)) {
            (Role::Calling, Some(peer)) => self.entrance.called(link, *peer),
            (Role::Accepting, None) => self.entrance.accepted(link),
            _ => Err(RunFault::Link(link)),
        }
    }
}

impl<'a, 's, N: Wait + Clock, G: Watch, A: Allocator> Arrivals for Peers<'a, 's, N, G, A> {
    ghost use Rattle.gn_service.specs.Links.{origins_from};
    ghost use Rattle.std.specs.Prelude.{true};

    type Origin = (TcpOrigin, Socket);

    type Foreknown = TcpOrigin;

    type Reader = TcpReader<'s>;

    type Writer = TcpWriter;

    ghost has_peers = { true };

    ghost foreknown = { λ origin. origin.0 };

    ghost coming = { λ peers. origins_from peers.called.now peers.next peers.left };

    /// Where the run has failed nobody is waited for.
    fn next(&mut self, link: u32, role: Role) -> Result<(TcpReader<'s>, TcpWriter), RunFault> {
        let (Some(next), Some(left)) = (self.next.checked_add(1), self.left.checked_sub(1)) else {
            return Err(RunFault::Link(link));
        };
        if link != self.next {
            return Err(RunFault::Link(link));
        }
        let place = Place { link, slot: link };
        let found = self.serving.placed(place, self.meet(link, role)?);
        let Ok(halves) = found.split() else {
            return Err(self.entrance.failing(RunFault::Link(link)));
        };
        self.next = next;
        self.left = left;
        self.tell(link, &halves.0);
        Ok(halves)
    }
}
