//! Where the links of a run over TCP come in: peers are called, and others call.

ghost use Rattle.std.specs.Prelude.{◌≡◌, ℕ, true, IfErr, IfOk, None, Some};
ghost use Rattle.gn_shake.specs.declared.role.Role.TheVariants.{Accepting, Calling};
ghost use Rattle.gn_start.specs.Faults.{IsArrivingFault};

use crate::asked::Asked;
use crate::registering::{pause, registered};
use crate::stops::Stops;
use gn_links::LinkFault;
use gn_shake::Role;
use gn_tcp::{TcpLink, Unmet};
use gn_threads::RunFault;
use std::alloc::{Allocator, Global};
use std::io::ErrorKind;
use std::net::{SocketAddr, TcpListener};
use std::sync::Wait;
use std::time::Clock;

/// Whether nobody can be accepted, for this reason, but may be later: all but a listener that is shut, or that doesn't wait. The system
/// may have no handle or memory left, the caller may have gone, and accept(2) has the faults of a caller's network, too.
fn waits_on(unmet: Unmet) -> bool {
    let is_unfit = matches!(unmet.why, ErrorKind::InvalidInput | ErrorKind::WouldBlock);
    unmet.wants_handle || !is_unfit
}

/// Where the links of a run come in.
#[derive(Drop)]
pub(crate) struct Entrance<'a, N, A: Allocator = Global> {
    pub net: &'a N,
    /// Where the cells come from that the halves of a called link share with who calls its peer, and the table of the addresses that
    /// called last.
    pub cells: Global,
    pub listener: &'a TcpListener,
    pub stops: &'a Stops<'a, A>,
}

impl<'a, N, A: Allocator> Entrance<'a, N, A> {
    /// That of a run of this listener, which these stop.
    pub(crate) fn new(
        net: &'a N,
        cells: Global,
        listener: &'a TcpListener,
        stops: &'a Stops<'a, A>,
    ) -> Self {
        Entrance {
            net,
            cells,
            listener,
            stops,
        }
    }

    /// This fault, for which the links that have come are let go at once.
    pub(crate) fn failing(&self, fault: RunFault) -> RunFault
        ensures { result ≡ fault }
    {
        self.stops.fail();
        fault
    }
}

impl<'a, N: Wait, A: Allocator> Entrance<'a, N, A> {
    /// The link of this number to this peer, which is called from now on. Where the run has failed nobody is, and none comes.
    pub(crate) fn called(&self, link: u32, peer: SocketAddr) -> Result<TcpLink<'static>, RunFault>
        ensures found { IfOk result (λ found. (found.role ≡ Calling)
            × (found.origin ≡ record { link = 0; called = Some peer })) }
        ensures fault { IfErr result (λ fault. (links workers : ℕ) → IsArrivingFault true links workers fault) }
    {
        if self.stops.has_failed() {
            return Ok(TcpLink::missing(Role::Calling, Some(peer)));
        }
        let Ok((found, call)) = TcpLink::called(self.cells, peer) else {
            return Err(self.failing(RunFault::NoMemory));
        };
        match self.stops.ask(self.net, Asked { link, peer, call }) {
            Ok(()) => Ok(found),
            Err(_) => Err(self.failing(RunFault::NoMemory)),
        }
    }
}

impl<'a, N: Wait + Clock, A: Allocator> Entrance<'a, N, A> {
    /// Waits for a caller. Where the run is stopped nobody comes.
    pub(crate) fn accept(&self) -> Result<TcpLink<'static>, LinkFault>
        ensures { IfOk result (λ found. (found.role ≡ Accepting)
            × (found.origin ≡ record { link = 0; called = None })) }
    {
        if !self.stops.has_listener() {
            return Err(LinkFault);
        }
        for _ in 0..u64::MAX {
            if self.stops.is_stopped() {
                return Ok(TcpLink::missing(Role::Accepting, None));
            }
            match TcpLink::try_accept(self.listener) {
                Ok(found) => return Ok(found),
                Err(unmet) if waits_on(unmet) || self.stops.is_stopped() => pause(self.net),
                Err(_) => break,
            }
        }
        Err(LinkFault)
    }

    /// The next caller, as this link, which ends with the run.
    pub(crate) fn accepted(&self, link: u32) -> Result<TcpLink<'static>, RunFault>
        ensures found { IfOk result (λ found. (found.role ≡ Accepting)
            × (found.origin ≡ record { link = 0; called = None })) }
        ensures fault { IfErr result (λ fault. (links workers : ℕ) → IsArrivingFault true links workers fault) }
    {
        match self.accept() {
            Ok(found) => registered(self.net, self.stops, link, found),
            Err(_) => Err(self.failing(RunFault::Listen)),
        }
    }
}
