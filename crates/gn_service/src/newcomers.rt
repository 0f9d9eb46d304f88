//! Where the links of a run over TCP come from that takes any number of callers.

ghost use Rattle.std.specs.Prelude.{◌≡◌, ◌<◌, ℕ, None, Some, true, IfErr, IfOk, IfSome};
ghost use Rattle.std.specs.List.{slice_get};
ghost use Rattle.gn_shake.specs.declared.role.Role.TheVariants.{Accepting, Calling};
ghost use Rattle.gn_start.specs.Faults.{IsArrivingFault};
ghost use Rattle.gn_service.specs.Any.{IsLinkOf};
ghost use Rattle.gn_service.specs.Newcomers.{IsNewOf};

use crate::counted::Counted;
use crate::doorstep::{Doorstep, Guest};
use crate::entrance::Entrance;
use crate::past::{Past, Recalling};
use crate::pings::Pinging;
use crate::registering::ended_by;
use crate::serving::Serving;
use gn_links::{Link, Place, Watch};
use gn_room::Waiting;
use gn_rules::{Receipt, Refusal};
use gn_start::{Coming, Incoming, NewLink, Recall, RunFault};
use gn_tcp::{Socket, TcpLink, TcpOrigin, TcpReader, TcpWriter};
use std::alloc::{Allocator, Global};
use std::net::SocketAddr;
use std::sync::Wait;

/// The steps of before, the peers that are called, and the doorstep on which the others come.
pub(crate) struct Newcomers<'a, 's, N, G, P: Drop, A: Allocator = Global> {
    pub recalling: Recalling<P>,
    pub entrance: Entrance<'a, N, A>,
    pub doorstep: &'a Doorstep<'a>,
    pub called: &'a [SocketAddr],
    /// Whether they are called again.
    pub again: bool,
    /// The number of the next link.
    pub next: u32,
    pub serving: Serving<'s>,
    pub watch: &'a G,
    /// The gate of the run, which counts its steps.
    pub gate: &'a Counted<'a, G, N, A>,
    pub pinging: Pinging<'a>,
}

impl<'a, 's, N, G, P: Drop, A: Allocator> Drop for Newcomers<'a, 's, N, G, P, A> {
    /// A run lets them go once it is over: who accepts and who watches end, too.
    fn drop(self) {
        let Newcomers {
            recalling,
            entrance,
            doorstep,
            called: _,
            again: _,
            next: _,
            serving: _,
            watch: _,
            gate: _,
            pinging: _,
        } = self;
        drop(recalling);
        entrance.stops.close_listener();
        entrance.stops.end();
        doorstep.release();
    }
}

impl<'a, 's, N: Wait, G, P: Drop, A: Allocator> Newcomers<'a, 's, N, G, P, A> {
    /// The guest, as this link, which ends with the run. The fault is out of memory.
    fn registered(&self, link: u32, guest: Guest) -> Result<TcpLink<'static>, RunFault>
        ensures found { IfOk result (λ found. (found.role ≡ Accepting)
            × (found.origin ≡ record { link = 0; called = None })) }
        ensures fault { IfErr result (λ fault. (links workers : ℕ) → IsArrivingFault true links workers fault) }
    {
        let (found, stopper) = guest.into_parts();
        ended_by(self.entrance.net, self.entrance.stops, link, found, stopper)
    }

    /// Has this peer, which stands in this place among them, called over this link.
    fn call(&self, link: u32, place: usize, peer: SocketAddr) -> Result<TcpLink<'static>, RunFault>
        ensures found { IfOk result (λ found. (found.role ≡ Calling)
            × (found.origin ≡ record { link = 0; called = Some peer })) }
        ensures fault { IfErr result (λ fault. (links workers : ℕ) → IsArrivingFault true links workers fault) }
    {
        let (net, callees) = (self.entrance.net, &self.entrance.stops.callees);
        match callees.call(net, place, link) {
            Ok(()) => self.entrance.called(link, peer),
            Err(_) => Err(self.entrance.failing(RunFault::NoMemory)),
        }
    }

    /// A peer that is to be called again, and its place among them.
    fn due(&self) -> Option<(usize, SocketAddr)>
        ensures { IfSome result (λ due. slice_get self.now.called.now due.0 ≡ Some due.1) }
    {
        let place = self.entrance.stops.callees.due(self.entrance.net)?;
        let peer = self.called.get(place)?;
        Some((place, *peer))
    }

    /// Lets in who stands on the doorstep, if somebody does.
    fn meet_guest(&self, link: u32) -> Result<Option<TcpLink<'static>>, RunFault>
        ensures found { IfOk result (λ found. IfSome found (λ l. (l.role ≡ Accepting)
            × (l.origin ≡ record { link = 0; called = None }))) }
        ensures fault { IfErr result (λ fault. (links workers : ℕ) → IsArrivingFault true links workers fault) }
    {
        if self.doorstep.has_failed() {
            return Err(self.entrance.failing(RunFault::Listen));
        }
        match self.doorstep.let_in(self.entrance.net) {
            Some(guest) => Ok(Some(self.registered(link, guest)?)),
            None => Ok(None),
        }
    }

    /// Has the peer of this link called, or one that is to be called again; or lets in who stands on the doorstep, if somebody does.
    fn meet(&self, link: u32) -> Result<Option<TcpLink<'static>>, RunFault>
        ensures found { IfOk result (λ found. IfSome found (λ l.
            IsLinkOf self.now.again self.now.called.now link l.role (record l.origin { link = link }))) }
        ensures fault { IfErr result (λ fault. (links workers : ℕ) → IsArrivingFault true links workers fault) }
    {
        if let Some(peer) = self.called.get(link as usize) {
            return Ok(Some(self.call(link, link as usize, *peer)?));
        }
        if self.again
            && let Some((place, peer)) = self.due()
        {
            return Ok(Some(self.call(link, place, peer)?));
        }
        self.meet_guest(link)
    }

    /// The link of this number, in this slot, split, if its peer has come or is called. The fault names this other number, by which the run
    /// knows the link.
    fn new_link(
        &self,
        place: Place,
        link: u32,
    ) -> Result<Option<NewLink<TcpReader<'s>, TcpWriter>>, RunFault>
        ensures found { IfOk result (λ new. IfSome new (IsNewOf self.now.again self.now.called.now place.link)) }
        ensures fault { IfErr result (λ fault. (links workers : ℕ) → link < links
            → IsArrivingFault true links workers fault) }
    {
        let Some(found) = self.meet(place.link)? else {
            return Ok(None);
        };
        let role = found.role();
        match self.serving.placed(place, found).split() {
            Ok((reader, writer)) => Ok(Some(NewLink {
                role,
                reader,
                writer,
            })),
            Err(_) => Err(self.entrance.failing(RunFault::Link(link))),
        }
    }
}

impl<'a, 's, N: Wait, G: Watch, P: Past, A: Allocator> Incoming for Newcomers<'a, 's, N, G, P, A> {
    ghost use Rattle.std.specs.Prelude.{◌+◌, ⊤, false, is_some, true};
    ghost use Rattle.gn_service.specs.Any.{IsLinkOf};

    type Origin = (TcpOrigin, Socket);

    type Foreknown = TcpOrigin;

    type Reader = TcpReader<'s>;

    type Writer = TcpWriter;

    ghost has_peers = { true };

    ghost is_known = { false };

    ghost foreknown = { λ origin. origin.0 };

    ghost may_come = { λ all k role origin. IsLinkOf all.again all.called.now (all.next + k) role origin };

    ghost may_end = { λ _ _. ⊤ };

    ghost originates = { λ all. is_some all.pinging.pings };

    ghost recalls = { λ all. P.recalls all.recalling.past };

    /// Who watches learns, once all are made, how many steps are left.
    fn recall<B: Allocator + Copy>(&mut self, alloc: B) -> Result<Option<Recall<B>>, RunFault> {
        let recall = self.recalling.past.recall(alloc);
        if matches!(recall, Ok(None))
            && let Some(left) = self.recalling.left()
        {
            self.watch.open(left);
        }
        recall
    }

    fn recalled<B: Allocator + Copy>(
        &mut self,
        recall: Recall<B>,
        answer: Result<Receipt<B>, Refusal>,
    ) -> Result<(), RunFault> {
        if answer.is_ok() {
            self.recalling.add();
            self.gate.recalled();
        }
        self.recalling.past.recalled(recall, answer)
    }

    /// Once the run is stopped nobody comes any more.
    fn next<R: Wait>(
        &mut self,
        rt: &R,
        link: u32,
        place: Option<Place>,
        waiting: &Waiting<'_>,
    ) -> Result<Coming<TcpReader<'s>, TcpWriter>, RunFault> {
        let Some(next) = self.next.checked_add(1) else {
            return Ok(Coming::Over);
        };
        if self.entrance.stops.is_stopped() {
            return Ok(Coming::Over);
        }
        if let Some(id) = self.pinging.next() {
            self.gate.pings();
            return Ok(Coming::Ping(id));
        }
        let Some(place) = place else {
            waiting.wait(rt);
            return Ok(Coming::Nobody);
        };
        // the run's own count is the same
        let place = Place {
            link: self.next,
            slot: place.slot,
        };
        let Some(new) = self.new_link(place, link)? else {
            waiting.wait(rt);
            return Ok(Coming::Nobody);
        };
        self.next = next;
        if !new.reader.is_missing() {
            self.watch.came(rt, place.link, new.reader.peer());
        }
        Ok(Coming::Link(new))
    }
}
