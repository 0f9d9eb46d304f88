//! What pieces of a link's bytes do to a replay.

ghost use Rattle.std.specs.Prelude.{◌≡◌, ◌++◌, List, ℕ, None, IfOk, OnOk};
ghost use Rattle.gn_frames.specs.Frames.{frames_of};
ghost use Rattle.gn_shake.specs.declared.role.Role.TheVariants.{Plain};
ghost use Rattle.gn_shake.specs.Greeting.{greeting_state, request_text};
ghost use Rattle.gn_inbound.specs.Inbound.{IsAt};
ghost use Rattle.gn_replay.specs.declared.link.Link.TheVariants.{Greeting, Joined};
ghost use Rattle.gn_replay.specs.Links.{IsLink, LinkState, greeting, joined};
ghost use Rattle.gn_replay.specs.Pieces.{admits, connects, delivers, delivers_these, fault_plays, feeds_link, greets, joins};
ghost use Rattle.gn_replay.specs.Playing.{HasAdmitted, HasLinked, after_playing};

use crate::link::Link;
use crate::playing::Play;
use crate::saying::Saying;
use gn_inbound::{Given, Inbound};
use gn_rules::{ConnId, Event, RouterCore};
use gn_shake::Role;
use gn_wire::{Descriptor, FrameFault};
use std::alloc::{AllocError, Allocator};

impl<A: Allocator + Copy, C: RouterCore<A>> Play<A, C> {
    /// Admits descriptors in order, until one is refused since the connection isn't live. Answers whether one was.
    fn admit_all(
        &mut self,
        c: ConnId,
        descriptors: Vec<Descriptor<A>, A>,
    ) -> Result<bool, AllocError>
        ensures { IfOk result (λ closed. HasAdmitted closed self.old self.new
            (admits self.old.settings self.old.past c descriptors.items)) }
    {
        for descriptor in descriptors {
            let outcome = self.happen(Event::Admit(c, descriptor))?;
            if outcome.is_not_live {
                return Ok(true);
            }
        }
        Ok(false)
    }

    /// Ends a link that can't have what it was given: says the fault, and closes the connection.
    fn end_by(&mut self, i: u32, connection: ConnId, fault: FrameFault) -> Result<(), AllocError>
        ensures { OnOk result (self.new ≡ after_playing self.old
            (fault_plays self.old.settings self.old.past i connection fault)) }
    {
        self.say(Saying::Fault(i, fault))?;
        self.play_event(Event::Close(connection))
    }

    /// Admits what a piece of a joined link gave, and ends the link at a fault.
    fn take_given(
        &mut self,
        i: u32,
        connection: ConnId,
        inbound: Inbound<A>,
        given: Given<A>,
    ) -> Result<Link<A>, AllocError>
        ensures { IfOk result (λ link. (bytes : List ℕ)
            → (given.fault ≡ None → IsLink {A = A} (Joined connection inbound) (joined connection bytes))
            → HasLinked link self.old self.new (delivers_these self.old.settings self.old.past i connection bytes
            given.descriptors.items given.fault)) }
    {
        if self.admit_all(connection, given.descriptors)? {
            return Ok(Link::Ended);
        }
        match given.fault {
            None => Ok(Link::Joined {
                connection,
                inbound,
            }),
            Some(fault) => {
                self.end_by(i, connection, fault)?;
                Ok(Link::Ended)
            }
        }
    }

    /// Takes a piece of a joined link.
    fn deliver(
        &mut self,
        i: u32,
        connection: ConnId,
        inbound: Inbound<A>,
        piece: &[u8],
    ) -> Result<Link<A>, AllocError>
        ensures { IfOk result (λ link. (bytes : List ℕ)
            → IsLink {A = A} (Joined connection inbound) (joined connection bytes)
            → HasLinked link self.old self.new
            (delivers self.old.settings self.old.past i connection bytes piece.now)) }
    {
        let (inbound, given) = inbound.feed(self.alloc, piece)?;
        self.take_given(i, connection, inbound, given)
    }

    /// Connects a link whose greeting is whole, and takes what came after it.
    fn connect(
        &mut self,
        i: u32,
        inbound: Inbound<A>,
        given: Given<A>,
    ) -> Result<Link<A>, AllocError>
        ensures { IfOk result (λ link. (bytes : List ℕ) → IsAt Plain bytes inbound
            → given.descriptors.items ≡ (frames_of bytes).descriptors → given.fault ≡ (frames_of bytes).fault
            → HasLinked link self.old self.new (connects self.old.settings self.old.past i bytes)) }
    {
        match self.happen(Event::Connect)?.connection {
            None => Ok(Link::Ended),
            Some(connection) => self.take_given(i, connection, inbound, given),
        }
    }

    /// Makes a link that needs no greeting.
    pub(crate) fn join(&mut self) -> Result<Link<A>, AllocError>
        ensures { IfOk result (λ link. HasLinked link self.old self.new (joins self.old.settings self.old.past)) }
    {
        let Some(connection) = self.happen(Event::Connect)?.connection else {
            return Ok(Link::Ended);
        };
        let inbound = Inbound::new(self.alloc, Role::Plain)?;
        Ok(Link::Joined {
            connection,
            inbound,
        })
    }

    /// Takes a piece of a link that awaits its greeting.
    fn greet(&mut self, i: u32, inbound: Inbound<A>, piece: &[u8]) -> Result<Link<A>, AllocError>
        ensures { IfOk result (λ link. (bytes : List ℕ) → IsLink {A = A} (Greeting inbound) (greeting bytes)
            → HasLinked link self.old self.new (greets self.old.settings self.old.past i (bytes ++ piece.now)
            (greeting_state request_text (bytes ++ piece.now)))) }
    {
        let (inbound, given) = inbound.feed(self.alloc, piece)?;
        match inbound {
            Inbound::Greeting(_) => Ok(Link::Greeting(inbound)),
            Inbound::Refused => {
                self.say(Saying::GreetingRefused(i))?;
                Ok(Link::Ended)
            }
            Inbound::Open(_) => self.connect(i, inbound, given),
        }
    }

    /// Takes a piece of link i.
    pub(crate) fn feed_link(
        &mut self,
        i: u32,
        link: Link<A>,
        piece: &[u8],
    ) -> Result<Link<A>, AllocError>
        ensures { IfOk result (λ kept. (state : LinkState) → IsLink link state
            → HasLinked kept self.old self.new (feeds_link self.old.settings self.old.past i piece.now state)) }
    {
        match link {
            Link::Ended => {
                self.say(Saying::Ended(i))?;
                Ok(Link::Ended)
            }
            Link::Greeting(inbound) => self.greet(i, inbound, piece),
            Link::Joined {
                connection,
                inbound,
            } => self.deliver(i, connection, inbound, piece),
        }
    }
}
