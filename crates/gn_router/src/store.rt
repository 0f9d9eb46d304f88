//! What a router keeps of its steps.

ghost use Rattle.std.specs.Prelude.{◌≡◌, ◌∷◌, ◌++◌, [], Ok, reverse, IfOk, OnErr, OnOk};
ghost use Rattle.gn_rules.specs.Answer as rules;
ghost use Rattle.gn_rules.specs.Statistics.{stats_of};
ghost use Rattle.gn_rules.specs.declared.event.Event.TheVariants.{Take};
ghost use Rattle.gn_rules.specs.declared.reply.Reply.TheVariants.{Taken};

use gn_decide::{Lookup, Places};
use gn_rules::{Config, ConnId, Event, Reply, Stats, Step};
use gn_wire::Descriptor;
use std::alloc::{AllocError, Allocator};
use std::mem;

/// What a router keeps of its steps, to answer from: the steps themselves, or what they left.
pub trait Store<A: Allocator + Copy>: Lookup<A> {
    /// Makes the step of an event and the rules' reply the last. It takes both out of the places that are lent to it, and
    /// leaves others there. It looks at these places first. An `Err` is out of memory, and changes nothing.
    fn follow(
        &mut self,
        alloc: A,
        actor: u32,
        places: Places,
        event: &mut Event<A>,
        reply: &mut Reply<A>,
    ) -> Result<(), AllocError>
        requires { rules.answer (Self.settings self.old) (reverse (Self.steps self.old)) event.old ≡ Ok reply.old }
        ensures step { OnOk result (Self.steps self.new
            ≡ Self.steps self.old ++ record { actor = actor; event = event.old; reply = reply.old } ∷ []) }
        ensures err { OnErr result (Self.steps self.new ≡ Self.steps self.old) }
        ensures event { OnErr result (event.new ≡ event.old) }
        ensures reply { OnErr result (reply.new ≡ reply.old) }
        ensures settings { Self.settings self.new ≡ Self.settings self.old };

    /// As `follow` of a Take, of whose packet this is a copy: the packet itself can be moved out of what waits.
    fn follow_take(
        &mut self,
        alloc: A,
        actor: u32,
        places: Places,
        c: ConnId,
        packet: &Descriptor<A>,
    ) -> Result<(), AllocError>
        requires { rules.answer (Self.settings self.old) (reverse (Self.steps self.old)) (Take c)
            ≡ Ok (Taken packet.now) }
        ensures step { OnOk result (Self.steps self.new
            ≡ Self.steps self.old ++ record { actor = actor; event = Take c; reply = Taken packet.now } ∷ []) }
        ensures err { OnErr result (Self.steps self.new ≡ Self.steps self.old) }
        ensures settings { Self.settings self.new ≡ Self.settings self.old }
    {
        let mut event = Event::Take(c);
        let mut reply = Reply::Taken(packet.copy()?);
        self.follow(alloc, actor, places, &mut event, &mut reply)
    }

    /// How many steps had each reply.
    fn stats(&self) -> Stats
        ensures { result ≡ stats_of (reverse (Self.steps self.now)) };

    /// Each reply is the rules' answer after the steps before it.
    fn is_legal(&self)
        ensures { rules.IsLegal (Self.settings self.now) (reverse (Self.steps self.now)) };
}

/// A store that can be made by a configuration alone.
pub trait FreshStore<A: Allocator + Copy>: Store<A> {
    /// A store of no steps. An `Err` is out of memory.
    fn empty(alloc: A, config: &Config) -> Result<Self, AllocError>
        ensures settings { IfOk result (λ store. Self.settings store ≡ config.now) }
        ensures empty { IfOk result (λ store. Self.steps store ≡ []) };
}

/// A store that keeps the steps themselves.
pub trait StepStore<A: Allocator + Copy>: FreshStore<A> {
    /// The steps, in order.
    fn as_slice(&self) -> &[Step<A>]
        ensures { result.now ≡ Self.steps self.now };

    /// The steps, in order, for keeps.
    fn into_steps(self) -> Vec<Step<A>, A>
        ensures value { result.items ≡ Self.steps self }
        ensures legal { rules.IsLegal (Self.settings self) (reverse (Self.steps self)) };
}

/// The step of this event and this reply, which are taken out of their places; others are left there.
pub fn step_of<A: Allocator>(actor: u32, event: &mut Event<A>, reply: &mut Reply<A>) -> Step<A>
    ensures { result ≡ record { actor = actor; event = event.old; reply = reply.old } }
{
    Step {
        actor,
        event: mem::replace(event, Event::Connect),
        reply: mem::replace(reply, Reply::TooMany),
    }
}
