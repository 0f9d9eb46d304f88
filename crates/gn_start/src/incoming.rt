//! Where the links of a run come from.

ghost use Rattle.std.specs.Prelude.{◌≡◌, ◌<◌, ℕ, Bool, None, false, IfErr, IfOk, IfSome};
ghost use Rattle.gn_shake.specs.declared.role.Role.{Role};
ghost use Rattle.gn_start.specs.Faults.{IsArrivingFault};
ghost use Rattle.gn_start.specs.Incoming.{IsComing, IsSameFrom, MayPing};

use crate::fault::RunFault;
use gn_links::{LinkReader, LinkWriter, Place};
use gn_room::Waiting;
use gn_rules::{Event, Receipt, Refusal, Reply};
use gn_shake::Role;
use gn_wire::Guid;
use std::alloc::{Allocator, Global};
use std::sync::Wait;

/// A link that has come: how it begins, and its two halves.
#[derive(Drop)]
pub struct NewLink<Rd, W> {
    pub role: Role,
    pub reader: Rd,
    pub writer: W,
}

/// What becomes of a wait for the next link.
#[derive(Drop)]
pub enum Coming<Rd, W> {
    /// It has come.
    Link(NewLink<Rd, W>),
    /// It hasn't: it is time to look whether others have ended.
    Nobody,
    /// It hasn't: the own servent sends its neighbours a Ping of this ID.
    Ping(Guid),
    /// No more come.
    Over,
}

/// An event that the house makes before the first link comes, and the reply that it had before, where it is made again.
#[derive(Drop)]
pub struct Recall<A: Allocator = Global> {
    pub event: Event<A>,
    pub reply: Option<Reply<A>>,
}

/// Where the links of a run come from, one after another, whether or not it is known how many.
pub trait Incoming: Drop {
    /// What the halves of a link say of it.
    type Origin;

    /// What of that is known before the link comes.
    type Foreknown;

    /// The half of a link that is read.
    type Reader: LinkReader<Origin = Self::Origin>;

    /// The half of a link that is written.
    type Writer: LinkWriter<Origin = Self::Origin>;

    /// Whether peers are called and accepted, either of which may fail.
    ghost has_peers: { Bool };

    /// Whether it is over only once all links have come.
    ghost is_known: { Bool };

    /// What was known of a link before it came.
    ghost foreknown: { Self.Origin → Self.Foreknown };

    /// Whether the k-th link that is still to come may begin so, and be one of which this is known beforehand.
    ghost may_come: { Self → ℕ → Role → Self.Foreknown → Type 0 };

    /// Whether it may be over once k more have come; where it isn't known when all have come, it may always be.
    ghost may_end: { Self → ℕ → Type 0 };

    /// Whether the own servent sends Pings while links come.
    ghost originates: { Self → Bool } = { λ _. false };

    /// Whether the house makes steps of before again.
    ghost recalls: { Self → Bool } = { λ _. false };

    /// The next event that the house makes before the first link comes; `None`: there is none, or no more.
    fn recall<A: Allocator + Copy>(&mut self, _alloc: A) -> Result<Option<Recall<A>>, RunFault>
        ensures none { recalls self.old ≡ false → IfOk result (λ recall. recall ≡ None) }
        ensures coming { IsSameFrom may_come may_end 0 self.old self.new }
        ensures same { (originates self.new ≡ originates self.old) × (recalls self.new ≡ recalls self.old) }
        ensures fault { IfErr result (λ fault. (links workers : ℕ) → IsArrivingFault has_peers links workers fault) }
    {
        Ok(None)
    }

    /// Learns what the rules answered to the event that was given last. An `Err` ends the run.
    fn recalled<A: Allocator + Copy>(
        &mut self,
        recall: Recall<A>,
        answer: Result<Receipt<A>, Refusal>,
    ) -> Result<(), RunFault>
        ensures coming { IsSameFrom may_come may_end 0 self.old self.new }
        ensures same { (originates self.new ≡ originates self.old) × (recalls self.new ≡ recalls self.old) }
        ensures fault { IfErr result (λ fault. (links workers : ℕ) → IsArrivingFault has_peers links workers fault) }
    {
        drop(recall);
        drop(answer);
        Ok(())
    }

    /// Waits for the next link, which gets this number and this place; without a place, as all are taken, none comes. Who waits for
    /// long waits by what is lent, too, so that those that have ended are joined meanwhile. A run that has failed asks on for its links:
    /// once the gate knows of it (`Gate::failed`) nobody is waited for.
    fn next<R: Wait>(
        &mut self,
        rt: &R,
        link: u32,
        place: Option<Place>,
        waiting: &Waiting<'_>,
    ) -> Result<Coming<Self::Reader, Self::Writer>, RunFault>
        ensures coming { IfOk result (λ c. IsComing is_known place c Self.Reader.state Self.Writer.state
            Self.Reader.made_of Self.Writer.made_of foreknown may_come may_end self.old self.new) }
        ensures own { IfOk result (MayPing (originates self.old)) }
        ensures same { originates self.new ≡ originates self.old }
        ensures fault { IfErr result (λ fault. (links workers : ℕ) → link < links
            → IsArrivingFault has_peers links workers fault) };
}
