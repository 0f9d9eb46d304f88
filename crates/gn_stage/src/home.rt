//! What an end has seen: the part of it that goes home.

ghost use Rattle.std.specs.Prelude.{◌≡◌, MatchOption, MatchResult, length};
ghost use Rattle.crossbeam_channel.specs.Ends.{receives_on, sends_on};
ghost use Rattle.gn_stage.specs.Ends.{with_job};
ghost use Rattle.gn_stage.specs.Lessons.{WasEmpty};
ghost use Rattle.gn_stage.specs.Opened.{IsLineOf, IsPassOf, knows};
ghost use Rattle.gn_stage.specs.Rule.{new_pass};
ghost use Rattle.gn_stage.specs.Settled.{capped};

use crate::job::Job;
use crate::rule::{Law, Putting, Taking, View};
use crate::site::Site;
use crossbeam_channel::{Pass, RuledReceiver, RuledSender};
use std::alloc::{Allocator, Global};
use std::marker::{Model, PhantomData};
use std::sync::Wait;

/// Whether an end puts or takes.
pub trait Direction {
    ghost use Rattle.gn_stage.specs.Rule.{Role};

    ghost role: { Role };
}

impl Direction for Putting {
    ghost use Rattle.gn_stage.specs.Rule.{of_intake};

    ghost role = { of_intake };
}

impl Direction for Taking {
    ghost use Rattle.gn_stage.specs.Rule.{of_outlet};

    ghost role = { of_outlet };
}

/// What an end has seen. `count` is how many jobs, in a u64.
pub struct Home<D: Direction, S: Site, A: Allocator = Global> {
    number: u32,
    count: u64,
    pass: Pass<Job<A>, View>,
    of: PhantomData<(D, S)>,
}

impl<D: Direction, S: Site, A: Allocator> Drop for Home<D, S, A> {
    fn drop(self) {
        let Home {
            number: _,
            count: _,
            pass: _,
            of: _,
        } = self;
    }
}

/// What an intake put, in order.
pub type IntakeHome<S, A = Global> = Home<Putting, S, A>;

/// What an outlet took, in order.
pub type OutletHome<S, A = Global> = Home<Taking, S, A>;

impl<D: Direction, S: Site, A: Allocator> Model for Home<D, S, A> {
    ghost use Rattle.std.specs.Prelude.{◌≡◌, length};
    ghost use Rattle.gn_stage.specs.Ends.{End};
    ghost use Rattle.gn_stage.specs.Opened.{IsPassOf, knows};
    ghost use Rattle.gn_stage.specs.Settled.{capped};
    ghost use Rattle.gn_stage.specs.Jobs.{Queued};

    ghost Value = { End Queued };

    ghost view = { λ h. (knows h.pass).end };

    ghost invariant = { λ h. IsPassOf S.stage h.pass
        × ((knows h.pass).role ≡ D.role)
        × ((knows h.pass).room ≡ S.stage.capacity)
        × (h.number ≡ (knows h.pass).end.number)
        × (h.count ≡ capped (length (knows h.pass).end.jobs)) };
}

impl<D: Direction, S: Site, A: Allocator> Home<D, S, A> {
    /// An end that has seen nothing.
    pub(crate) fn new(number: u32, pass: Pass<Job<A>, View>) -> Self
        requires here { IsPassOf S.stage pass }
        requires new { knows pass ≡ new_pass D.role S.stage.capacity number }
        ensures { result ≡ (knows pass).end }
    {
        Home {
            number,
            count: 0,
            pass,
            of: PhantomData,
        }
    }

    /// Its place among the ends of its kind, from 0 on.
    pub(crate) fn number(&self) -> u32
        ensures { result ≡ self.now.number }
    {
        self.number
    }

    /// How many jobs it has seen.
    pub(crate) fn count(&self) -> u64
        ensures { result ≡ capped (length self.now.jobs) }
    {
        self.count
    }

    /// What it knows of the queue, for the desk that takes it home.
    pub(crate) fn into_pass(self) -> Pass<Job<A>, View>
        ensures here { IsPassOf S.stage result }
        ensures end { (knows result).end ≡ self }
        ensures role { (knows result).role ≡ D.role }
    {
        let Home {
            number: _,
            count: _,
            pass,
            of: _,
        } = self;
        pass
    }
}

impl<S: Site, A: Allocator> IntakeHome<S, A> {
    /// Puts a job at the back of the queue, which has room for it.
    pub(crate) fn put<R: Wait>(
        &mut self,
        rt: &R,
        sender: &RuledSender<Job<A>, View, Law, A>,
        job: Job<A>,
    ) -> Result<(), Job<A>>
        requires { IsLineOf S.stage (sends_on sender.now) }
        ensures { MatchResult result
            (λ _. self.new ≡ with_job self.old job)
            (λ back. (back ≡ job) × (self.new ≡ self.old)) }
    {
        match sender.send_as::<Putting, R>(rt, &mut self.pass, job) {
            Ok(()) => {
                self.count = self.count.saturating_add(1);
                Ok(())
            }
            Err(refused) => Err(refused.into_inner()),
        }
    }
}

impl<S: Site, A: Allocator> OutletHome<S, A> {
    /// Takes the job at the head of the queue. `None` comes where there was none.
    pub(crate) fn take<R: Wait>(
        &mut self,
        rt: &R,
        receiver: &RuledReceiver<Job<A>, View, Law, A>,
    ) -> Option<Job<A>>
        requires { IsLineOf S.stage (receives_on receiver.now) }
        ensures { MatchOption result
            ((self.new ≡ self.old) × WasEmpty self.old)
            (λ job. self.new ≡ with_job self.old job) }
    {
        match receiver.try_recv_as::<Taking, R>(rt, &mut self.pass) {
            Ok(job) => {
                self.count = self.count.saturating_add(1);
                Some(job)
            }
            Err(_) => None,
        }
    }
}
