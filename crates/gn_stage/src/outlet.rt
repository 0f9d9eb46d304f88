//! The half of an end that takes.

ghost use Rattle.std.specs.Prelude.{◌≡◌, MatchOption};
ghost use Rattle.crossbeam_channel.specs.Ends.{receives_on};
ghost use Rattle.gn_stage.specs.Ends.{with_job};
ghost use Rattle.gn_stage.specs.Lessons.{WasEmpty};
ghost use Rattle.gn_stage.specs.Opened.{IsLineOf};

use crate::home::OutletHome;
use crate::job::Job;
use crate::rule::{Law, View};
use crate::site::Site;
use crossbeam_channel::{Receiver, RuledReceiver};
use std::alloc::{Allocator, Global};
use std::marker::Model;
use std::sync::Wait;

/// Takes jobs out of the queue of a stage. Once every outlet has finished, or was dropped, each put hands its job back.
pub struct Outlet<S: Site, A: Allocator = Global> {
    receiver: RuledReceiver<Job<A>, View, Law, A>,
    /// The other end of an intake's `room`.
    room: Receiver<(), A>,
    /// The other end of an intake's `ready`.
    ready: Receiver<(), A>,
    home: OutletHome<S, A>,
}

impl<S: Site, A: Allocator> Drop for Outlet<S, A> {
    fn drop(self) {
        let Outlet {
            receiver: _,
            room: _,
            ready: _,
            home: _,
        } = self;
    }
}

impl<S: Site, A: Allocator> Model for Outlet<S, A> {
    ghost use Rattle.crossbeam_channel.specs.Ends.{receives_on};
    ghost use Rattle.gn_stage.specs.Ends.{End};
    ghost use Rattle.gn_stage.specs.Opened.{IsLineOf};
    ghost use Rattle.gn_stage.specs.Jobs.{Queued};

    ghost Value = { End Queued };

    ghost view = { λ o. o.home };

    ghost invariant = { λ o. IsLineOf S.stage (receives_on o.receiver) };
}

impl<S: Site, A: Allocator> Outlet<S, A> {
    /// An outlet that has taken nothing.
    pub(crate) fn new(
        receiver: RuledReceiver<Job<A>, View, Law, A>,
        room: Receiver<(), A>,
        ready: Receiver<(), A>,
        home: OutletHome<S, A>,
    ) -> Self
        requires { IsLineOf S.stage (receives_on receiver) }
        ensures { result ≡ home }
    {
        Outlet {
            receiver,
            room,
            ready,
            home,
        }
    }

    /// Waits for a job, and takes the one that was queued first. `None` comes once every intake has finished and the queue
    /// is empty; its clause says that at one moment a queue was empty, and not which: it holds of every outlet.
    pub fn take<R: Wait>(&mut self, rt: &R) -> Option<Job<A>>
        ensures { MatchOption result
            ((self.new ≡ self.old) × WasEmpty self.old)
            (λ job. self.new ≡ with_job self.old job) }
    {
        for _ in rt.forever() {
            let is_closed = self.ready.recv(rt).is_err();
            match self.take_one(rt) {
                Some(job) => return Some(job),
                None if is_closed => return None,
                None => {}
            }
        }
        unreachable!()
    }

    /// Takes the job that was queued first, where it is there already. `None` says nothing: beside another thread inside a call of the
    /// stage it may come though a job waits.
    pub fn try_take<R: Wait>(&mut self, rt: &R) -> Option<Job<A>>
        ensures { MatchOption result (self.new ≡ self.old) (λ job. self.new ≡ with_job self.old job) }
    {
        self.ready.try_recv(rt).ok()?;
        self.take_one(rt)
    }

    /// Takes the job at the head. `None` also comes to an outlet whose job another took: one that found the stage closed
    /// takes what it can, whoever has the token.
    fn take_one<R: Wait>(&mut self, rt: &R) -> Option<Job<A>>
        ensures { MatchOption result
            ((self.new ≡ self.old) × WasEmpty self.old)
            (λ job. self.new ≡ with_job self.old job) }
    {
        let job = self.home.take(rt, &self.receiver)?;
        // The token of this job, or of another that is gone.
        let _ = self.room.recv(rt);
        Some(job)
    }

    /// Gives up its half of the queue, and keeps what it took.
    pub fn finish(self) -> OutletHome<S, A>
        ensures { result ≡ self }
    {
        let Outlet {
            receiver: _,
            room: _,
            ready: _,
            home,
        } = self;
        home
    }
}
