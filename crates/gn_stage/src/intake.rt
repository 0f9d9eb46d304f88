//! The half of an end that puts.

ghost use Rattle.std.specs.Prelude.{◌≡◌, MatchResult};
ghost use Rattle.crossbeam_channel.specs.Ends.{sends_on};
ghost use Rattle.gn_stage.specs.Ends.{with_job};
ghost use Rattle.gn_stage.specs.Opened.{IsLineOf};

use crate::home::IntakeHome;
use crate::job::Job;
use crate::rule::{Law, View};
use crate::site::Site;
use crossbeam_channel::{RuledSender, Sender};
use std::alloc::{Allocator, Global};
use std::marker::Model;
use std::sync::Wait;

/// Puts jobs into the queue of a stage. Once every intake has finished, or was dropped, the outlets end.
pub struct Intake<S: Site, A: Allocator = Global> {
    sender: RuledSender<Job<A>, View, Law, A>,
    /// A token for each job that is queued or about to be: it waits while there are as many as the queue has room for.
    room: Sender<(), A>,
    /// A token for each job that is there to be taken.
    ready: Sender<(), A>,
    home: IntakeHome<S, A>,
}

impl<S: Site, A: Allocator> Drop for Intake<S, A> {
    fn drop(self) {
        let Intake {
            sender: _,
            room: _,
            ready: _,
            home: _,
        } = self;
    }
}

impl<S: Site, A: Allocator> Model for Intake<S, A> {
    ghost use Rattle.crossbeam_channel.specs.Ends.{sends_on};
    ghost use Rattle.gn_stage.specs.Ends.{End};
    ghost use Rattle.gn_stage.specs.Opened.{IsLineOf};
    ghost use Rattle.gn_stage.specs.Jobs.{Queued};

    ghost Value = { End Queued };

    ghost view = { λ i. i.home };

    ghost invariant = { λ i. IsLineOf S.stage (sends_on i.sender) };
}

impl<S: Site, A: Allocator> Intake<S, A> {
    /// An intake that has put nothing.
    pub(crate) fn new(
        sender: RuledSender<Job<A>, View, Law, A>,
        room: Sender<(), A>,
        ready: Sender<(), A>,
        home: IntakeHome<S, A>,
    ) -> Self
        requires { IsLineOf S.stage (sends_on sender) }
        ensures { result ≡ home }
    {
        Intake {
            sender,
            room,
            ready,
            home,
        }
    }

    /// Waits for room, and queues the job after all that are there. Once every outlet has finished it hands the job back,
    /// also where it waits already.
    pub fn put<R: Wait>(&mut self, rt: &R, job: Job<A>) -> Result<(), Job<A>>
        ensures { MatchResult result
            (λ _. self.new ≡ with_job self.old job)
            (λ back. (back ≡ job) × (self.new ≡ self.old)) }
    {
        if self.room.send(rt, ()).is_err() {
            return Err(job);
        }
        self.home.put(rt, &self.sender, job)?;
        // An error says that the outlets are gone: the job stays for the desk.
        let _ = self.ready.send(rt, ());
        Ok(())
    }

    /// Gives up its half of the queue, and keeps what it put.
    pub fn finish(self) -> IntakeHome<S, A>
        ensures { result ≡ self }
    {
        let Intake {
            sender: _,
            room: _,
            ready: _,
            home,
        } = self;
        home
    }
}
