//! The rule that the queue's channel is under, and the kinds of step that there are: a put, a take, a refused put, an empty
//! take, a pass made, a pass split and a pass joined.

use crate::job::Job;
use crate::site::Site;
use crossbeam_channel::protocol::{Join, Lesson, Outcome, Protocol, Split};
use std::alloc::Allocator;
use std::marker::{Model, PhantomData};

/// What a pass knows. No value of it is made.
pub struct View;

impl Model for View {
    ghost use Rattle.gn_stage.specs.Rule.{Known, spent};
    ghost use Rattle.gn_stage.specs.Jobs.{Queued};

    ghost Value = { Known Queued };

    ghost view = { λ _. spent };
}

/// The rule that the channel keeps.
pub struct Law;

impl<A: Allocator> Protocol<Job<A>, View> for Law {
    ghost use Rattle.gn_stage.specs.Rule.{Invariant, new_desk};

    ghost holds = { Invariant };

    ghost first = { new_desk };
}

/// An intake puts a job. At a full queue it learns nothing.
pub struct Putting;

impl<A: Allocator> Outcome<Job<A>, View> for Putting {
    ghost use Rattle.std.specs.Prelude.{◌≡◌};
    ghost use Rattle.gn_stage.specs.Rule.{with_item};

    ghost then = { λ v x w. w ≡ with_item v x };
}

impl<A: Allocator> Lesson<Job<A>, View> for Putting {
    ghost use Rattle.std.specs.Prelude.{⊤};

    ghost fact = { λ v items. ⊤ };
}

/// An outlet takes a job, or learns that none is queued.
pub struct Taking;

impl<A: Allocator> Outcome<Job<A>, View> for Taking {
    ghost use Rattle.std.specs.Prelude.{◌≡◌};
    ghost use Rattle.gn_stage.specs.Rule.{with_item};

    ghost then = { λ v x w. w ≡ with_item v x };
}

impl<A: Allocator> Lesson<Job<A>, View> for Taking {
    ghost use Rattle.gn_stage.specs.Lessons.{IsRunning};

    ghost fact = { λ v items. IsRunning v.end items };
}

/// The desk counts who is home.
pub struct Counting;

impl<A: Allocator> Lesson<Job<A>, View> for Counting {
    ghost use Rattle.gn_stage.specs.Lessons.{AreCounted};

    ghost fact = { λ v items. AreCounted v };
}

/// The desk, with all ends home, takes what is left.
pub struct Draining;

impl<A: Allocator> Outcome<Job<A>, View> for Draining {
    ghost use Rattle.gn_stage.specs.Lessons.{Drained};

    ghost then = { Drained };
}

impl<A: Allocator> Lesson<Job<A>, View> for Draining {
    ghost use Rattle.gn_stage.specs.Lessons.{IsDraining};

    ghost fact = { IsDraining };
}

/// An intake is made of the desk's pass, and comes home to it.
pub struct Intakes<S> {
    of: PhantomData<S>,
}

impl<S: Site> Split<View> for Intakes<S> {
    ghost use Rattle.gn_stage.specs.Rule.{with_intake, new_intake};

    ghost left = { with_intake S.stage.capacity };

    ghost right = { λ v. new_intake S.stage.capacity v.ins.made };
}

impl<S: Site> Join<View> for Intakes<S> {
    ghost use Rattle.gn_stage.specs.Rule.{with_intake_home, spent};

    ghost both = { λ v w. with_intake_home v w.end };

    ghost spent = { spent };
}

/// An outlet is made of the desk's pass, and comes home to it.
pub struct Outlets<S> {
    of: PhantomData<S>,
}

impl<S: Site> Split<View> for Outlets<S> {
    ghost use Rattle.gn_stage.specs.Rule.{with_outlet, new_outlet};

    ghost left = { with_outlet };

    ghost right = { λ v. new_outlet S.stage.capacity v.outs.made };
}

impl<S: Site> Join<View> for Outlets<S> {
    ghost use Rattle.gn_stage.specs.Rule.{with_outlet_home, spent};

    ghost both = { λ v w. with_outlet_home v w.end };

    ghost spent = { spent };
}
