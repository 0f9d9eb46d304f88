//! What becomes of the steps of a router.

ghost use Rattle.std.specs.Prelude.{◌≡◌, ◌<◌, ◌∷◌, ◌++◌, ◌^◌, [], Bool, List, false, length, true, IsTrue, OnOk};
ghost use Rattle.gn_rules.specs.declared.receipt.Step.{Step};

use gn_rules::{Event, Reply};
use std::alloc::{AllocError, Allocator};

/// What the steps of a router are given to, one after another. It may keep them, write them, or only count them.
pub trait Keeper<A: Allocator> {
    /// The steps that it was given, in order.
    ghost kept: { Self → List (Step A) };

    /// It can take one more step.
    ghost has_room: { Self → Type 0 };

    /// It leaves the reply of a step that it takes in its place.
    ghost leaves_reply: { Bool } = { false };

    /// Whether it leaves the reply of a step that it takes in its place, so that the packets can be moved out of it.
    fn leaves_reply(&self) -> bool
        ensures { IsTrue result → leaves_reply ≡ true }
    {
        false
    }

    /// Makes room for one more step. An `Err` is out of memory.
    fn make_room(&mut self) -> Result<(), AllocError>
        ensures room { OnOk result (has_room self.new) }
        ensures kept { kept self.new ≡ kept self.old };

    /// Takes the step of this event and this reply out of their places, and leaves others there, or the reply itself.
    fn keep(&mut self, actor: u32, event: &mut Event<A>, reply: &mut Reply<A>)
        requires { has_room self.old }
        ensures step { kept self.new
            ≡ kept self.old ++ record { actor = actor; event = event.old; reply = reply.old } ∷ [] }
        ensures left { leaves_reply ≡ true → reply.new ≡ reply.old };

    /// How many steps it was given.
    fn count(&self) -> u32
        requires { length (kept self.now) < 2 ^ 32 }
        ensures { result ≡ length (kept self.now) };
}
