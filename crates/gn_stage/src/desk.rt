//! The desk of a stage whose ends are all made at once: they come home to it.

ghost use Rattle.std.specs.Prelude.{◌≡◌, ◌≤◌, ◌↔◌, [], IsTrue, IfErr, IfOk, vec_len};
ghost use Rattle.gn_stage.specs.Settled.{AreWhole, FaultComes, IsSettled};

use crate::home::{IntakeHome, OutletHome};
use crate::reception::Reception;
use crate::settle::{Settled, StageFault, are_all_home};
use crate::site::Site;
use std::alloc::{Allocator, Global};
use std::marker::Model;
use std::sync::Wait;

/// Holds what is left of a stage while its ends are out.
pub struct Desk<S: Site, A: Allocator = Global> {
    pub(crate) reception: Reception<S, A>,
}

impl<S: Site, A: Allocator> Drop for Desk<S, A> {
    fn drop(self) {
        let Desk { reception: _ } = self;
    }
}

/// The fault, and all that was handed in.
#[derive(Drop)]
pub struct Unsettled<S: Site, A: Allocator = Global> {
    pub fault: StageFault,
    pub desk: Desk<S, A>,
    pub intakes: Vec<IntakeHome<S, A>, A>,
    pub outlets: Vec<OutletHome<S, A>, A>,
}

impl<S: Site, A: Allocator> Model for Desk<S, A> {
    ghost use Rattle.std.specs.Prelude.{◌≡◌, []};
    ghost use Rattle.gn_stage.specs.Ends.{Layout};

    ghost Value = { Layout };

    ghost view = { λ d. d.reception.made };

    ghost invariant = { λ d. d.reception.came ≡ [] };
}

impl<S: Site, A: Allocator> Desk<S, A> {
    /// The desk of a stage whose ends are all made, and out.
    pub(crate) fn new(reception: Reception<S, A>) -> Self
        requires { reception.came ≡ [] }
        ensures { result ≡ reception.made }
    {
        Desk { reception }
    }
}

impl<S: Site, A: Allocator + Copy> Desk<S, A> {
    /// Takes the ends home, in any order, and drains the queue. A refusal hands all back, with nothing drained; an end that
    /// came late settles it then. It takes memory for as many jobs as the queue may hold.
    pub fn settle<R: Wait>(
        self,
        rt: &R,
        alloc: A,
        intakes: Vec<IntakeHome<S, A>, A>,
        outlets: Vec<OutletHome<S, A>, A>,
    ) -> Result<Settled<A>, Unsettled<S, A>>
        ensures settled { IfOk result (λ s. IsSettled intakes.items outlets.items s.put s.taken s.drained.items) }
        ensures whole { IfOk result (λ s. AreWhole self intakes.items outlets.items
            × (vec_len s.drained ≤ self.capacity)) }
        ensures back { IfErr result (λ u. (u.desk ≡ self) × (u.intakes ≡ intakes) × (u.outlets ≡ outlets)) }
        ensures fault { IfErr result (λ u. FaultComes u.fault self intakes.items outlets.items) }
    {
        if !self.are_whole(intakes.as_slice(), outlets.as_slice()) {
            return Err(Unsettled {
                fault: StageFault::Missing,
                desk: self,
                intakes,
                outlets,
            });
        }
        let Ok(drained) = Vec::with_capacity(alloc, self.reception.capacity) else {
            return Err(Unsettled {
                fault: StageFault::NoMemory,
                desk: self,
                intakes,
                outlets,
            });
        };
        let Desk { mut reception } = self;
        reception.take_all_home(intakes);
        Ok(reception.drain_into(rt, outlets, drained))
    }

    /// Whether every end of its stage is among these.
    fn are_whole(&self, intakes: &[IntakeHome<S, A>], outlets: &[OutletHome<S, A>]) -> bool
        ensures { IsTrue result ↔ AreWhole self.now intakes.now outlets.now }
    {
        are_all_home(intakes, self.reception.intakes)
            && are_all_home(outlets, self.reception.outlets)
    }
}
