//! How a stage is settled: its ends are home, the queue is drained, and every job is accounted for.

ghost use Rattle.std.specs.Prelude.{◌≡◌, ◌≤◌, ◌↔◌, [], Any, IsTrue, IfErr, IfOk, length, sum_by, vec_capacity, vec_len};
ghost use Rattle.crossbeam_channel.specs.Ends.{receives_on, sends_on};
ghost use Rattle.gn_stage.specs.Ends.{AreAllHome};
ghost use Rattle.gn_stage.specs.Opened.{IsLineOf, IsPassOf, knows};
ghost use Rattle.gn_stage.specs.Rule.{AreHome, of_desk, with_drained, with_outlets_home};
ghost use Rattle.gn_stage.specs.Lessons.{IsDraining};
ghost use Rattle.gn_stage.specs.Settled.{AreWhole, FaultComes, IsSettled, capped};

use crate::home::{Direction, Home, OutletHome};
use crate::job::Job;
use crate::reception::Reception;
use crate::rule::{Counting, Draining, Law, Outlets, View};
use crate::site::Site;
use crossbeam_channel::{Pass, RuledReceiver, RuledSender};
use std::alloc::{Allocator, Global};
use std::sync::Wait;

/// Why a stage could not be settled.
#[derive(Clone, Copy, Debug, Drop, PartialEq, Eq)]
pub enum StageFault {
    /// An intake or an outlet that was made isn't home.
    Missing,
    /// Memory for as many jobs as the queue may hold was refused.
    NoMemory,
}

/// What went through a stage: how many jobs were put and how many the outlets took, and the jobs that were left, in order.
#[derive(Drop)]
pub struct Settled<A: Allocator = Global> {
    pub put: u64,
    pub taken: u64,
    pub drained: Vec<Job<A>, A>,
}

/// The fault, and all that was handed in.
#[derive(Drop)]
pub struct Undrained<S: Site, A: Allocator = Global> {
    pub fault: StageFault,
    pub reception: Reception<S, A>,
    pub outlets: Vec<OutletHome<S, A>, A>,
}

/// Whether the end of this number is among them.
fn is_home<D: Direction, S: Site, A: Allocator>(homes: &[Home<D, S, A>], number: u32) -> bool
    ensures { IsTrue result ↔ Any (λ e. e.number ≡ number) homes.now }
{
    for home in homes {
        if home.number() == number {
            return true;
        }
    }
    false
}

/// Whether the ends 0 to `made - 1` are all among them.
pub(crate) fn are_all_home<D: Direction, S: Site, A: Allocator>(
    homes: &[Home<D, S, A>],
    made: u32,
) -> bool
    ensures { IsTrue result ↔ AreAllHome made homes.now }
{
    for number in 0..made {
        if !is_home(homes, number) {
            return false;
        }
    }
    true
}

/// How many jobs these have seen.
fn count_of<D: Direction, S: Site, A: Allocator>(homes: &[Home<D, S, A>]) -> u64
    ensures { result ≡ capped (sum_by (λ e. length e.jobs) homes.now) }
{
    let mut count = 0u64;
    for home in homes {
        count = count.saturating_add(home.count());
    }
    count
}

/// Takes what each outlet knows into the desk's own pass.
fn gather_outlets<S: Site, A: Allocator>(
    sender: &RuledSender<Job<A>, View, Law, A>,
    pass: &mut Pass<Job<A>, View>,
    homes: Vec<OutletHome<S, A>, A>,
)
    requires line { IsLineOf S.stage (sends_on sender.now) }
    requires here { IsPassOf S.stage pass.old × ((knows pass.old).role ≡ of_desk) }
    ensures here { IsPassOf S.stage pass.new }
    ensures known { knows pass.new ≡ with_outlets_home (knows pass.old) homes.items }
{
    for home in homes {
        sender.absorb::<Outlets<S>>(pass, home.into_pass());
    }
}

/// Takes what is left of the queue, in order. The vector has room for as many jobs as the queue.
fn drain_queue<S: Site, A: Allocator, R: Wait>(
    rt: &R,
    receiver: &RuledReceiver<Job<A>, View, Law, A>,
    pass: &mut Pass<Job<A>, View>,
    drained: &mut Vec<Job<A>, A>,
)
    requires line { IsLineOf S.stage (receives_on receiver.now) }
    requires here { IsPassOf S.stage pass.old }
    requires desk { ((knows pass.old).role ≡ of_desk) × ((knows pass.old).end.jobs ≡ []) }
    requires home { AreHome (knows pass.old).ins × AreHome (knows pass.old).outs }
    requires room { (drained.old.items ≡ []) × ((knows pass.old).room ≤ vec_capacity drained.old) }
    ensures drained { knows pass.new ≡ with_drained (knows pass.old) drained.new.items }
    ensures empty { IsDraining (knows pass.new) [] }
    ensures few { vec_len drained.new ≤ (knows pass.old).room }
{
    for _ in rt.forever() {
        match receiver.try_recv_as::<Draining, R>(rt, pass) {
            Ok(job) => drained.push_reserved(job),
            Err(_) => return,
        }
    }
    unreachable!()
}

impl<S: Site, A: Allocator + Copy> Reception<S, A> {
    /// Takes the outlets home, in any order, and drains the queue, where every intake is home. A refusal hands all back, with
    /// nothing drained; it is drained then once an intake that came late is home. It takes memory for as many jobs as the queue
    /// may hold.
    pub fn drain<R: Wait>(
        mut self,
        rt: &R,
        alloc: A,
        outlets: Vec<OutletHome<S, A>, A>,
    ) -> Result<Settled<A>, Undrained<S, A>>
        ensures settled { IfOk result (λ s. IsSettled self.came outlets.items s.put s.taken s.drained.items) }
        ensures whole { IfOk result (λ s. AreWhole self.made self.came outlets.items
            × (vec_len s.drained ≤ self.made.capacity)) }
        ensures back { IfErr result (λ u. (u.reception ≡ self) × (u.outlets ≡ outlets)) }
        ensures fault { IfErr result (λ u. FaultComes u.fault self.made self.came outlets.items) }
    {
        if !self.is_whole(outlets.as_slice()) {
            return Err(Undrained {
                fault: StageFault::Missing,
                reception: self,
                outlets,
            });
        }
        let Ok(drained) = Vec::with_capacity(alloc, self.capacity) else {
            return Err(Undrained {
                fault: StageFault::NoMemory,
                reception: self,
                outlets,
            });
        };
        Ok(self.drain_into(rt, outlets, drained))
    }

    /// Whether every end of its stage is home or among these.
    fn is_whole(&mut self, outlets: &[OutletHome<S, A>]) -> bool
        ensures same { self.new ≡ self.old }
        ensures whole { IsTrue result ↔ AreWhole self.old.made self.old.came outlets.now }
    {
        let made = self.outlets;
        self.are_intakes_home() && are_all_home(outlets, made)
    }

    /// Whether every intake that was made is home: no two have one number, so they are where as many are home as were made.
    fn are_intakes_home(&mut self) -> bool
        ensures same { self.new ≡ self.old }
        ensures home { IsTrue result ↔ AreAllHome self.old.made.intakes self.old.came }
    {
        self.sender.learn_as::<Counting>(&mut self.pass);
        self.home == u64::from(self.intakes)
    }

    /// Drains a stage whose ends are all there, into a vector that has room: so it can't fail.
    pub(crate) fn drain_into<R: Wait>(
        self,
        rt: &R,
        outlets: Vec<OutletHome<S, A>, A>,
        mut drained: Vec<Job<A>, A>,
    ) -> Settled<A>
        requires whole { AreWhole self.made self.came outlets.items }
        requires room { (drained.items ≡ []) × (self.made.capacity ≤ vec_capacity drained) }
        ensures settled { IsSettled self.came outlets.items result.put result.taken result.drained.items }
        ensures few { vec_len result.drained ≤ self.made.capacity }
    {
        let taken = count_of(outlets.as_slice());
        let Reception {
            sender,
            receiver,
            mut pass,
            put,
            ..
        } = self;
        gather_outlets::<S, A>(&sender, &mut pass, outlets);
        drain_queue::<S, A, R>(rt, &receiver, &mut pass, &mut drained);
        Settled {
            put,
            taken,
            drained,
        }
    }
}
