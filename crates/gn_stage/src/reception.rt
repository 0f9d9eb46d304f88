//! Where intakes are made as they are wanted, and come home as they finish.

ghost use Rattle.std.specs.Prelude.{◌≡◌, ◌+◌, ◌-◌, ◌^◌, ◌<◌, ◌++◌, true, false, IfOk, MatchResult};
ghost use Rattle.crossbeam_channel.specs.Ends.{receives_on, sends_on};
ghost use Rattle.gn_stage.specs.Ends.{AreNew, new_end};
ghost use Rattle.gn_stage.specs.Opened.{IsLineOf, IsPassOf, knows};
ghost use Rattle.gn_stage.specs.Reception.{after_home, after_intake, new_reception};
ghost use Rattle.gn_stage.specs.Rule.{new_desk};

use crate::home::{Home, IntakeHome};
use crate::intake::Intake;
use crate::job::Job;
use crate::outlet::Outlet;
use crate::rule::{Intakes, Law, Outlets, View};
use crate::site::Site;
use crossbeam_channel::{Pass, Receiver, RuledReceiver, RuledSender, Sender};
use std::alloc::{AllocError, Allocator, Global};
use std::marker::{Model, PhantomData};

/// The tokens' halves that each new intake gets a copy of.
pub(crate) struct PutTokens<A: Allocator> {
    pub(crate) room: Sender<(), A>,
    pub(crate) ready: Sender<(), A>,
}

impl<A: Allocator> Drop for PutTokens<A> {
    fn drop(self) {
        let PutTokens { room: _, ready: _ } = self;
    }
}

/// The tokens' halves that each new outlet gets a copy of.
pub(crate) struct TakeTokens<A: Allocator> {
    pub(crate) room: Receiver<(), A>,
    pub(crate) ready: Receiver<(), A>,
}

impl<A: Allocator> Drop for TakeTokens<A> {
    fn drop(self) {
        let TakeTokens { room: _, ready: _ } = self;
    }
}

/// Makes the intakes of a stage as they are wanted, and takes them home as they finish. Of those that are home it keeps how
/// many they are and how many jobs they put.
#[derive(Drop)]
pub struct Reception<S: Site, A: Allocator = Global> {
    pub(crate) sender: RuledSender<Job<A>, View, Law, A>,
    pub(crate) receiver: RuledReceiver<Job<A>, View, Law, A>,
    pub(crate) pass: Pass<Job<A>, View>,
    /// There while it is open: the outlets wait for jobs as long as somebody has a half that puts.
    tokens: Option<PutTokens<A>>,
    pub(crate) intakes: u32,
    pub(crate) outlets: u32,
    pub(crate) capacity: usize,
    pub(crate) home: u64,
    pub(crate) put: u64,
    of: PhantomData<S>,
}

impl<S: Site, A: Allocator> Model for Reception<S, A> {
    ghost use Rattle.std.specs.Prelude.{◌≡◌, is_some, length, sum_by};
    ghost use Rattle.crossbeam_channel.specs.Ends.{receives_on, sends_on};
    ghost use Rattle.gn_stage.specs.Jobs.{Queued};
    ghost use Rattle.gn_stage.specs.Opened.{IsLineOf, IsPassOf, knows};
    ghost use Rattle.gn_stage.specs.Reception.{ReceptionState};
    ghost use Rattle.gn_stage.specs.Rule.{IsDeskOf};
    ghost use Rattle.gn_stage.specs.Settled.{capped};

    ghost Value = { ReceptionState Queued };

    ghost view = { λ r. record {
      made = record { intakes = r.intakes; outlets = r.outlets; capacity = r.capacity };
      is_open = is_some r.tokens;
      came = (knows r.pass).ins.home;
    } };

    ghost invariant = { λ r. IsLineOf S.stage (sends_on r.sender)
        × IsLineOf S.stage (receives_on r.receiver)
        × IsPassOf S.stage r.pass
        × (r.capacity ≡ S.stage.capacity)
        × IsDeskOf r.intakes r.outlets r.capacity (knows r.pass).ins.home (knows r.pass)
        × (r.home ≡ capped (length (knows r.pass).ins.home))
        × (r.put ≡ capped (sum_by (λ e. length e.jobs) (knows r.pass).ins.home)) };
}

impl<S: Site, A: Allocator + Copy> Reception<S, A> {
    /// The reception of a new stage, which has no ends.
    pub(crate) fn new(
        sender: RuledSender<Job<A>, View, Law, A>,
        receiver: RuledReceiver<Job<A>, View, Law, A>,
        pass: Pass<Job<A>, View>,
        tokens: PutTokens<A>,
        capacity: usize,
    ) -> Self
        requires line { IsLineOf S.stage (sends_on sender) × IsLineOf S.stage (receives_on receiver) }
        requires here { IsPassOf S.stage pass × (knows pass ≡ new_desk) }
        requires capacity { capacity ≡ S.stage.capacity }
        ensures { result ≡ new_reception 0 capacity }
    {
        Reception {
            sender,
            receiver,
            pass,
            tokens: Some(tokens),
            intakes: 0,
            outlets: 0,
            capacity,
            home: 0,
            put: 0,
            of: PhantomData,
        }
    }

    /// One more outlet, under the next number.
    fn make_outlet(&mut self, tokens: &TakeTokens<A>) -> Result<Outlet<S, A>, AllocError>
        requires { self.old.made.outlets < 2 ^ 32 - 1 }
        ensures { IfOk result (λ o. (o ≡ new_end self.old.made.outlets)
            × (self.new ≡ record self.old { made = record self.old.made { outlets = self.old.made.outlets + 1 } })) }
    {
        let receiver = self.receiver.try_clone()?;
        let room = tokens.room.clone()?;
        let ready = tokens.ready.clone()?;
        let pass = self.sender.another::<Outlets<S>>(&mut self.pass);
        let home = Home::new(self.outlets, pass);
        self.outlets += 1;
        Ok(Outlet::new(receiver, room, ready, home))
    }

    /// The outlets 0 to `count - 1`, in order. Where memory is refused some may have been made: the stage is lost then.
    pub(crate) fn make_outlets(
        &mut self,
        alloc: A,
        count: u32,
        tokens: &TakeTokens<A>,
    ) -> Result<Vec<Outlet<S, A>, A>, AllocError>
        requires { self.old.made.outlets ≡ 0 }
        ensures { IfOk result (λ v. AreNew count v.items
            × (self.new ≡ record self.old { made = record self.old.made { outlets = count } })) }
    {
        let mut outlets = Vec::new(alloc);
        for _ in 0..count {
            outlets.push(self.make_outlet(tokens)?)?;
        }
        Ok(outlets)
    }

    /// One more intake, under the next number. The reception knows of it until it comes home.
    pub fn intake(&mut self) -> Result<Intake<S, A>, AllocError>
        requires open { self.old.is_open ≡ true }
        requires few { self.old.made.intakes < 2 ^ 32 - 1 }
        ensures { MatchResult result
            (λ i. (i ≡ new_end self.old.made.intakes) × (self.new ≡ after_intake self.old))
            (λ _. self.new ≡ self.old) }
    {
        let Some(tokens) = &self.tokens else {
            unreachable!()
        };
        let sender = self.sender.try_clone()?;
        let room = tokens.room.clone()?;
        let ready = tokens.ready.clone()?;
        let pass = sender.another::<Intakes<S>>(&mut self.pass);
        let home = Home::new(self.intakes, pass);
        self.intakes += 1;
        Ok(Intake::new(sender, room, ready, home))
    }

    /// The intakes 0 to `count - 1`, in order, as `make_outlets` makes the outlets.
    pub(crate) fn make_intakes(
        &mut self,
        alloc: A,
        count: u32,
    ) -> Result<Vec<Intake<S, A>, A>, AllocError>
        requires { (self.old.made.intakes ≡ 0) × (self.old.is_open ≡ true) }
        ensures { IfOk result (λ v. AreNew count v.items
            × (self.new ≡ record self.old { made = record self.old.made { intakes = count } })) }
    {
        let mut intakes = Vec::new(alloc);
        for _ in 0..count {
            intakes.push(self.intake()?)?;
        }
        Ok(intakes)
    }

    /// Makes no more intakes: the outlets end once all that were made have finished.
    pub fn shut(&mut self)
        ensures { self.new ≡ record self.old { is_open = false } }
    {
        self.tokens = None;
    }

    /// Takes home an intake that has finished.
    pub fn take_home(&mut self, home: IntakeHome<S, A>)
        ensures { self.new ≡ after_home self.old home }
    {
        self.home = self.home.saturating_add(1);
        self.put = self.put.saturating_add(home.count());
        let pass = home.into_pass();
        self.sender.absorb::<Intakes<S>>(&mut self.pass, pass);
    }

    /// Takes home intakes that have finished, in order.
    pub(crate) fn take_all_home(&mut self, homes: Vec<IntakeHome<S, A>, A>)
        ensures { self.new ≡ record self.old { came = self.old.came ++ homes.items } }
    {
        for home in homes {
            self.take_home(home);
        }
    }
}
