//! How a stage is made.

ghost use Rattle.std.specs.Prelude.{◌≡◌, ◌<◌, ◌≤◌, IfOk};
ghost use Rattle.gn_stage.specs.Ends.{AreNew};
ghost use Rattle.gn_stage.specs.Reception.{new_reception};

use crate::desk::Desk;
use crate::intake::Intake;
use crate::job::Job;
use crate::outlet::Outlet;
use crate::reception::{PutTokens, Reception, TakeTokens};
use crate::rule::{Law, View};
use crate::site::Site;
use crossbeam_channel::{Pass, RuledReceiver, RuledSender, bounded, bounded_with};
use std::alloc::{AllocError, Allocator, Global};
use std::marker::Model;

/// A stage that was opened and has no ends yet.
pub struct Stage<A: Allocator = Global> {
    sender: RuledSender<Job<A>, View, Law, A>,
    receiver: RuledReceiver<Job<A>, View, Law, A>,
    pass: Pass<Job<A>, View>,
    put: PutTokens<A>,
    take: TakeTokens<A>,
    capacity: usize,
}

impl<A: Allocator> Drop for Stage<A> {
    fn drop(self) {
        let Stage {
            sender: _,
            receiver: _,
            pass: _,
            put: _,
            take: _,
            capacity: _,
        } = self;
    }
}

impl<A: Allocator> Model for Stage<A> {
    ghost use Rattle.std.specs.Prelude.{◌≡◌, []};
    ghost use Rattle.crossbeam_channel.specs.Ends.{receives_on, sends_on};
    ghost use Rattle.gn_stage.specs.Opened.{Opened, IsLineOf, knows};
    ghost use Rattle.gn_stage.specs.Rule.{new_desk};
    ghost use Rattle.gn_stage.specs.Jobs.{Queued};

    ghost Value = { Opened Queued };

    ghost view = { λ s. record { table = s.pass.table_id; key = s.pass.me.0.of; capacity = s.capacity } };

    ghost invariant = { λ s. IsLineOf (record {
      table = s.pass.table_id;
      key = s.pass.me.0.of;
      capacity = s.capacity;
    }) (sends_on s.sender)
        × (receives_on s.receiver ≡ sends_on s.sender)
        × (s.pass.me.1 ≡ [])
        × (knows s.pass ≡ new_desk) };
}

impl<A: Allocator + Copy> Stage<A> {
    /// A stage whose queue has room for so many jobs, 1 to 4,096.
    pub fn new(alloc: A, capacity: usize) -> Result<Self, AllocError>
        requires { (0 < capacity) × (capacity ≤ 4096) }
        ensures { IfOk result (λ s. s.capacity ≡ capacity) }
    {
        let (sender, receiver, pass) = bounded_with::<Job<A>, View, Law, A>(alloc, capacity)?;
        let (put_room, take_room) = bounded(alloc, capacity)?;
        let (put_ready, take_ready) = bounded(alloc, capacity)?;
        Ok(Stage {
            sender,
            receiver,
            pass,
            put: PutTokens {
                room: put_room,
                ready: put_ready,
            },
            take: TakeTokens {
                room: take_room,
                ready: take_ready,
            },
            capacity,
        })
    }

    /// The outlets of the stage, as many as asked, maybe none, and the reception that makes its intakes.
    pub fn open<S: Site>(
        self,
        alloc: A,
        outlets: u32,
    ) -> Result<(Vec<Outlet<S, A>, A>, Reception<S, A>), AllocError>
        requires { self ≡ S.stage }
        ensures { IfOk result (λ r. AreNew outlets r.0.items × (r.1 ≡ new_reception outlets self.capacity)) }
    {
        let Stage {
            sender,
            receiver,
            pass,
            put,
            take,
            capacity,
        } = self;
        let mut reception = Reception::new(sender, receiver, pass, put, capacity);
        let outs = reception.make_outlets(alloc, outlets, &take)?;
        Ok((outs, reception))
    }

    /// The ends of the stage, as many as asked, maybe none.
    pub fn ends<S: Site>(
        self,
        alloc: A,
        intakes: u32,
        outlets: u32,
    ) -> Result<(Vec<Intake<S, A>, A>, Vec<Outlet<S, A>, A>, Desk<S, A>), AllocError>
        requires { self ≡ S.stage }
        ensures ends { IfOk result (λ r. AreNew intakes r.0.items × AreNew outlets r.1.items) }
        ensures desk { IfOk result (λ r.
            r.2 ≡ record { intakes = intakes; outlets = outlets; capacity = self.capacity }) }
    {
        let (outs, mut reception) = self.open::<S>(alloc, outlets)?;
        let ins = reception.make_intakes(alloc, intakes)?;
        reception.shut();
        Ok((ins, outs, Desk::new(reception)))
    }
}
