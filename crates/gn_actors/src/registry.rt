//! The actors of a run: those that are out, and the receipts of those that came home.

ghost use Rattle.std.specs.Prelude.{◌≡◌, ◌+◌, ◌<◌, ◌≤◌, ◌^◌, ◌++◌, [], length, replicate, slice_set};
ghost use mathlib.Core.List.{IsPrefix};
ghost use Rattle.gn_actors.specs.ActorState.{new_actor};
ghost use Rattle.gn_actors.specs.Annals.{Fits};
ghost use Rattle.gn_actors.specs.Registry.{AreWhole, IsOut, registry_state, with_home, with_one_out};

use crate::actor::Actor;
use crate::annals::Annals;
use crate::growing::{Beginning, Named};
use gn_laws::fitting_are_mine;
use gn_rules::{Receipt, RouterCore, Step};
use gn_trail::{Lists, Trail};
use std::alloc::{Allocator, Global};
use std::collections::LinkedList;
use std::marker::Model;
use std::snapshot::Snapshot;
use std::sync::ledger::{Ledger, Share};

/// The actors of a run: how many are out, and by number the receipts of those that came home, which proofs alone read.
#[derive(Drop)]
pub struct Registry<L: Ledger + Named, A: Allocator = Global> {
    out: u32,
    many: u32,
    lists: Trail<LinkedList<Receipt<A>>>,
    seen: Beginning<Step<A>, L>,
    share: Share<L>,
}

impl<L: Ledger + Named, A: Allocator> Model for Registry<L, A> {
    ghost use Rattle.gn_actors.specs.Registry.{IsRegistry, RegistryState, registry_state};

    ghost Value = { RegistryState A };

    ghost view = { λ r. registry_state r.lists.items r.out r.seen.items };

    ghost invariant = { λ r. IsRegistry L.parts r.share.parts r.share.amount r.out r.many r.lists.items r.seen.items };
}

/// Lists by number, and the list that is to stand at a number.
#[derive(Drop)]
struct Homing<A: Allocator> {
    lists: Snapshot<Trail<LinkedList<Receipt<A>>>>,
    number: u32,
    receipts: Snapshot<Trail<Receipt<A>>>,
}

/// The lists with that one at its number.
struct AtHome;

impl<A: Allocator> Lists<Homing<A>, LinkedList<Receipt<A>>> for AtHome {
    ghost use Rattle.std.specs.Prelude.{slice_set};

    ghost list = { λ h. slice_set h.lists.value.items h.number h.receipts.value.items };
}

/// Lists by number, and how many numbers more there are to be.
#[derive(Drop)]
struct Growth<A: Allocator> {
    lists: Snapshot<Trail<LinkedList<Receipt<A>>>>,
    by: u32,
}

/// The lists, and as many empty ones.
struct AsGrown;

impl<A: Allocator> Lists<Growth<A>, LinkedList<Receipt<A>>> for AsGrown {
    ghost use Rattle.std.specs.Prelude.{◌++◌, [], replicate};

    ghost list = { λ g. g.lists.value.items ++ replicate g.by [] };
}

/// These lists, with that of these receipts at a number, where they have it.
fn homed<A: Allocator>(
    lists: &Trail<LinkedList<Receipt<A>>>,
    number: u32,
    receipts: &Trail<Receipt<A>>,
) -> Trail<LinkedList<Receipt<A>>>
    ensures { result.items ≡ slice_set lists.now.items number receipts.now.items }
{
    let homing = Homing {
        lists: Snapshot::of(lists),
        number,
        receipts: Snapshot::of(receipts),
    };
    Trail::of::<Homing<A>, AtHome>(&homing)
}

/// These lists, and so many empty ones.
fn grown<A: Allocator>(
    lists: &Trail<LinkedList<Receipt<A>>>,
    by: u32,
) -> Trail<LinkedList<Receipt<A>>>
    ensures { result.items ≡ lists.now.items ++ replicate by [] }
{
    let growth = Growth {
        lists: Snapshot::of(lists),
        by,
    };
    Trail::of::<Growth<A>, AsGrown>(&growth)
}

impl<L: Ledger + Named, A: Allocator> Registry<L, A> {
    /// Of a run that begins, with all parts of the ledger and the beginning of the history, which is empty.
    pub fn of(all: Share<L>, seen: Beginning<Step<A>, L>) -> Self
        requires share { (all.parts ≡ L.parts) × (2 ^ 33 ≤ L.parts) × (all.amount ≡ 0) }
        requires seen { seen.items ≡ [] }
        ensures { result ≡ registry_state [] 0 [] }
    {
        Registry {
            out: 0,
            many: 0,
            lists: Trail::new(),
            seen,
            share: all,
        }
    }

    /// So many numbers more.
    pub fn grow(&mut self, by: u32)
        requires { length self.old.lists + by < 2 ^ 32 }
        ensures { self.new ≡ record self.old { lists = self.old.lists ++ replicate by [] } }
    {
        let Registry { many, lists, .. } = self;
        *lists = grown(lists, by);
        *many += by;
    }

    /// The actor of this number goes out. It has no receipts.
    pub fn send(&mut self, number: u32) -> Actor<L, A>
        requires out { IsOut self.old number }
        requires room { self.old.out + 1 < 2 ^ 32 }
        ensures actor { result ≡ new_actor number }
        ensures registry { self.new ≡ with_one_out self.old }
    {
        let Registry {
            out,
            seen,
            share,
            ..
        } = self;
        let own = share.split_off(1, 0);
        *out += 1;
        Actor::new(number, seen.again(), own)
    }

    /// How many actors are out.
    pub fn out(&self) -> u32
        ensures { result ≡ self.now.out }
    {
        self.out
    }

    /// How many numbers there are.
    pub fn many(&self) -> u32
        ensures { result ≡ length self.now.lists }
    {
        self.many
    }
}

impl<L: Ledger + Named, A: Allocator + Copy> Annals<L, A> {
    /// An actor comes home. Its receipts.
    pub fn welcome<C: RouterCore<A>>(
        &mut self,
        registry: &mut Registry<L, A>,
        me: Actor<L, A>,
        core: &C,
    ) -> Trail<Receipt<A>>
        requires steps { C.steps core.now ≡ self.old }
        requires out { IsOut registry.old me.number }
        ensures same { self.new ≡ self.old }
        ensures registry { registry.new ≡ with_home registry.old me self.new }
        ensures out { registry.new.out + 1 ≡ registry.old.out }
        ensures began { IsPrefix registry.old.seen self.new }
        ensures receipts { result.items ≡ me.receipts }
        ensures fits { Fits self.new me }
        ensures few { length me.receipts < 2 ^ 32 }
    {
        let number = me.number();
        let (receipts, mut known, own) = me.go_home();
        let Registry {
            out,
            lists,
            seen,
            share,
            ..
        } = registry;
        *lists = homed(lists, number, &receipts);
        self.look(&mut known, core);
        self.look(seen, core);
        share.merge(own);
        *out -= 1;
        // Its contract says that the history has no more steps, and so the actor no more receipts, than this number may be.
        let _count = core.step_count();
        receipts
    }

    /// All actors are home: the receipts of each are its own steps, and no step is of anybody else. The lists, by number.
    pub fn close<C: RouterCore<A>>(
        &mut self,
        registry: Registry<L, A>,
        core: &C,
    ) -> Trail<LinkedList<Receipt<A>>>
        requires steps { C.steps core.now ≡ self.old }
        requires all { registry.out ≡ 0 }
        ensures same { self.new ≡ self.old }
        ensures began { IsPrefix registry.seen self.new }
        ensures whole { AreWhole self.new registry.lists }
        ensures lists { result.items ≡ registry.lists }
    {
        let Registry {
            lists,
            mut seen,
            mut share,
            ..
        } = registry;
        self.look(&mut seen, core);
        self.audit(&mut share);
        fitting_are_mine::<A>();
        lists
    }
}
