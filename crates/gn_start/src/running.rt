//! A run from its first link until all its threads are joined.

ghost use Rattle.std.specs.Prelude.{◌≡◌, ◌+◌, ◌<◌, ◌≤◌, ◌^◌, [], None, ℕ, false, length, true, vec_len, IfErr, IfSome};
ghost use Rattle.gn_actors.specs.Registry.{registry_state};
ghost use Rattle.gn_actors.specs.Who.{number_of};
ghost use Rattle.gn_actors.specs.declared.who.Numbering.TheVariants.{Known, Open};
ghost use Rattle.gn_actors.specs.declared.who.Who.TheVariants as who;
ghost use Rattle.gn_rules.specs.Limits.{IsCrew, most_links};
ghost use Rattle.gn_start.specs.Crews.{AreWorked, IsFaultOfCrew};
ghost use Rattle.gn_start.specs.Faults.{IsArrivingFault};
ghost use Rattle.gn_start.specs.House.{HasOriginated, HasRecalled, IsHouse};
ghost use Rattle.gn_start.specs.Incoming.{IsSameFrom};
ghost use Rattle.gn_start.specs.Numbers.{links_of, workers_of};
ghost use Rattle.gn_start.specs.Over.{HaveCome, IsOver, views_of};
ghost use Rattle.gn_start.specs.Table.{AreAll, AreComing, AreFree, HasBeenMade, HasMade, all_came};

use crate::crew::Worked;
use crate::fault::RunFault;
use crate::floor::Floor;
use crate::incoming::{Coming, Incoming};
use crate::limits::Limited;
use crate::opening::{Opened, first_numbers, slots_for};
use crate::over::{Over, Stagework};
use crate::start::Starter;
use crate::table::LinkTable;
use gn_actors::{Named, Who};
use gn_hub::Actor;
use gn_links::Gate;
use gn_report::Keeping;
use gn_rules::RouterCore;
use gn_stage::Site;
use std::alloc::Allocator;
use std::marker::Model;
use std::sync::Wait;
use std::sync::ledger::Ledger;
use std::thread;
use std::thread::Threads;

/// A run that begins, with its links that are to come, and who keeps how they end. Contracts see where the links come from, and how the
/// actors are numbered.
#[derive(Drop)]
struct Begun<
    V: Incoming,
    K: Keeping<V::Reader, V::Writer, A>,
    B: Site + Ledger + Named,
    A: Allocator,
> {
    incoming: V,
    opened: Opened<B, A>,
    keeper: K,
}

impl<V: Incoming, K: Keeping<V::Reader, V::Writer, A>, B: Site + Ledger + Named, A: Allocator> Model
    for Begun<V, K, B, A> {
    ghost use Rattle.std.specs.Prelude.{[], vec_len};
    ghost use Rattle.gn_start.specs.Begun.{BegunState, IsBegun};

    ghost Value = { BegunState V };

    ghost view = { λ b. record { incoming = b.incoming; numbering = b.opened.numbering } };

    ghost invariant = { λ b. IsBegun (K.keeps b.keeper []) b.opened.numbering (vec_len b.opened.outlets)
        b.opened.registry b.opened.reception };
}

impl<
    's,
    E: 's,
    C: RouterCore<A> + Drop + Send + 's,
    B: Site + Ledger + Limited + Named + Send + Sync + 's,
    G: Gate + Sync + 's,
    A: Allocator + Copy + Send + Sync + 's,
    R: Threads + Wait + Sync + 's,
> Starter<'s, E, C, B, G, A, R> {
    /// Joins the threads of each link that is at its end. Where the end of one shows that the history isn't what its actors say, the run
    /// fails at once.
    fn retire_ended<V: Incoming, K: Keeping<V::Reader, V::Writer, A>>(
        &self,
        table: &mut LinkTable<V, K, B, A>,
    )
        ensures live { length table.new.live ≡ length table.old.live }
        ensures came { all_came table.new.states ≡ all_came table.old.states }
        ensures same { (table.new.numbering ≡ table.old.numbering) × (table.new.is_open ≡ table.old.is_open) }
        ensures faulty { table.old.is_faulty ≡ true → table.new.is_faulty ≡ true }
    {
        let was_known = table.is_audited();
        for slot in 0..table.many_slots() {
            if self.floor.signal.have_ended(slot) {
                table.retire(self.floor, slot);
            }
        }
        if table.is_audited() && !was_known {
            self.fail();
        }
    }

    /// Joins those that have ended, and waits for a link, or until others have, or a Ping is to be sent. False where no more are to come.
    fn turn<V: Incoming, K: Keeping<V::Reader, V::Writer, A>>(
        &self,
        incoming: &mut V,
        table: &mut LinkTable<V, K, B, A>,
        house: &mut Actor<B, A>,
    ) -> bool
    where
        V::Reader: Send + 's,
        V::Writer: Send + 's,
        requires open { table.old.is_open ≡ true }
        ensures goes { (first : V) → AreComing V.Reader.made_of V.foreknown V.may_come V.may_end first
            incoming.old (all_came table.old.states)
            → result ≡ true → AreComing V.Reader.made_of V.foreknown V.may_come V.may_end first
            incoming.new (all_came table.new.states) }
        ensures ends { (first : V) → AreComing V.Reader.made_of V.foreknown V.may_come V.may_end first
            incoming.old (all_came table.old.states)
            → result ≡ false → AreAll V.Reader.made_of V.foreknown V.is_known table.new.is_faulty table.new.numbering
            (V.may_come first) (V.may_end first) (all_came table.new.states) }
        ensures same { (table.new.numbering ≡ table.old.numbering) × (table.new.is_open ≡ true) }
        ensures house { HasOriginated (V.originates incoming.old) house.old house.new }
        ensures own { V.originates incoming.new ≡ V.originates incoming.old }
    {
        let waiting = self.floor.signal.waiting(self.floor.rt);
        self.retire_ended(table);
        if table.is_closed() {
            return false;
        }
        let link = table.next_link();
        let place = table.next_place();
        match incoming.next(self.floor.rt, link, place, &waiting) {
            Ok(Coming::Link(new)) => {
                let Some(place) = place else { unreachable!() };
                self.come(table, place.slot, new);
                true
            }
            Ok(Coming::Nobody) => true,
            Ok(Coming::Ping(id)) => {
                table.note(self.ping(house, id));
                true
            }
            Ok(Coming::Over) => false,
            Err(fault) => {
                table.note(Some(fault));
                self.fail();
                false
            }
        }
    }

    /// Takes links until no more come, each into a slot that is free, and joins those that have ended.
    fn take_links<V: Incoming, K: Keeping<V::Reader, V::Writer, A>>(
        &self,
        incoming: &mut V,
        table: &mut LinkTable<V, K, B, A>,
        house: &mut Actor<B, A>,
    )
    where
        V::Reader: Send + 's,
        V::Writer: Send + 's,
        requires open { table.old.is_open ≡ true }
        ensures made { (first : V) → AreComing V.Reader.made_of V.foreknown V.may_come V.may_end first
            incoming.old (all_came table.old.states)
            → AreAll V.Reader.made_of V.foreknown V.is_known table.new.is_faulty table.new.numbering
            (V.may_come first) (V.may_end first) (all_came table.new.states) }
        ensures same { table.new.numbering ≡ table.old.numbering }
        ensures house { HasOriginated (V.originates incoming.old) house.old house.new }
    {
        for _ in self.floor.rt.forever() {
            if !self.turn(incoming, table, house) {
                return;
            }
        }
        unreachable!()
    }

    /// Takes all links, and joins their threads.
    fn run_all<V: Incoming, K: Keeping<V::Reader, V::Writer, A>>(
        &self,
        incoming: &mut V,
        mut table: LinkTable<V, K, B, A>,
        house: &mut Actor<B, A>,
    ) -> LinkTable<V, K, B, A>
    where
        V::Reader: Send + 's,
        V::Writer: Send + 's,
        requires open { table.is_open ≡ true }
        ensures free { AreFree result.live }
        ensures made { HasMade V.Reader.made_of V.foreknown V.is_known V.may_come V.may_end
            incoming.old table result }
        ensures same { result.numbering ≡ table.numbering }
        ensures house { HasOriginated (V.originates incoming.old) house.old house.new }
    {
        self.take_links(incoming, &mut table, house);
        self.floor.service.no_more(self.floor.rt);
        table.shut();
        table.retire_all(self.floor);
        table
    }

    /// The house makes the next event that comes before the links, where there is one more. Whether there was.
    #[tactic(auto, using(crate::proofs::LoopLemmas::same_on, crate::proofs::RouteLemmas::some_recalled))]
    fn recall_next<V: Incoming>(
        &self,
        incoming: &mut V,
        house: &mut Actor<B, A>,
    ) -> Result<bool, RunFault>
        ensures coming { IsSameFrom V.may_come V.may_end 0 incoming.old incoming.new }
        ensures same { (V.originates incoming.new ≡ V.originates incoming.old)
            × (V.recalls incoming.new ≡ V.recalls incoming.old) }
        ensures house { HasRecalled (V.recalls incoming.old) house.old house.new }
        ensures fault { IfErr result (λ fault. (links workers : ℕ)
            → IsArrivingFault V.has_peers links workers fault) }
    {
        let Some(recall) = incoming.recall(self.floor.alloc)? else {
            return Ok(false);
        };
        let answer = self.floor.service.call(self.floor.rt, house, &recall.event);
        incoming.recalled(recall, answer)?;
        Ok(true)
    }

    /// The house makes all events that come before the links, in order. The fault of the run, where one can't be made.
    #[tactic(auto, using(crate::proofs::LoopLemmas::same_on, crate::proofs::RouteLemmas::recalled_then))]
    fn recall<V: Incoming>(&self, incoming: &mut V, house: &mut Actor<B, A>) -> Option<RunFault>
        ensures coming { IsSameFrom V.may_come V.may_end 0 incoming.old incoming.new }
        ensures same { V.originates incoming.new ≡ V.originates incoming.old }
        ensures house { HasRecalled (V.recalls incoming.old) house.old house.new }
        ensures fault { IfSome result (λ fault. (links workers : ℕ)
            → IsArrivingFault V.has_peers links workers fault) }
    {
        for _ in self.floor.rt.forever() {
            match self.recall_next(incoming, house) {
                Ok(true) => {}
                Ok(false) => return None,
                Err(fault) => {
                    self.fail();
                    return Some(fault);
                }
            }
        }
        unreachable!()
    }

    /// Starts the workers, has the house make the steps of before again, takes all links, and joins all threads.
    #[tactic(auto, using(crate::proofs::RouteLemmas::house_at))]
    fn run<V: Incoming, K: Keeping<V::Reader, V::Writer, A>>(
        &self,
        begun: Begun<V, K, B, A>,
    ) -> (LinkTable<V, K, B, A>, Worked<B, A>, Actor<B, A>)
    where
        V::Reader: Send + 's,
        V::Writer: Send + 's,
        ensures free { AreFree result.0.live }
        ensures made { HasBeenMade V.Reader.made_of V.foreknown V.is_known
            (V.may_come begun.incoming) (V.may_end begun.incoming) result.0 }
        ensures same { result.0.numbering ≡ begun.numbering }
        ensures worked { AreWorked (number_of begun.numbering (who.Worker 0)) (workers_of begun.numbering) result.1 }
        ensures fault { IsFaultOfCrew begun.numbering result.1.fault }
        ensures house { IsHouse (V.recalls begun.incoming) (V.originates begun.incoming)
            (number_of begun.numbering who.House) result.2 }
    {
        let alloc = self.floor.alloc;
        let Begun {
            mut incoming,
            opened,
            keeper,
        } = begun;
        let Opened {
            mut registry,
            reception,
            outlets,
            numbering,
            slots,
        } = opened;
        registry.grow(first_numbers(numbering));
        let crew = self.start_workers(&mut registry, numbering, outlets);
        // It shows that all numbers are of 32 bits.
        let _many = registry.many();
        let mut house = registry.send(numbering.number_of(Who::House));
        let (slots, trouble) = slots_for(alloc, slots, crew.is_lost);
        if trouble.is_lost {
            self.fail();
        }
        let mut table = LinkTable::new((numbering, registry, reception), slots, trouble, keeper);
        table.note(self.recall(&mut incoming, &mut house));
        let table = self.run_all(&mut incoming, table, &mut house);
        let worked = crew.join(self.floor.rt, alloc);
        // Where links come from may have threads that watch those that are there.
        drop(incoming);
        (table, worked, house)
    }
}

/// Runs the links that come, each with a reader and a writer, and the workers, until all have ended, and joins all threads as they end. The
/// house goes out meanwhile: it makes the steps of before again, and sends the own servent's Pings.
pub fn run_links<
    V: Incoming,
    K: Keeping<V::Reader, V::Writer, A>,
    B: Site + Ledger + Limited + Named + Send + Sync,
    C: RouterCore<A> + Drop + Send,
    G: Gate + Sync,
    A: Allocator + Copy + Send + Sync,
    R: Threads + Wait + Sync,
>(
    floor: &Floor<'_, C, B, G, A, R>,
    opened: Opened<B, A>,
    incoming: V,
    keeper: K,
) -> (
    Over<V::Reader, V::Writer, K, B, A>,
    Stagework<B, A>,
    Actor<B, A>,
)
where
    V::Reader: Send,
    V::Writer: Send,
    requires registry { opened.registry ≡ registry_state [] 0 [] }
    requires reception { (opened.reception.made.intakes ≡ 0) × (opened.reception.is_open ≡ true) }
    requires crew { (vec_len opened.outlets ≡ workers_of opened.numbering) × IsCrew (vec_len opened.outlets) }
    requires known { (links workers : ℕ) → opened.numbering ≡ Known links workers
        → (links ≤ most_links) × V.may_end incoming links }
    requires open { (workers : ℕ) → opened.numbering ≡ Open workers → V.is_known ≡ false }
    requires keeper { K.keeps keeper [] }
    ensures over { IsOver (views_of V.Reader.state V.Writer.state V.Reader.gives V.Reader.made_of V.Writer.made_of)
        K.keeps B.turns B.batch opened.numbering (workers_of opened.numbering) result.0 }
    ensures came { HaveCome (views_of V.Reader.state V.Writer.state V.Reader.gives V.Reader.made_of V.Writer.made_of)
        V.foreknown V.is_known (V.may_come incoming) (V.may_end incoming) result.0 }
    ensures fault { IfSome result.0.fault (λ fault. IsArrivingFault V.has_peers
        (links_of opened.numbering result.0.came) (workers_of opened.numbering) fault) }
    ensures house { IsHouse (V.recalls incoming) (V.originates incoming)
        (number_of opened.numbering who.House) result.2 }
{
    let begun = Begun {
        incoming,
        opened,
        keeper,
    };
    let (table, worked, house) = thread::scope(thread::scope_env(), floor.rt, |scope| {
        let starter = Starter { scope, floor };
        starter.run(begun)
    });
    let (over, stagework) = table.finish(worked);
    (over, stagework, house)
}
