//! The table of links: at most so many are there, and of those that ended nothing is kept but what proofs read.

ghost use Rattle.std.specs.Prelude.{◌≡◌, ◌+◌, ◌-◌, ◌<◌, ◌≤◌, ◌⊎◌, ◌^◌, ◌++◌, ◌∷◌, [], List, None, Option, Some, false, true, is_some, length, replicate, slice_get, slice_index_or, slice_set, IfSome, IfOk};
ghost use Rattle.gn_actors.specs.Registry.{registry_state};
ghost use Rattle.gn_hub.specs.ActorState.{new_actor};
ghost use Rattle.gn_links.specs.Halves.{IsNewReader, IsNewWriter};
ghost use Rattle.gn_report.specs.Looks.{AreCounted};
ghost use Rattle.gn_report.specs.declared.account.LinkEnd.{LinkEnd};
ghost use Rattle.gn_start.specs.Faults.{IsArrivingFault};
ghost use Rattle.gn_start.specs.Over.{views_of};
ghost use Rattle.gn_start.specs.Kept.{IsOne};
ghost use Rattle.gn_start.specs.Numbers.{HasRoom, IsFull, IsUpTo, links_of, more_of, numbers_of, reader_of, workers_of, writer_of};
ghost use Rattle.gn_start.specs.Table.{AreFree, all_came};
ghost use Rattle.gn_start.specs.declared.fault.RunFault.TheVariants.{NoMemory};

use crate::fault::RunFault;
use crate::floor::Floor;
use crate::homing::{Home, come_home};
use crate::incoming::{Incoming, NewLink};
use crate::limits::Limited;
use crate::slots::{LiveLink, Slots};
use crate::start::Starter;
use crate::states::{States, at, ended, lost};
use crate::trouble::Trouble;
use gn_actors::{Named, Numbering, Registry, Who};
use gn_hub::Actor;
use gn_links::{Gate, Place};
use gn_report::{Keeping, LinkEnd, Looks};
use gn_rules::RouterCore;
use gn_stage::{Reception, Site};
use gn_trail::Trail;
use std::alloc::{Allocator, Global};
use std::marker::Model;
use std::snapshot::Snapshot;
use std::sync::Wait;
use std::sync::ledger::Ledger;
use std::thread::Threads;

/// The links of a run: those that are there, in their slots; how many came; and of each what proofs read. Beside them stands what each
/// needs as it comes and leaves something to as it ends.
#[derive(Drop)]
pub(crate) struct LinkTable<
    V: Incoming,
    K: Keeping<V::Reader, V::Writer, A>,
    B: Site + Ledger + Limited + Named,
    A: Allocator = Global,
> {
    pub(crate) numbering: Numbering,
    pub(crate) slots: Slots<V::Reader, V::Writer, B, A>,
    pub(crate) came: u32,
    pub(crate) states: States<V::Reader, V::Writer, A>,
    pub(crate) registry: Registry<B, A>,
    pub(crate) reception: Reception<B, A>,
    pub(crate) looks: Looks,
    pub(crate) keeper: K,
    pub(crate) trouble: Trouble,
}

impl<
    V: Incoming,
    K: Keeping<V::Reader, V::Writer, A>,
    B: Site + Ledger + Limited + Named,
    A: Allocator,
> Model for LinkTable<V, K, B, A> {
    ghost use Rattle.std.specs.Prelude.{is_some};
    ghost use Rattle.gn_start.specs.Over.{views_of};
    ghost use Rattle.gn_start.specs.Kept.{IsTable};
    ghost use Rattle.gn_start.specs.Table.{TableState};

    ghost Value = { TableState V.Reader V.Writer A };

    ghost view = { λ t. record {
      numbering = t.numbering;
      live = t.slots;
      states = t.states.items;
      registry = t.registry;
      is_open = t.reception.is_open;
      is_lost = t.trouble.is_lost;
      is_faulty = is_some t.trouble.fault;
    } };

    ghost invariant = { λ t. IsTable B.turns B.batch
        (views_of V.Reader.state V.Writer.state V.Reader.gives V.Reader.made_of V.Writer.made_of) V.has_peers
        (K.keeps t.keeper) t.numbering t.came t.reception.made.intakes t.trouble t.looks t.slots t.states.items t.registry };
}

/// Whether there are numbers for one link more than so many.
fn has_room(numbering: Numbering, came: u32, many: u32) -> bool
    requires many { many ≡ numbers_of numbering came }
    requires fits { IsUpTo numbering came }
    ensures room { result ≡ true → HasRoom numbering came }
    ensures full { result ≡ false → IsFull numbering came }
{
    match numbering {
        Numbering::Known { links, .. } => came < links,
        Numbering::Open { .. } => many <= u32::MAX - 2,
    }
}

impl<
    V: Incoming,
    K: Keeping<V::Reader, V::Writer, A>,
    B: Site + Ledger + Limited + Named,
    A: Allocator + Copy,
> LinkTable<V, K, B, A> {
    /// How many slots there are.
    pub(crate) fn many_slots(&self) -> u32
        ensures { result ≡ length self.now.live }
    {
        self.slots.many()
    }

    /// The number of the next link.
    pub(crate) fn next_link(&self) -> u32
        ensures { result ≡ length self.now.states }
    {
        self.came
    }

    /// Whether no more links can come: something is lost, or there are no numbers.
    pub(crate) fn is_closed(&self) -> bool
        ensures room { result ≡ false → HasRoom self.now.numbering (length self.now.states) }
        ensures closed { result ≡ true
            → (self.now.is_faulty ≡ true) ⊎ IsFull self.now.numbering (length self.now.states) }
    {
        self.trouble.is_lost || !has_room(self.numbering, self.came, self.registry.many())
    }

    /// Whether what is kept of the run isn't what its actors say.
    pub(crate) fn is_audited(&self) -> bool {
        matches!(self.trouble.fault, Some(RunFault::Audit(_)))
    }

    /// The place of the next link, at a slot that is free, if there is one.
    pub(crate) fn next_place(&self) -> Option<Place>
        ensures { IfSome result (λ p. (p.slot < length self.now.live)
            × (slice_index_or self.now.live p.slot None ≡ None)) }
    {
        match self.slots.free() {
            Some(slot) => Some(Place {
                link: self.came,
                slot,
            }),
            None => None,
        }
    }

    /// The run has this fault, too, if it is one.
    pub(crate) fn note(&mut self, found: Option<RunFault>)
        requires { IfSome found (λ fault. IsArrivingFault V.has_peers
            (links_of self.old.numbering (length self.old.states)) (workers_of self.old.numbering) fault) }
        ensures others { self.new ≡ record self.old { is_faulty = self.new.is_faulty } }
        ensures faulty { is_some found ≡ true → self.new.is_faulty ≡ true }
        ensures same { self.old.is_faulty ≡ true → self.new.is_faulty ≡ true }
    {
        self.trouble = self.trouble.with(found);
    }

    /// No more intakes are made: the workers end once all that were made are home.
    pub(crate) fn shut(&mut self)
        ensures { self.new ≡ record self.old { is_open = false } }
    {
        self.reception.shut();
    }

    /// The threads of a slot are joined, if there are any: how the link ended is handed on, and the slot is free.
    pub(crate) fn retire<C: RouterCore<A> + Drop, G, R: Threads + Wait>(
        &mut self,
        floor: &Floor<'_, C, B, G, A, R>,
        slot: u32,
    )
        requires { slot < length self.old.live }
        ensures live { self.new.live ≡ slice_set self.old.live slot None }
        ensures came { all_came self.new.states ≡ all_came self.old.states }
        ensures same { (self.new.numbering ≡ self.old.numbering) × (self.new.is_open ≡ self.old.is_open) }
        ensures faulty { self.old.is_faulty ≡ true → self.new.is_faulty ≡ true }
    {
        let LinkTable {
            slots,
            states,
            registry,
            reception,
            looks,
            keeper,
            trouble,
            ..
        } = self;
        let Some(live) = slots.take(slot) else {
            return;
        };
        let link = live.link;
        let (home, intake) = come_home::<V, B, C, G, A, R>(floor, registry, live);
        reception.take_home(intake);
        let Home { end, fault, .. } = home;
        *states = ended(states, link, &end);
        *trouble = hand_on(looks, keeper, link, end, trouble.with(fault));
    }

    /// All threads of links are joined.
    pub(crate) fn retire_all<C: RouterCore<A> + Drop, G, R: Threads + Wait>(
        &mut self,
        floor: &Floor<'_, C, B, G, A, R>,
    )
        ensures free { AreFree self.new.live }
        ensures came { all_came self.new.states ≡ all_came self.old.states }
        ensures same { (self.new.numbering ≡ self.old.numbering) × (self.new.is_open ≡ self.old.is_open) }
        ensures faulty { self.old.is_faulty ≡ true → self.new.is_faulty ≡ true }
    {
        for slot in 0..self.many_slots() {
            self.retire(floor, slot);
        }
    }
}

/// Who keeps how links end is lent how this one has, and the looks count it.
fn hand_on<Rd: Drop, W: Drop, K: Keeping<Rd, W, A>, A: Allocator>(
    looks: &mut Looks,
    keeper: &mut K,
    link: u32,
    end: LinkEnd<Rd, W, A>,
    trouble: Trouble,
) -> Trouble
    ensures lost { trouble.is_lost ≡ true → result.is_lost ≡ true }
    ensures found { (trouble.is_lost ≡ true → is_some trouble.fault ≡ true)
        → result.is_lost ≡ true → is_some result.fault ≡ true }
    ensures some { is_some trouble.fault ≡ true → is_some result.fault ≡ true }
    ensures one { (result.fault ≡ trouble.fault) ⊎ (result.fault ≡ Some NoMemory) }
    ensures keeps { (all : List (Option (LinkEnd Rd W A))) → K.keeps keeper.old all
        → result.is_lost ≡ false → K.keeps keeper.new (slice_set all link (Some end)) }
    ensures counted { (all : List (Option (LinkEnd Rd W A))) → slice_get all link ≡ Some None → AreCounted looks.old all
        → AreCounted looks.new (slice_set all link (Some end)) }
{
    match end {
        LinkEnd::Cut(tally) => {
            keeper.cut(link, tally);
            trouble
        }
        LinkEnd::Whole(account) => {
            looks.count(&account);
            if keeper.ended(link, &mut Some(account)).is_err() {
                return trouble.lost();
            }
            trouble
        }
    }
}

/// How many numbers a run gets more as a link comes.
fn more(numbering: Numbering) -> u32
    ensures { result ≡ more_of numbering }
{
    match numbering {
        Numbering::Known { .. } => 0,
        Numbering::Open { .. } => 2,
    }
}

/// The actors of the next link.
fn next_actors<B: Ledger + Named, A: Allocator>(
    registry: &mut Registry<B, A>,
    numbering: Numbering,
    link: u32,
) -> (Actor<B, A>, Actor<B, A>)
    requires numbers { (length registry.old.lists ≡ numbers_of numbering link) × HasRoom numbering link }
    requires few { registry.old.out ≤ workers_of numbering + (link + link) + 1 }
    requires none { (slice_index_or registry.old.lists (reader_of numbering link) [] ≡ [])
        × (slice_index_or registry.old.lists (writer_of numbering link) [] ≡ []) }
    ensures reader { result.0 ≡ new_actor (reader_of numbering link) }
    ensures writer { result.1 ≡ new_actor (writer_of numbering link) }
    ensures registry { registry.new ≡ registry_state (registry.old.lists ++ replicate (more_of numbering) [])
        (registry.old.out + 1 + 1) registry.old.seen }
    ensures few { link + 1 < 2 ^ 32 }
{
    // It shows that all numbers are of 32 bits.
    let _many = registry.many();
    registry.grow(more(numbering));
    let reader = registry.send(numbering.number_of(Who::Reader(link)));
    let writer = registry.send(numbering.number_of(Who::Writer(link)));
    (reader, writer)
}

impl<
    's,
    E: 's,
    C: RouterCore<A> + Drop + Send + 's,
    B: Site + Ledger + Limited + Named + Send + Sync + 's,
    G: Gate + Sync + 's,
    A: Allocator + Copy + Send + Sync + 's,
    R: Threads + Wait + Sync + 's,
> Starter<'s, E, C, B, G, A, R> {
    /// Starts the threads of a link that comes, if it can be, which who keeps how links end learns.
    fn begin<V: Incoming, K: Keeping<V::Reader, V::Writer, A>>(
        &self,
        reception: &mut Reception<B, A>,
        keeper: &mut K,
        place: Place,
        link: NewLink<V::Reader, V::Writer>,
        actors: (Actor<B, A>, Actor<B, A>),
    ) -> Option<LiveLink<V::Reader, V::Writer, B, A>>
    where
        V::Reader: Send + 's,
        V::Writer: Send + 's,
        requires open { (reception.old.is_open ≡ true) × (reception.old.made.intakes < 2 ^ 32 - 1) }
        requires new { IsNewReader (V.Reader.state link.reader) × IsNewWriter (V.Writer.state link.writer) }
        requires actors { (actors.0.receipts ≡ []) × (actors.1.receipts ≡ []) }
        ensures open { reception.new.is_open ≡ true }
        ensures made { reception.new.made.intakes ≤ reception.old.made.intakes + 1 }
        ensures live { IfSome result (λ live. live ≡ record {
          link = place.link;
          reader = actors.0.number;
          writer = actors.1.number;
          came = link;
          other = link.role;
        }) }
        ensures keeps { (all : List (Option (LinkEnd V.Reader V.Writer A))) → K.keeps keeper.old all
            → IfSome result (λ _. K.keeps keeper.new (all ++ None ∷ [])) }
    {
        if keeper.came().is_err() {
            return None;
        }
        let Ok(intake) = reception.intake() else {
            return None;
        };
        let floor = self.floor;
        if !floor.service.take_slot(floor.rt, place.slot, link.role) {
            return None;
        }
        self.start(place, link, intake, actors)
    }

    /// A link comes, and its threads are started in a free slot. Where they can't be, or memory is refused, the run has failed.
    pub(crate) fn come<V: Incoming, K: Keeping<V::Reader, V::Writer, A>>(
        &self,
        table: &mut LinkTable<V, K, B, A>,
        slot: u32,
        link: NewLink<V::Reader, V::Writer>,
    )
    where
        V::Reader: Send + 's,
        V::Writer: Send + 's,
        requires free { (slot < length table.old.live) × (slice_index_or table.old.live slot None ≡ None) }
        requires room { HasRoom table.old.numbering (length table.old.states) }
        requires new { IsNewReader (V.Reader.state link.reader) × IsNewWriter (V.Writer.state link.writer) }
        requires one { V.Writer.made_of link.writer ≡ V.Reader.made_of link.reader }
        requires open { table.old.is_open ≡ true }
        ensures live { length table.new.live ≡ length table.old.live }
        ensures came { all_came table.new.states ≡ all_came table.old.states ++ link ∷ [] }
        ensures same { (table.new.numbering ≡ table.old.numbering) × (table.new.is_open ≡ true) }
    {
        let new = Snapshot::of(&link);
        let LinkTable {
            numbering,
            slots,
            came,
            states,
            registry,
            reception,
            keeper,
            trouble,
            ..
        } = table;
        let place = Place { link: *came, slot };
        let actors = next_actors(registry, *numbering, *came);
        *came += 1;
        match self.begin::<V, K>(reception, keeper, place, link, actors) {
            Some(live) => {
                *states = at(states, slot, new);
                slots.put(slot, live);
            }
            None => {
                *states = lost(states, new);
                *trouble = trouble.lost();
                self.fail();
            }
        }
    }
}
