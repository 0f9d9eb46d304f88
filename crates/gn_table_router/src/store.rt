//! A store of tables, which gives its steps away.

ghost use Rattle.std.specs.Prelude.{◌≡◌, ◌∷◌, ◌++◌, [], true, IfOk, MatchOption};
ghost use Rattle.gn_rules.specs.History.{sends_of};

use crate::tables::Tables;
use gn_decide::{Lookup, Places};
use gn_kept::SeenTable;
use gn_router::{FreshStore, StepStore, Store};
use gn_rules::{Config, ConnId, Event, Reply, Sends, Stats, Step, Ticket};
use gn_tables::{Flights, Forgetful, Keeper, Neighbours, ServentTable, Whole};
use gn_wire::{Descriptor, Guid, Key};
use std::alloc::{AllocError, Allocator, Global};
use std::marker::Model;
use std::mem;

/// Tables that say what the steps left, and what the steps are given to.
#[derive(Drop)]
pub struct TableStore<A: Allocator + Copy = Global, K: Keeper<A> = Whole<A>> {
    pub(crate) config: Config,
    pub(crate) history: K,
    pub(crate) tables: Tables<A>,
}

impl<A: Allocator + Copy, K: Keeper<A>> Model for TableStore<A, K> {
    ghost use Rattle.std.specs.Prelude.{reverse};
    ghost use Rattle.gn_table_router.specs.Tabled.{IsTabled};
    ghost use Rattle.gn_rules.specs.Kept.{Kept};

    ghost Value = { Kept A };

    ghost view = { λ r. record { settings = r.config; steps = K.kept r.history } };

    ghost invariant = { λ r. IsTabled r.config (reverse (K.kept r.history)) r.tables };
}

impl<A: Allocator + Copy, K: Keeper<A> + Drop> TableStore<A, K> {
    /// The store of no steps, which gives its steps to one that has got none yet. An `Err` is out of memory.
    pub fn over(alloc: A, config: &Config, history: K) -> Result<Self, AllocError>
        requires { K.kept history ≡ [] }
        ensures settings { IfOk result (λ store. store.settings ≡ config.now) }
        ensures empty { IfOk result (λ store. store.steps ≡ []) }
    {
        let tables = Tables {
            neighbours: Neighbours::new(alloc, config.numbers.neighbours, config.numbers.out)?,
            servents: ServentTable::new(alloc, config.numbers.servents)?,
            seen: SeenTable::new(alloc, config.numbers.seen)?,
            flights: Flights::new(alloc, config.numbers.stage),
            connected: 0,
            admitted: 0,
            stats: Stats::new(),
        };
        Ok(TableStore {
            config: *config,
            history,
            tables,
        })
    }

    /// What its steps were given to.
    pub fn into_keeper(self) -> K
        ensures { K.kept result ≡ self.steps }
    {
        let TableStore {
            config: _,
            history,
            tables,
        } = self;
        drop(tables);
        history
    }
}

impl<A: Allocator + Copy, K: Keeper<A>> Lookup<A> for TableStore<A, K> {
    ghost use Rattle.std.specs.Prelude.{drop, reverse};
    ghost use Rattle.gn_rules.specs.History.{live_connections};

    ghost settings = { λ r. r.settings };

    ghost steps = { λ r. r.steps };

    ghost live_from = { λ r place. drop place (live_connections (reverse r.steps)) };

    fn config(&self) -> &Config {
        &self.config
    }

    fn step_count(&self) -> u32 {
        self.history.count()
    }

    fn is_live(&self, c: ConnId) -> bool {
        self.output(c).is_some()
    }

    fn live_count(&self) -> u32 {
        self.tables.neighbours.len()
    }

    fn places(&self) -> u32 {
        self.tables.neighbours.len()
    }

    fn live_at(&self, place: u32) -> Option<(ConnId, u32)> {
        self.tables.neighbours.at(place)
    }

    #[tactic(auto, using(gn_rules::proofs::LiveLemmas::next_fits))]
    fn next_connection(&self) -> ConnId {
        1 + self.tables.connected
    }

    fn flights(&self) -> u32 {
        self.tables.flights.len()
    }

    fn flights_of(&self, c: ConnId) -> u32 {
        self.tables.flights.of(c)
    }

    fn next_ticket(&self) -> Ticket {
        self.tables.admitted
    }

    fn flight(&self, ticket: Ticket) -> Option<(usize, ConnId, &Descriptor<A>)> {
        let (place, flight) = self.tables.flights.find(ticket)?;
        Some((place, flight.from, &flight.descriptor))
    }

    fn source(&self, key: &Key) -> Option<ConnId> {
        self.tables.seen.source(key.kind, &key.id)
    }

    fn servent_route(&self, servent: &Guid) -> Option<ConnId> {
        self.tables.servents.route(servent)
    }

    fn output(&self, c: ConnId) -> Option<(usize, u32)> {
        self.tables.neighbours.output(c)
    }

    fn front(&self, c: ConnId) -> Option<(usize, Option<&Descriptor<A>>)> {
        self.tables.neighbours.front(c)
    }
}

/// Copies of the packets that a reply sends, where the keeper takes the reply; `None` where it leaves it. An `Err` is out of memory.
#[inline(always)]
fn copies_for<A: Allocator + Copy, K: Keeper<A>>(
    alloc: A,
    keeper: &K,
    reply: &Reply<A>,
) -> Result<Option<Sends<A>>, AllocError>
    ensures { IfOk result (λ copies. MatchOption copies (K.leaves_reply ≡ true) (λ sends. sends ≡ sends_of reply.now)) }
{
    if keeper.leaves_reply() {
        return Ok(None);
    }
    let sends = reply.sends();
    if sends.is_empty() {
        return Ok(Some(Sends::new(alloc)));
    }
    Ok(Some(Sends::copied(alloc, sends)?))
}

/// The packets that a reply sends, moved out of its place. Takes no memory.
#[inline(always)]
fn take_sends<A: Allocator + Copy>(alloc: A, reply: &mut Reply<A>) -> Sends<A>
    ensures { result ≡ sends_of reply.old }
{
    match mem::replace(reply, Reply::TooMany) {
        Reply::Routed { sends, .. } | Reply::Sent(sends) => sends,
        _ => Sends::new(alloc),
    }
}

/// Gives a keeper the step of this event and this reply, and gives the packets that the reply sends: these copies of them, or
/// themselves, where the keeper leaves the reply.
#[inline(always)]
fn keep<A: Allocator + Copy, K: Keeper<A>>(
    alloc: A,
    keeper: &mut K,
    copies: Option<Sends<A>>,
    actor: u32,
    event: &mut Event<A>,
    reply: &mut Reply<A>,
) -> Sends<A>
    requires room { K.has_room keeper.old }
    requires copies { MatchOption copies (K.leaves_reply ≡ true) (λ sends. sends ≡ sends_of reply.old) }
    ensures step { K.kept keeper.new
        ≡ K.kept keeper.old ++ record { actor = actor; event = event.old; reply = reply.old } ∷ [] }
    ensures sends { result ≡ sends_of reply.old }
{
    keeper.keep(actor, event, reply);
    match copies {
        Some(copies) => copies,
        None => take_sends(alloc, reply),
    }
}

impl<A: Allocator + Copy, K: Keeper<A>> Store<A> for TableStore<A, K> {
    #[inline(always)]
    fn follow(
        &mut self,
        alloc: A,
        actor: u32,
        places: Places,
        event: &mut Event<A>,
        reply: &mut Reply<A>,
    ) -> Result<(), AllocError> {
        self.history.make_room()?;
        let copies = copies_for(alloc, &self.history, reply)?;
        self.tables.follow(places, event, reply)?;
        let sends = keep(alloc, &mut self.history, copies, actor, event, reply);
        self.tables.queue(places.neighbour, sends);
        Ok(())
    }

    #[inline(always)]
    fn follow_take(
        &mut self,
        _alloc: A,
        actor: u32,
        places: Places,
        c: ConnId,
        packet: &Descriptor<A>,
    ) -> Result<(), AllocError> {
        self.history.make_room()?;
        let taken = self.tables.take(places.neighbour, c, packet);
        let (mut event, mut reply) = (Event::Take(c), Reply::Taken(taken));
        self.history.keep(actor, &mut event, &mut reply);
        Ok(())
    }

    fn stats(&self) -> Stats {
        self.tables.stats
    }

    fn is_legal(&self) {
        let _ = &self.tables;
    }
}

impl<A: Allocator + Copy> FreshStore<A> for TableStore<A, Whole<A>> {
    fn empty(alloc: A, config: &Config) -> Result<Self, AllocError> {
        TableStore::over(alloc, config, Whole::new(alloc))
    }
}

impl<A: Allocator + Copy> FreshStore<A> for TableStore<A, Forgetful<A>> {
    fn empty(alloc: A, config: &Config) -> Result<Self, AllocError> {
        TableStore::over(alloc, config, Forgetful::new())
    }
}

impl<A: Allocator + Copy> StepStore<A> for TableStore<A, Whole<A>> {
    fn as_slice(&self) -> &[Step<A>] {
        &self.history.steps
    }

    fn into_steps(self) -> Vec<Step<A>, A> {
        self.into_keeper().steps
    }
}
