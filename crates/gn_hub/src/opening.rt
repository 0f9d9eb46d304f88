//! How the service of a run is made, and its actors.

ghost use Rattle.std.specs.Prelude.{◌≡◌, ◌+◌, ◌*◌, ◌<◌, ◌≤◌, ◌↔◌, [], length, IfErr, IfOk};
ghost use Rattle.std.specs.List.{list_all};
ghost use Rattle.gn_shake.specs.Greeting.{is_calling};
ghost use Rattle.gn_rules.specs.Limits.{IsCrew, most_links};
ghost use Rattle.gn_hub.specs.ActorState.{AreNew};
ghost use Rattle.gn_hub.specs.HubState.{opening, opening_for};
ghost use Rattle.gn_hub.specs.declared.opening.ServiceFault.TheVariants.{BadWorkers};

use crate::hub::Hub;
use crate::service::Service;
use crate::slots::Slots;
use gn_actors::{Actor, Annals, Beginning, Named, Unopened};
use gn_room::Room;
use gn_rules::{Config, FreshRouter, MOST_WORKERS, RouterCore, Step};
use gn_shake::Role;
use std::alloc::{AllocError, AllocFailed, Allocator};
use std::sync::ledger::{Ledger, Share};

/// Why no service was made.
#[derive(Clone, Copy, Debug, PartialEq, Eq)]
pub enum ServiceFault {
    /// Not 1 to 64 workers.
    BadWorkers,
    /// Out of memory.
    NoMemory,
}

impl From<AllocError> for ServiceFault {
    ghost use Rattle.gn_hub.specs.declared.opening.ServiceFault.TheVariants.{NoMemory};

    ghost from_gives = { λ _ e. e ≡ NoMemory };

    fn from(_e: AllocError) -> ServiceFault {
        ServiceFault::NoMemory
    }
}

impl<C: FreshRouter<A> + Drop, L: Ledger + Named, A: Allocator + Copy> Service<C, L, A> {
    /// The service of a run with links of these roles, at most 256, and so many workers, and its actors: the readers in the
    /// order of their links, then the writers, the workers and the house. The ledger has a part for each of them.
    /// `BadWorkers` comes exactly where there aren't 1 to 64 workers.
    pub fn new(
        alloc: A,
        unopened: Unopened<A>,
        config: &Config,
        roles: &[Role],
        workers: u32,
    ) -> Result<(Self, Vec<Actor<L, A>, A>), ServiceFault>
        requires name { (unopened.blank.name ≡ L.name) × (unopened.steps.name ≡ L.growing) }
        requires parts { (unopened.blank.parts ≡ L.parts)
            × (unopened.blank.parts ≡ 2 * length roles.now + workers + 1) }
        requires few { length roles.now ≤ most_links }
        ensures actors { IfOk result (λ made. AreNew (2 * length roles.now + workers + 1) made.1.items) }
        ensures workers { IfOk result (λ made. IsCrew workers) }
        ensures bad_workers { IfErr result (λ fault. (fault ≡ BadWorkers) ↔ (¬ IsCrew workers)) }
    {
        if workers == 0 || workers > MOST_WORKERS {
            return Err(ServiceFault::BadWorkers);
        }
        let core = C::make(alloc, config)?;
        Service::over_router(alloc, unopened, core, Room::endless(), roles, workers)
    }
}

impl<C: RouterCore<A> + Drop, L: Ledger + Named, A: Allocator + Copy> Service<C, L, A> {
    /// The same over a router of no steps, whose steps somebody takes to make room for others.
    pub fn over_router(
        alloc: A,
        unopened: Unopened<A>,
        core: C,
        room: Room,
        roles: &[Role],
        workers: u32,
    ) -> Result<(Self, Vec<Actor<L, A>, A>), ServiceFault>
        requires empty { C.steps core ≡ [] }
        requires name { (unopened.blank.name ≡ L.name) × (unopened.steps.name ≡ L.growing) }
        requires parts { (unopened.blank.parts ≡ L.parts)
            × (unopened.blank.parts ≡ 2 * length roles.now + workers + 1) }
        requires few { length roles.now ≤ most_links }
        ensures actors { IfOk result (λ made. AreNew (2 * length roles.now + workers + 1) made.1.items) }
        ensures workers { IfOk result (λ made. IsCrew workers) }
        ensures bad_workers { IfErr result (λ fault. (fault ≡ BadWorkers) ↔ (¬ IsCrew workers)) }
    {
        if workers == 0 || workers > MOST_WORKERS {
            return Err(ServiceFault::BadWorkers);
        }
        let (hub, actors) = open(alloc, unopened, core, roles, workers)?;
        Ok((Service::over(hub, room), actors))
    }

    /// The service of a run whose links come one after another, at most so many at once, over a router of no steps, whose steps somebody
    /// takes to make room for others. All parts of the ledger, and a beginning of the steps, for its actors.
    pub fn open(
        alloc: A,
        unopened: Unopened<A>,
        core: C,
        room: Room,
        slots: u32,
    ) -> Result<(Self, Share<L>, Beginning<Step<A>, L>), AllocError>
        requires empty { C.steps core ≡ [] }
        requires name { (unopened.blank.name ≡ L.name) × (unopened.steps.name ≡ L.growing) }
        requires parts { unopened.blank.parts ≡ L.parts }
        ensures whole { IfOk result
            (λ made. (made.1.parts ≡ L.parts) × (made.1.amount ≡ 0) × (made.2.items ≡ [])) }
    {
        let (hub, all, seen) = open_for(alloc, unopened, core, slots)?;
        Ok((Service::over(hub, room), all, seen))
    }
}

/// The hub of a run that begins, over a router of no steps, and the actors.
fn open<C: RouterCore<A> + Drop, L: Ledger + Named, A: Allocator + Copy>(
    alloc: A,
    unopened: Unopened<A>,
    core: C,
    roles: &[Role],
    workers: u32,
) -> Result<(Hub<C, L, A>, Vec<Actor<L, A>, A>), AllocError>
    requires empty { C.steps core ≡ [] }
    requires name { (unopened.blank.name ≡ L.name) × (unopened.steps.name ≡ L.growing) }
    requires parts { (unopened.blank.parts ≡ L.parts)
        × (unopened.blank.parts ≡ 2 * length roles.now + workers + 1) }
    requires few { (length roles.now ≤ most_links) × IsCrew workers }
    ensures hub { IfOk result (λ made. made.0 ≡ opening (C.settings core) roles.now) }
    ensures actors { IfOk result (λ made. AreNew (2 * length roles.now + workers + 1) made.1.items) }
{
    let slots = Slots::of(alloc, roles)?;
    let (annals, all, seen) = Annals::open(unopened);
    let actors = make_actors(alloc, all, seen, 2 * roles.len() as u32 + workers + 1)?;
    let hub = Hub::new(core, annals, slots, do_all_call(roles));
    Ok((hub, actors))
}

/// Whether all links call.
fn do_all_call(roles: &[Role]) -> bool
    ensures { result ≡ list_all is_calling roles.now }
{
    roles.iter().all(|role| role.is_calling())
}

/// The hub of a run whose links come one after another, at most so many at once, over a router of no steps. All parts of the
/// ledger, and a beginning of the steps, for its actors.
fn open_for<C: RouterCore<A> + Drop, L: Ledger + Named, A: Allocator + Copy>(
    alloc: A,
    unopened: Unopened<A>,
    core: C,
    slots: u32,
) -> Result<(Hub<C, L, A>, Share<L>, Beginning<Step<A>, L>), AllocError>
    requires empty { C.steps core ≡ [] }
    requires name { (unopened.blank.name ≡ L.name) × (unopened.steps.name ≡ L.growing) }
    requires parts { unopened.blank.parts ≡ L.parts }
    ensures hub { IfOk result (λ made. made.0 ≡ opening_for (C.settings core) slots) }
    ensures whole { IfOk result (λ made. (made.1.parts ≡ L.parts) × (made.1.amount ≡ 0) × (made.2.items ≡ [])) }
{
    let slots = Slots::free(alloc, slots)?;
    let (annals, all, seen) = Annals::open(unopened);
    Ok((Hub::open(core, annals, slots), all, seen))
}

/// Actors in order, with a part of the ledger each.
fn make_actors<L: Ledger + Named, A: Allocator + Copy>(
    alloc: A,
    all: Share<L>,
    seen: Beginning<Step<A>, L>,
    count: u32,
) -> Result<Vec<Actor<L, A>, A>, AllocError>
    requires { (0 < count) × (all.parts ≡ count) × (all.amount ≡ 0) × (seen.items ≡ []) }
    ensures { IfOk result (λ actors. AreNew count actors.items) }
{
    let (mut all, mut seen) = (all, seen);
    let mut actors = Vec::new(alloc);
    for number in 0..count - 1 {
        actors.push(Actor::new(number, seen.again(), all.split_off(1, 0)))?;
    }
    actors.push(Actor::new(count - 1, seen, all))?;
    Ok(actors)
}
