//! The actors of a run that have no link come home: the house, and the workers.

ghost use Rattle.gn_actors.specs.Registry.{AreWhole, IsOut};
ghost use Rattle.gn_report.specs.Accounts.{unkept_list};
ghost use Rattle.gn_threads.specs.Homecoming.{AreAllOut, receipts_in, with_all_home};
ghost use Rattle.std.specs.Prelude.{◌≡◌, ◌+◌, ◌<◌, ◌∷◌, ℕ, map, slice_set, IfErr, IfOk};
ghost use Rattle.gn_start.specs.Faults.{IsFaultOf};
ghost use mathlib.Core.List.{IsPrefix};

use gn_actors::{Named, Registry};
use gn_hub::{Actor, Hub};
use gn_report::{Unkept, unkept_trail};
use gn_rules::{Receipt, RouterCore};
use gn_start::RunFault;
use gn_trail::Trail;
use std::alloc::{AllocError, Allocator, Global};
use std::collections::LinkedList;
use std::sync::ledger::Ledger;

/// The receipts of the workers and of the house of a run all of whose actors are home, and those of all, by number.
#[derive(Drop)]
pub(crate) struct Homed<A: Allocator = Global> {
    pub workers: Vec<Unkept<Receipt<A>>, A>,
    pub house: Unkept<Receipt<A>>,
    pub lists: Trail<LinkedList<Receipt<A>>>,
}

/// An actor comes home. Its receipts.
fn welcome<L: Ledger + Named, C: RouterCore<A>, A: Allocator + Copy>(
    hub: &mut Hub<C, L, A>,
    registry: &mut Registry<L, A>,
    me: Actor<L, A>,
) -> Unkept<Receipt<A>>
    requires { IsOut registry.old me.number }
    ensures same { hub.new ≡ hub.old }
    ensures began { IsPrefix registry.old.seen hub.new.steps }
    ensures lists { registry.new.lists ≡ slice_set registry.old.lists me.number me.receipts }
    ensures receipts { result.items ≡ me.receipts }
{
    let receipts = hub.take_home(registry, me);
    unkept_trail(&receipts)
}

/// The workers of a run come home. The receipts of each. An `Err` is out of memory.
fn welcome_all<L: Ledger + Named, C: RouterCore<A>, A: Allocator + Copy>(
    alloc: A,
    hub: &mut Hub<C, L, A>,
    registry: &mut Registry<L, A>,
    workers: Vec<Actor<L, A>, A>,
) -> Result<Vec<Unkept<Receipt<A>>, A>, AllocError>
    requires { AreAllOut registry.old.lists workers.items }
    ensures same { hub.new ≡ hub.old }
    ensures lists { IfOk result (λ _. registry.new.lists ≡ with_all_home registry.old.lists workers.items) }
    ensures receipts { IfOk result (λ made. map unkept_list made.items ≡ map receipts_in workers.items) }
{
    let mut made = Vec::with_capacity(alloc, workers.len())?;
    for worker in workers {
        made.push_reserved(welcome(hub, registry, worker));
    }
    Ok(made)
}

/// The house and the workers of a run come home, who are the last. The fault is out of memory, or names the house, where somebody isn't
/// home.
pub(crate) fn come_home<L: Ledger + Named, C: RouterCore<A>, A: Allocator + Copy>(
    alloc: A,
    hub: &mut Hub<C, L, A>,
    registry: Registry<L, A>,
    house: Actor<L, A>,
    workers: Vec<Actor<L, A>, A>,
) -> Result<Homed<A>, RunFault>
    requires { AreAllOut registry.lists (house ∷ workers.items) }
    ensures fault { IfErr result (λ fault. (links workers : ℕ)
        → house.number < links + links + workers + 1 → IsFaultOf links workers fault) }
    ensures same { hub.new ≡ hub.old }
    ensures began { IsPrefix registry.seen hub.new.steps }
    ensures whole { IfOk result (λ homed. AreWhole hub.new.steps homed.lists.items) }
    ensures lists { IfOk result (λ homed. homed.lists.items ≡ with_all_home registry.lists (house ∷ workers.items)) }
    ensures workers { IfOk result (λ homed. map unkept_list homed.workers.items ≡ map receipts_in workers.items) }
    ensures house { IfOk result (λ homed. homed.house.items ≡ house.receipts) }
{
    let mut registry = registry;
    let number = house.number();
    let house = welcome(hub, &mut registry, house);
    let workers = welcome_all(alloc, hub, &mut registry, workers)?;
    if registry.out() != 0 {
        return Err(RunFault::Audit(number));
    }
    let lists = hub.close(registry);
    Ok(Homed {
        workers,
        house,
        lists,
    })
}
