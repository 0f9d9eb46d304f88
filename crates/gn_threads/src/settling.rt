//! What is left of a run once its threads are joined: its stage is drained, and the house routes the rest.

ghost use Rattle.std.specs.Prelude.{◌≡◌, ◌+◌, ◌<◌, ℕ, Bool, None, IfSome};
ghost use Rattle.gn_bodies.specs.Events.{link_events};
ghost use Rattle.gn_start.specs.Faults.{IsArrivingFault};
ghost use Rattle.gn_start.specs.House.{IsHouse};

use crate::house::route_left;
use gn_actors::Named;
use gn_hub::{Actor, Service};
use gn_rules::RouterCore;
use gn_stage::Site;
use gn_start::{Over, RunFault, Stagework};
use std::alloc::{Allocator, Global};
use std::sync::Wait;
use std::sync::ledger::Ledger;

/// What is left of a run: what its threads left, the house, which has routed the rest, and why the run stopped, where it did.
#[derive(Drop)]
pub(crate) struct Left<Rd, W, K, B: Ledger + Named, A: Allocator = Global> {
    pub over: Over<Rd, W, K, B, A>,
    pub house: Actor<B, A>,
    pub fault: Option<RunFault>,
}

/// Drains the stage of a run that wasn't stopped, and routes as the house, which is this actor, what it had left. The fault of the run.
fn settle<B: Site + Ledger + Named, C: RouterCore<A> + Drop, A: Allocator + Copy, R: Wait>(
    rt: &R,
    alloc: A,
    service: &Service<C, B, A>,
    house: &mut Actor<B, A>,
    stagework: Stagework<B, A>,
    stop: Option<RunFault>,
) -> Option<RunFault>
    ensures alone { (house.new.number ≡ house.old.number) × (link_events house.new ≡ link_events house.old) }
    ensures stopped { result ≡ None → stop ≡ None }
    ensures fault { IfSome result (λ fault. (has_peers : Bool) (links workers : ℕ)
        → IfSome stop (λ fault. IsArrivingFault has_peers links workers fault)
        → house.old.number < links + links + workers + 1 → IsArrivingFault has_peers links workers fault) }
{
    if stop.is_some() {
        return stop;
    }
    let number = house.number();
    let Stagework { reception, outlets } = stagework;
    match reception.drain(rt, alloc, outlets) {
        Err(undrained) => Some(RunFault::Stage(undrained.fault)),
        Ok(settled) => match route_left(rt, service, house, settled.drained) {
            Ok(()) => None,
            Err(fault) => Some(RunFault::of_body(fault, number)),
        },
    }
}

/// What is left of a run whose threads left this, with the house, as it is by then.
pub(crate) fn wind_up<
    B: Site + Ledger + Named,
    C: RouterCore<A> + Drop,
    Rd,
    W,
    K: Drop,
    A: Allocator + Copy,
    R: Wait,
>(
    rt: &R,
    alloc: A,
    service: &Service<C, B, A>,
    over: Over<Rd, W, K, B, A>,
    stagework: Stagework<B, A>,
    house: Actor<B, A>,
) -> Left<Rd, W, K, B, A>
    ensures over { result.over ≡ over }
    ensures house { (recalls originates : Bool) (number : ℕ) → IsHouse recalls originates number house
        → IsHouse recalls originates number result.house }
    ensures stopped { result.fault ≡ None → over.fault ≡ None }
    ensures fault { IfSome result.fault (λ fault. (has_peers : Bool) (links workers : ℕ)
        → IfSome over.fault (λ fault. IsArrivingFault has_peers links workers fault)
        → house.number < links + links + workers + 1 → IsArrivingFault has_peers links workers fault) }
{
    let mut house = house;
    let fault = settle(rt, alloc, service, &mut house, stagework, over.fault);
    Left { over, house, fault }
}
