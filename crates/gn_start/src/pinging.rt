//! The Pings that the own servent sends its neighbours.

ghost use Rattle.std.specs.Prelude.{ℕ, Bool, true, IfSome};
ghost use Rattle.gn_start.specs.Faults.{IsArrivingFault};
ghost use Rattle.gn_start.specs.House.{HasOriginated};

use crate::fault::RunFault;
use crate::limits::Limited;
use crate::start::Starter;
use bytes::Bytes;
use gn_actors::Named;
use gn_hub::Actor;
use gn_links::Gate;
use gn_rules::{Event, Refusal, RouterCore};
use gn_stage::Site;
use gn_wire::{Descriptor, Guid, Kind};
use std::alloc::Allocator;
use std::sync::Wait;
use std::sync::ledger::Ledger;
use std::thread::Threads;

/// A Ping of this ID, which reaches the neighbours alone.
fn ping_of<A: Allocator>(id: Guid) -> Descriptor<A> {
    match Descriptor::new(id, Kind::Ping, 1, 0, Bytes::new()) {
        Ok(ping) => ping,
        Err(_) => unreachable!(),
    }
}

/// The fault of a run in which a Ping was refused so, where that stops it. One that the rules refuse isn't sent, and that is all.
fn fault_of(refusal: Refusal) -> Option<RunFault>
    ensures { IfSome result (λ fault. (has_peers : Bool) (links workers : ℕ)
        → IsArrivingFault has_peers links workers fault) }
{
    match refusal {
        Refusal::HistoryFull => Some(RunFault::HistoryFull),
        Refusal::NoMemory => Some(RunFault::NoMemory),
        _ => None,
    }
}

impl<
    's,
    E: 's,
    C: RouterCore<A> + Drop + Send + 's,
    B: Site + Ledger + Limited + Named + Send + Sync + 's,
    G: Gate + Sync + 's,
    A: Allocator + Copy + Send + Sync + 's,
    R: Threads + Wait + Sync + 's,
> Starter<'s, E, C, B, G, A, R> {
    /// The house sends a Ping of this ID to all neighbours. The fault of the run, where it stops for that.
    pub(crate) fn ping(&self, house: &mut Actor<B, A>, id: Guid) -> Option<RunFault>
        ensures house { HasOriginated true house.old house.new }
        ensures fault { IfSome result (λ fault. (has_peers : Bool) (links workers : ℕ)
            → IsArrivingFault has_peers links workers fault) }
    {
        let event = Event::Originate(ping_of(id));
        let answer = self.floor.service.call(self.floor.rt, house, &event);
        drop(event);
        match answer {
            Ok(receipt) => {
                drop(receipt);
                None
            }
            Err(refusal) => {
                let fault = fault_of(refusal);
                if fault.is_some() {
                    self.fail();
                }
                fault
            }
        }
    }
}
