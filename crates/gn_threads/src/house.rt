//! The house: the caller of a run, who routes what the stage had left.

ghost use Rattle.std.specs.Prelude.{◌≡◌, ◌∷◌, [], OnOk};
ghost use Rattle.gn_bodies.specs.Events.{link_events};
ghost use Rattle.gn_threads.specs.House.{HasRouted};

use gn_actors::Named;
use gn_bodies::BodyFault;
use gn_hub::{Actor, Service};
use gn_payload::Checked;
use gn_rules::RouterCore;
use gn_stage::Job;
use std::alloc::Allocator;
use std::sync::Wait;
use std::sync::ledger::Ledger;

/// Routes a job, as the house.
fn route_left_job<C: RouterCore<A> + Drop, L: Ledger + Named, A: Allocator + Copy, R: Wait>(
    rt: &R,
    service: &Service<C, L, A>,
    me: &mut Actor<L, A>,
    job: Job<A>,
) -> Result<(), BodyFault>
    ensures routed { OnOk result (HasRouted (job ∷ []) me.old me.new) }
    ensures alone { (me.new.number ≡ me.old.number) × (link_events me.new ≡ link_events me.old) }
{
    let Job { ticket, descriptor } = job;
    let checked = Checked::new(descriptor);
    let answer = service.route(rt, me, ticket, &checked);
    drop(checked);
    match answer {
        Ok(receipt) => {
            drop(receipt);
            Ok(())
        }
        Err(refusal) => Err(BodyFault::from(refusal)),
    }
}

/// Routes each of these jobs, in order. A job that is refused its route makes no step; the house goes on with the next one,
/// and ends as Refused.
pub(crate) fn route_left<C: RouterCore<A> + Drop, L: Ledger + Named, A: Allocator + Copy, R: Wait>(
    rt: &R,
    service: &Service<C, L, A>,
    me: &mut Actor<L, A>,
    jobs: Vec<Job<A>, A>,
) -> Result<(), BodyFault>
    ensures routed { OnOk result (HasRouted jobs.items me.old me.new) }
    ensures alone { (me.new.number ≡ me.old.number) × (link_events me.new ≡ link_events me.old) }
{
    let mut is_refused = false;
    for job in jobs {
        if let Err(fault) = route_left_job(rt, service, me, job) {
            if fault.is_stop() {
                return Err(fault);
            }
            is_refused = true;
        }
    }
    if is_refused {
        return Err(BodyFault::Refused);
    }
    Ok(())
}
