//! How a run begins.

ghost use Rattle.std.specs.Prelude.{◌≡◌, ◌≤◌, ◌^◌, [], true, vec_len, IfOk};
ghost use Rattle.gn_actors.specs.Registry.{registry_state};

use gn_actors::{Named, Numbering, Registry, Unopened};
use gn_hub::Service;
use gn_room::Room;
use gn_rules::RouterCore;
use gn_stage::{Site, Stage};
use gn_start::Opened;
use std::alloc::{AllocError, Allocator, Global};
use std::sync::ledger::Ledger;

/// A run that begins: the lock, and what its threads start from.
#[derive(Drop)]
pub(crate) struct Opening<
    C: RouterCore<A> + Drop,
    B: Site + Ledger + Named,
    A: Allocator + Copy = Global,
> {
    pub service: Service<C, B, A>,
    pub opened: Opened<B, A>,
}

/// Opens a run of this router, which has no steps, with as many workers, at most so many links at once, and actors numbered so, where there
/// is room for its steps.
pub(crate) fn open_run<B: Site + Ledger + Named, C: RouterCore<A> + Drop, A: Allocator + Copy>(
    alloc: A,
    unopened: Unopened<A>,
    stage: Stage<A>,
    core: C,
    room: Room,
    numbering: Numbering,
    workers: u32,
    slots: u32,
) -> Result<Opening<C, B, A>, AllocError>
    requires name { (unopened.blank.name ≡ B.name) × (unopened.steps.name ≡ B.growing) }
    requires parts { (unopened.blank.parts ≡ B.parts) × (2 ^ 33 ≤ B.parts) }
    requires stage { stage ≡ B.stage }
    requires empty { C.steps core ≡ [] }
    ensures registry { IfOk result (λ opening. opening.opened.registry ≡ registry_state [] 0 []) }
    ensures reception { IfOk result (λ opening. (opening.opened.reception.made.intakes ≡ 0)
        × (opening.opened.reception.is_open ≡ true)) }
    ensures workers { IfOk result (λ opening. vec_len opening.opened.outlets ≡ workers) }
    ensures numbering { IfOk result (λ opening. opening.opened.numbering ≡ numbering) }
{
    let (service, all, seen) = Service::<C, B, A>::open(alloc, unopened, core, room, slots)?;
    let (outlets, reception) = stage.open::<B>(alloc, workers)?;
    let opened = Opened {
        registry: Registry::of(all, seen),
        reception,
        outlets,
        numbering,
        slots,
    };
    Ok(Opening { service, opened })
}
