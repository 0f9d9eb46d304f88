//! What is remembered of a flight that is routed.

ghost use Rattle.std.specs.Prelude.{◌≡◌, OnErr, OnOk};
ghost use Rattle.gn_kept.specs.Remembered.{with_kept};
ghost use Rattle.gn_tables.specs.Routed.{CanRemember, carried, with_heard};

use crate::flights::Flight;
use crate::servents::ServentTable;
use gn_kept::SeenTable;
use gn_payload::servent_of_hit;
use gn_rules::{Reply, is_query_hit};
use std::alloc::{AllocError, Allocator};

/// Keeps the key of a request that was routed, or the servent of an answer. An `Err` is out of memory, and changes
/// nothing.
pub fn remember<A: Allocator + Copy>(
    seen: &mut SeenTable<A>,
    servents: &mut ServentTable<A>,
    flight: &Flight<A>,
    reply: &Reply<A>,
) -> Result<(), AllocError>
    requires { CanRemember reply.now (carried flight.now) seen.old }
    ensures seen { OnOk result (seen.new ≡ with_kept reply.now (carried flight.now) seen.old) }
    ensures servents { OnOk result (servents.new ≡ with_heard reply.now (carried flight.now) servents.old) }
    ensures err { OnErr result ((seen.new ≡ seen.old) × (servents.new ≡ servents.old)) }
{
    let descriptor = &flight.descriptor;
    seen.keep_routed(flight.from, descriptor, reply)?;
    if is_query_hit(descriptor.kind()) && reply.is_routed() {
        return servents.learn(servent_of_hit(descriptor.payload().as_slice()), flight.from);
    }
    Ok(())
}
