//! The list of the tickets in flight.

ghost use Rattle.std.specs.Prelude.{◌≡◌, ◌<◌, IfSome, OnErr, OnOk, filter, not, option_map, vec_capacity, vec_len};
ghost use Rattle.gn_rules.specs.Flight.{flying_after, is_route};

use gn_rules::{Event, Reply, Ticket};
use std::alloc::{AllocError, Allocator};

/// Takes out the ticket that an event routes.
fn drop_routed<A: Allocator + Copy>(flying: &mut Vec<Ticket, A>, event: &Event<A>)
    ensures items { flying.new.items ≡ filter (λ t. not (is_route t event.now)) flying.old.items }
    ensures room { vec_len flying.old < vec_capacity flying.old → vec_len flying.new < vec_capacity flying.new }
{
    flying.retain(|t| !event.routes(*t));
}

/// Takes out the ticket that an event routes, and adds the one that its reply gives.
fn follow<A: Allocator + Copy>(flying: &mut Vec<Ticket, A>, event: &Event<A>, reply: &Reply<A>)
    requires { vec_len flying.old < vec_capacity flying.old }
    ensures { flying.new.items ≡ flying_after event.now reply.now flying.old.items }
{
    drop_routed(flying, event);
    if let Some(t) = reply.admitted() {
        flying.push_reserved(t);
    }
}

/// Does the same to a list that is kept, in room that is made for it. An `Err` is out of memory, and changes nothing.
pub(crate) fn follow_if_listed<A: Allocator + Copy>(
    flying: &mut Option<Vec<Ticket, A>>,
    event: &Event<A>,
    reply: &Reply<A>,
) -> Result<(), AllocError>
    ensures ok { OnOk result (option_map (λ list. list.items) flying.new
        ≡ option_map (λ list. flying_after event.now reply.now list.items) flying.old) }
    ensures err { OnErr result (option_map (λ list. list.items) flying.new
        ≡ option_map (λ list. list.items) flying.old) }
{
    if let Some(flying) = flying {
        flying.reserve(1)?;
        follow(flying, event, reply);
    }
    Ok(())
}
