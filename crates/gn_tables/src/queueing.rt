//! A packet that a reply sends, put after those that wait.

ghost use Rattle.std.specs.Prelude.{◌≡◌, true, if◌then◌else◌};
ghost use Rattle.gn_tables.specs.Outputs.{has_room, pushed};

use crate::neighbours::Neighbours;
use gn_rules::Sending;
use std::alloc::Allocator;

/// Puts a packet after those that wait, where it is queued. The connection is looked for at the place `near` first; the place
/// after its own is given, where that of the next send is likely.
pub fn queue_one<A: Allocator + Copy>(
    neighbours: &mut Neighbours<A>,
    near: usize,
    sending: Sending<A>,
) -> usize
    requires { sending.queued ≡ true → has_room sending.to neighbours.old ≡ true }
    ensures { neighbours.new
        ≡ (if sending.queued then pushed sending.to sending.packet neighbours.old else neighbours.old) }
{
    let place = neighbours.place_near(near, sending.to);
    if sending.queued {
        match neighbours.push_near(place, sending.to, sending.packet) {
            Ok(()) => {}
            Err(_) => unreachable!(),
        }
    }
    place.saturating_add(1)
}
