//! The tables of a router.

use gn_kept::SeenTable;
use gn_rules::{Stats, Ticket};
use gn_tables::{Flights, Neighbours, ServentTable};
use std::alloc::{Allocator, Global};

/// What a router remembers, and how much it has counted.
pub(crate) struct Tables<A: Allocator + Copy = Global> {
    pub seen: SeenTable<A>,
    pub servents: ServentTable<A>,
    pub neighbours: Neighbours<A>,
    pub flights: Flights<A>,
    /// The last connection that was made; 0 where there was none.
    pub connected: u32,
    /// The next ticket.
    pub admitted: Ticket,
    pub stats: Stats,
}

impl<A: Allocator + Copy> Drop for Tables<A> {
    fn drop(self) {
        let Tables {
            seen: _,
            servents: _,
            neighbours: _,
            flights: _,
            connected: _,
            admitted: _,
            stats: _,
        } = self;
    }
}
