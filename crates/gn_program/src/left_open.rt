//! What a run that was cut has left open.

use gn_rules::{ConnId, Event, Reply, Ticket};
use std::alloc::{AllocError, Allocator, Global};

/// The connections that are live, and the tickets that are in flight, the earliest first.
#[derive(Drop)]
pub(crate) struct LeftOpen {
    connections: Vec<ConnId>,
    tickets: Vec<Ticket>,
}

/// Takes this number out, where it is there.
fn take_out(numbers: &mut Vec<u32>, number: u32) {
    if let Some(place) = numbers.iter().position(|n| *n == number) {
        numbers.remove(place);
    }
}

/// Takes the first number out, if there is one.
fn take_first(numbers: &mut Vec<u32>) -> Option<u32> {
    if numbers.is_empty() {
        None
    } else {
        Some(numbers.remove(0))
    }
}

impl LeftOpen {
    /// Nothing yet.
    pub(crate) fn new(alloc: Global) -> Self {
        LeftOpen {
            connections: Vec::new(alloc),
            tickets: Vec::new(alloc),
        }
    }

    /// This step was made. An `Err` is out of memory.
    pub(crate) fn add<A: Allocator>(
        &mut self,
        event: &Event<A>,
        reply: &Reply<A>,
    ) -> Result<(), AllocError> {
        match (event, reply) {
            (Event::Connect, Reply::Connected(c)) => self.connections.push(*c)?,
            (Event::Admit(_, _), Reply::Admitted(t)) => self.tickets.push(*t)?,
            (Event::Close(c), _) => take_out(&mut self.connections, *c),
            (Event::Route(t), _) => take_out(&mut self.tickets, *t),
            _ => {}
        }
        Ok(())
    }

    /// The next event that ends something that is open: each connection is closed, and then each descriptor in flight routed.
    pub(crate) fn next_end<A: Allocator>(&mut self) -> Option<Event<A>> {
        if let Some(connection) = take_first(&mut self.connections) {
            return Some(Event::Close(connection));
        }
        Some(Event::Route(take_first(&mut self.tickets)?))
    }
}
