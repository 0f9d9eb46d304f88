//! What a worker passes before it routes, and what learns what the threads of a run do.

use crate::place::Place;
use std::sync::Wait;

/// A step of a run that the thread of a link made.
#[derive(Clone, Copy, Debug)]
pub enum Made {
    /// The link's reader connected it.
    Connected,
    /// As many connections were live as may be, so that the link isn't connected.
    TooMany,
    /// A descriptor of the link was admitted, with this ticket.
    Admitted(u32),
    /// A descriptor of the link was refused at a threshold, that of its own connection or that of all.
    Refused { own: bool },
    /// A descriptor of the link was routed by the link's reader.
    Routed,
    /// A packet was taken to be written to the link.
    Taken,
    /// The link's connection was closed, by its reader or its writer.
    Closed,
}

/// A thread of a link.
#[derive(Clone, Copy, Debug)]
pub enum Half {
    Reader,
    Writer,
}

/// Where a worker can be held before it routes a job, and what learns what the threads of a run do. None of them holds a lock
/// meanwhile.
pub trait Gate {
    /// Returns once this worker may route the job of this ticket. Where it isn't refused, its route is a step.
    fn enter<R: Wait>(&self, rt: &R, worker: u32, ticket: u32);

    /// Learns of a step of this link's threads once it was made, and of an admission before its job can be taken. With the
    /// routes of the workers these are all steps that the threads of a run make.
    fn made(&self, _place: Place, _step: Made) {}

    /// Learns that a thread of this link is at its end.
    fn ended(&self, _place: Place, _half: Half) {}

    /// Learns that a thread found that the run has failed: its history is full, or it is out of memory.
    fn failed(&self) {}
}

/// A gate that holds nobody.
#[derive(Clone, Copy, Debug)]
pub struct NoGate;

impl Gate for NoGate {
    fn enter<R: Wait>(&self, _rt: &R, _worker: u32, _ticket: u32) {}
}
