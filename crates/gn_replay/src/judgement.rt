//! What is found where the events of a history are answered again.

ghost use Rattle.std.specs.Prelude.{◌≡◌};
ghost use Rattle.gn_replay.specs.Judgements.{legality_of};

use gn_rules::{Legality, Refusal, Reply};
use std::alloc::{Allocator, Global};

/// What the rules answer to an event.
pub(crate) type Answer<A> = Result<Reply<A>, Refusal>;

/// A step whose reply isn't the rules' answer.
#[derive(Drop)]
pub(crate) struct WrongStep<A: Allocator = Global> {
    /// How many steps stand before it.
    pub(crate) index: u32,
    /// The number of its line, counted from 1.
    pub(crate) number: u64,
    /// Its line.
    pub(crate) line: Vec<u8, A>,
    /// What the rules answer to its event.
    pub(crate) rules: Answer<A>,
}

/// What is found where the events of a history are answered again.
#[derive(Drop)]
pub(crate) enum Judgement<A: Allocator = Global> {
    /// Each reply is the rules' answer.
    Legal,
    /// The first wrong step.
    WrongAt(WrongStep<A>),
}

impl<A: Allocator> Judgement<A> {
    /// What is found of the history, without the answer.
    pub(crate) fn legality(&self) -> Legality
        ensures { result ≡ legality_of self.now }
    {
        match self {
            Judgement::Legal => Legality::Legal,
            Judgement::WrongAt(wrong) => Legality::WrongAt(wrong.index),
        }
    }
}
