//! A call made where each of its growths is refused in turn.

use crate::Refusing;
use std::alloc::{Allocator, Global};
use std::test::Fail;

/// The allocator of what is called.
pub type Heap = Refusing<Global>;

/// Which growths are refused.
#[derive(Clone, Copy, Debug)]
pub enum Refused {
    /// The one of this number, counted from 0.
    Only(u64),
    /// That one and each later one.
    From(u64),
}

impl Refused {
    /// From now on the heap refuses these growths.
    pub fn begin(self, heap: &Heap) {
        match self {
            Refused::Only(number) => heap.refuse_only(number),
            Refused::From(number) => heap.refuse_from(number),
        }
    }
}

/// Why a call wasn't answered.
#[derive(Clone, Copy, Debug, PartialEq, Eq)]
pub enum Failure {
    /// It is out of memory.
    NoMemory,
    /// Anything else.
    Other,
}

/// How a call went.
#[derive(Clone, Copy, Debug, PartialEq, Eq)]
pub enum Turn {
    /// It met no refusal, and gave its answer.
    Answered,
    /// It met one, answered that it is out of memory, and left all as it was; made again, it gave its answer.
    Refused,
    /// Anything else.
    Wrong,
}

/// A call that can be out of memory, with all that it is made on.
pub trait Turns<A: Allocator> {
    /// Makes the call on something new, where these growths of the heap are refused. `alloc` is the heap.
    fn turn(&self, heap: &Heap, alloc: A, refused: Refused) -> Result<Turn, Fail>;
}

/// How many growths the call meets. Each is refused in turn, alone and with all later ones, until none is. An `Err` says at
/// which of them the call went wrong. `alloc` is the heap.
pub fn growths<A: Allocator + Copy, T: Turns<A>>(
    heap: &Heap,
    alloc: A,
    call: &T,
) -> Result<u64, Fail> {
    for number in 0..10_000 {
        let alone = call.turn(heap, alloc, Refused::Only(number))?;
        let with_later = call.turn(heap, alloc, Refused::From(number))?;
        match (alone, with_later) {
            (Turn::Refused, Turn::Refused) => {}
            (Turn::Answered, Turn::Answered) => return Ok(number),
            _ => return Err(Fail::new(format_args!("growth {number}: {alone:?}, {with_later:?}"))),
        }
    }
    Err("a call with no end of growths".into())
}

/// A call whose subject, which it is made on, is a value.
pub trait Call<A: Allocator> {
    /// What the call is made on.
    type Subject: Drop;

    /// What the call returns where it has what it asks for.
    type Answer: Drop;

    /// What the call is made on, new.
    fn subject(&self, alloc: A) -> Result<Self::Subject, Fail>;

    /// Makes the call.
    fn make(&self, subject: &mut Self::Subject) -> Result<Self::Answer, Failure>;

    /// Whether the subject is still what another one, on which no call was made, is.
    fn is_unchanged(&self, subject: &Self::Subject, other: &Self::Subject) -> bool;

    /// Whether this is the right answer, and the subject what it leaves.
    fn is_right(&self, subject: &mut Self::Subject, answer: &Self::Answer) -> bool;
}

/// Makes a call once, and where it met a refusal once more.
fn turn_of<A: Allocator + Copy, T: Call<A>>(
    call: &T,
    heap: &Heap,
    alloc: A,
    refused: Refused,
) -> Result<Turn, Fail> {
    heap.refuse_none();
    let mut subject = call.subject(alloc)?;
    refused.begin(heap);
    let answer = call.make(&mut subject);
    let has_refused = heap.has_refused();
    heap.refuse_none();
    let (answer, turn) = match answer {
        Ok(answer) if !has_refused => (answer, Turn::Answered),
        Err(Failure::NoMemory) if has_refused => {
            let other = call.subject(alloc)?;
            if !call.is_unchanged(&subject, &other) {
                return Ok(Turn::Wrong);
            }
            match call.make(&mut subject) {
                Ok(answer) => (answer, Turn::Refused),
                Err(_) => return Ok(Turn::Wrong),
            }
        }
        _ => return Ok(Turn::Wrong),
    };
    if call.is_right(&mut subject, &answer) {
        Ok(turn)
    } else {
        Ok(Turn::Wrong)
    }
}

/// A call whose subject is a value, made on a new one.
#[derive(Drop)]
struct OnNew<'a, T> {
    call: &'a T,
}

impl<'a, A: Allocator + Copy, T: Call<A>> Turns<A> for OnNew<'a, T> {
    fn turn(&self, heap: &Heap, alloc: A, refused: Refused) -> Result<Turn, Fail> {
        turn_of(self.call, heap, alloc, refused)
    }
}

/// As `growths`, of a call whose subject is a value.
pub fn growths_of_call<A: Allocator + Copy, T: Call<A>>(
    heap: &Heap,
    alloc: A,
    call: &T,
) -> Result<u64, Fail> {
    growths(heap, alloc, &OnNew { call })
}
