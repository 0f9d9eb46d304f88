//! What is made anew: nothing stands of it where it isn't.

use crate::growths::meet;
use gn_fixtures::{Call, Failure, Heap, usual};
use gn_frames::Reassembler;
use gn_kept::SeenTable;
use gn_rules::{Config, FreshRouter};
use gn_search::PlainRouter;
use gn_table_router::TableRouter;
use gn_tables::{Flights, Neighbours, ServentTable};
use std::alloc::{AllocError, Allocator, Global};
use std::test::Fail;

/// What is made. That it is empty is proved.
#[derive(Clone, Copy)]
enum Made {
    Reassembler,
    TableRouter,
    PlainRouter,
    SeenTable,
    ServentTable,
    Neighbours,
    Flights,
}

/// Each of them once.
const MADE: [Made; 7] = [
    Made::Reassembler,
    Made::TableRouter,
    Made::PlainRouter,
    Made::SeenTable,
    Made::ServentTable,
    Made::Neighbours,
    Made::Flights,
];

/// The growths that each meets. The table router makes three of its tables and room for neighbours.
const GROWTHS: [u64; 7] = [0, 4, 0, 1, 2, 1, 0];

/// The failure of what answers out of memory alone.
fn failure_of<T: Drop>(made: Result<T, AllocError>) -> Result<(), Failure> {
    match made {
        Ok(_made) => Ok(()),
        Err(_) => Err(Failure::NoMemory),
    }
}

impl<A: Allocator + Copy> Call<A> for Made {
    type Subject = (A, Config);

    type Answer = ();

    fn subject(&self, alloc: A) -> Result<(A, Config), Fail> {
        Ok((alloc, usual(100)?))
    }

    fn make(&self, subject: &mut (A, Config)) -> Result<(), Failure> {
        let (alloc, config) = (subject.0, &subject.1);
        match self {
            Made::Reassembler => failure_of(Reassembler::new(alloc)),
            Made::TableRouter => failure_of(TableRouter::<A>::make(alloc, config)),
            Made::PlainRouter => failure_of(PlainRouter::<A>::make(alloc, config)),
            Made::SeenTable => failure_of(SeenTable::new(alloc, 64)),
            Made::ServentTable => failure_of(ServentTable::new(alloc, 64)),
            Made::Neighbours => failure_of(Neighbours::new(alloc, 4, 8)),
            Made::Flights => failure_of(Ok(Flights::new(alloc, 8))),
        }
    }

    fn is_unchanged(&self, _subject: &(A, Config), _other: &(A, Config)) -> bool {
        true
    }

    fn is_right(&self, _subject: &mut (A, Config), _answer: &()) -> bool {
        true
    }
}

/// Whether each meets its growths.
fn made_meet<A: Allocator + Copy>(out: Global, heap: &Heap, alloc: A) -> Result<(), Fail> {
    meet(out, heap, alloc, &MADE, &GROWTHS)
}

#[test]
fn what_is_made(rt: HostRuntime) -> Result<(), Fail> {
    let heap = Heap::new(rt.alloc());
    made_meet(rt.alloc(), &heap, &heap)
}
