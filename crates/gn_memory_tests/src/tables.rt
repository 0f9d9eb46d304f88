//! The four tables: what is kept, learned and added, where a table is empty, where it grows and where it forgets.

ghost use Rattle.std.specs.Prelude.{◌≡◌, ◌<◌, None};
ghost use Rattle.std.specs.FinMap as map;

use crate::growths::meet;
use gn_fixtures::{Call, Failure, Heap, Refused, Turn, Turns, growths, ping};
use gn_kept::SeenTable;
use gn_tables::{Flights, Neighbours, ServentTable};
use gn_wire::{Descriptor, Guid, Kind};
use std::alloc::{Allocator, Global};
use std::test::Fail;

/// An ID of one byte, sixteen times.
fn id(byte: u8) -> Guid {
    Guid([byte; 16])
}

/// What is remembered: a descriptor, or a servent.
#[derive(Clone, Copy)]
enum Remembered {
    Ping,
    Servent,
}

/// What is remembered, by its ID, with its source; and the sources of the first, second and third ID then.
type Entry = (Remembered, u8, u32, [Option<u32>; 3]);

/// How many entries are remembered, one after another.
const ENTRY_COUNT: usize = 8;

/// Where two are remembered, the third makes the first forgotten. A servent that was known comes first again.
const ENTRIES: [Entry; ENTRY_COUNT] = [
    (Remembered::Ping, 0xa1, 1, [Some(1), None, None]),
    (Remembered::Ping, 0xa2, 2, [Some(1), Some(2), None]),
    (Remembered::Ping, 0xa3, 1, [None, Some(2), Some(1)]),
    (Remembered::Ping, 0xa1, 2, [Some(2), None, Some(1)]),
    (Remembered::Servent, 0xa1, 2, [Some(2), None, None]),
    (Remembered::Servent, 0xa2, 2, [Some(2), Some(2), None]),
    (Remembered::Servent, 0xa1, 3, [Some(3), Some(2), None]),
    (Remembered::Servent, 0xa3, 2, [Some(3), None, Some(2)]),
];

/// The growths that each meets.
const GROWTHS: [u64; ENTRY_COUNT] = [4, 0, 0, 0, 5, 1, 0, 0];

/// The entry of this number, counted from 0.
fn entry_at(number: usize) -> Option<Entry> {
    ENTRIES.get(number).copied()
}

/// Both tables, each with room for two.
#[derive(Drop)]
struct Both<A: Allocator + Copy> {
    seen: SeenTable<A>,
    servents: ServentTable<A>,
}

impl<A: Allocator + Copy> Both<A> {
    /// Where what has this ID came from, if it is remembered.
    fn source(&self, kept: Remembered, byte: u8) -> Option<u32> {
        match kept {
            Remembered::Ping => self.seen.source(Kind::Ping, &id(byte)),
            Remembered::Servent => self.servents.route(&id(byte)),
        }
    }

    /// The sources of the first, second and third ID.
    fn sources(&self, kept: Remembered) -> [Option<u32>; 3] {
        [
            self.source(kept, 0xa1),
            self.source(kept, 0xa2),
            self.source(kept, 0xa3),
        ]
    }

    /// Remembers an entry: the sources then.
    fn remember(&mut self, entry: Entry) -> Result<[Option<u32>; 3], Failure> {
        let (kept, byte, from, _) = entry;
        let id = id(byte);
        let kept_now = match kept {
            Remembered::Servent => self.servents.learn(id, from),
            Remembered::Ping => match self.seen.source(Kind::Ping, &id) {
                None => self.seen.keep(Kind::Ping, id, from),
                Some(_) => return Err(Failure::Other),
            },
        };
        match kept_now {
            Ok(()) => Ok(self.sources(kept)),
            Err(_) => Err(Failure::NoMemory),
        }
    }

    /// Whether the entries of these numbers are remembered, each with the sources that it names.
    fn goes_on(&mut self, from: usize, to: usize) -> bool {
        for number in from..to {
            match entry_at(number) {
                Some(entry) if self.remember(entry) == Ok(entry.3) => {}
                _ => return false,
            }
        }
        true
    }
}

/// Remembers the entry of this number, after those before it. The sources are asked for beside it, which takes no memory.
#[derive(Clone, Copy)]
struct Remembers(usize);

/// Each entry's number.
const REMEMBERED: [Remembers; ENTRY_COUNT] = [
    Remembers(0),
    Remembers(1),
    Remembers(2),
    Remembers(3),
    Remembers(4),
    Remembers(5),
    Remembers(6),
    Remembers(7),
];

impl<A: Allocator + Copy> Call<A> for Remembers {
    type Subject = Both<A>;

    type Answer = [Option<u32>; 3];

    fn subject(&self, alloc: A) -> Result<Both<A>, Fail> {
        let mut both = Both {
            seen: SeenTable::new(alloc, 2)?,
            servents: ServentTable::new(alloc, 2)?,
        };
        if both.goes_on(0, self.0) {
            Ok(both)
        } else {
            Err("the entries before".into())
        }
    }

    fn make(&self, both: &mut Both<A>) -> Result<[Option<u32>; 3], Failure> {
        match entry_at(self.0) {
            Some(entry) => both.remember(entry),
            None => Err(Failure::Other),
        }
    }

    fn is_unchanged(&self, both: &Both<A>, other: &Both<A>) -> bool {
        both.sources(Remembered::Ping) == other.sources(Remembered::Ping)
            && both.sources(Remembered::Servent) == other.sources(Remembered::Servent)
    }

    /// The entries after it follow, so that one which was half kept before a refusal shows.
    fn is_right(&self, both: &mut Both<A>, answer: &[Option<u32>; 3]) -> bool {
        match entry_at(self.0) {
            Some(entry) => {
                *answer == entry.3 && both.goes_on(self.0.saturating_add(1), ENTRY_COUNT)
            }
            None => false,
        }
    }
}

/// Whether each entry meets its growths.
fn entries_meet<A: Allocator + Copy>(out: Global, heap: &Heap, alloc: A) -> Result<(), Fail> {
    meet(out, heap, alloc, &REMEMBERED, &GROWTHS)
}

#[test]
fn what_is_remembered(rt: HostRuntime) -> Result<(), Fail> {
    let heap = Heap::new(rt.alloc());
    entries_meet(rt.alloc(), &heap, &heap)
}

/// This turn, where all is right.
fn turn_if(is_right: bool, turn: Turn) -> Turn {
    if is_right { turn } else { Turn::Wrong }
}

/// Adds a first neighbour. After out of memory it is added again.
struct AddsNeighbour;

impl<A: Allocator + Copy> Turns<A> for AddsNeighbour {
    fn turn(&self, heap: &Heap, alloc: A, refused: Refused) -> Result<Turn, Fail> {
        heap.refuse_none();
        let mut neighbours = Neighbours::new(alloc, 4, 1)?;
        refused.begin(heap);
        let added = neighbours.add(1);
        let has_refused = heap.has_refused();
        heap.refuse_none();
        let turn = match added {
            Ok(()) => turn_if(!has_refused, Turn::Answered),
            Err(_) => {
                let is_unchanged = neighbours.len() == 0;
                let is_added = neighbours.add(1).is_ok();
                turn_if(has_refused && is_unchanged && is_added, Turn::Refused)
            }
        };
        Ok(turn_if(neighbours.waiting(1) == Some(0), turn))
    }
}

/// Nothing in flight, and room for one.
pub(crate) fn none_in_flight<A: Allocator + Copy>(alloc: A) -> Flights<A>
    ensures few { map.len result.flights < result.most }
    ensures fresh { map.get result.flights 0 ≡ None }
{
    Flights::new(alloc, 1)
}

/// Whether the flight of this Ping is there, and no other.
fn flies_alone<A: Allocator + Copy>(flights: &Flights<A>, wanted: &Descriptor<A>) -> bool {
    match flights.get(0) {
        Some(flight) => {
            flights.len() == 1 && flight.from == 1 && flight.descriptor.is_same(wanted)
        }
        None => false,
    }
}

/// Adds a first flight. After out of memory it is added again.
fn add_flight<A: Allocator + Copy>(
    heap: &Heap,
    flights: &mut Flights<A>,
    first: Descriptor<A>,
    again: Descriptor<A>,
    refused: Refused,
) -> Turn
    requires few { map.len flights.old.flights < flights.old.most }
    requires fresh { map.get flights.old.flights 0 ≡ None }
{
    refused.begin(heap);
    let added = flights.add(0, 1, first);
    let has_refused = heap.has_refused();
    heap.refuse_none();
    match added {
        Ok(()) => turn_if(!has_refused, Turn::Answered),
        Err(_) => {
            let is_unchanged = flights.len() == 0 && flights.get(0).is_none();
            let is_added = flights.add(0, 1, again).is_ok();
            turn_if(has_refused && is_unchanged && is_added, Turn::Refused)
        }
    }
}

/// Adds a first flight.
struct AddsFlight;

impl<A: Allocator + Copy> Turns<A> for AddsFlight {
    fn turn(&self, heap: &Heap, alloc: A, refused: Refused) -> Result<Turn, Fail> {
        heap.refuse_none();
        let mut flights = none_in_flight(alloc);
        let wanted = ping(0xa1, 7, 0)?;
        let turn = add_flight(heap, &mut flights, wanted.copy()?, wanted.copy()?, refused);
        Ok(turn_if(flies_alone(&flights, &wanted), turn))
    }
}

/// The growths that adding a neighbour meets, and adding a flight.
fn growths_of_adding<A: Allocator + Copy>(heap: &Heap, alloc: A) -> Result<[u64; 2], Fail> {
    Ok([
        growths(heap, alloc, &AddsNeighbour)?,
        growths(heap, alloc, &AddsFlight)?,
    ])
}

#[test]
fn what_is_added(rt: HostRuntime) -> Result<(), Fail> {
    let heap = Heap::new(rt.alloc());
    assert_eq!(rt; growths_of_adding(&heap, &heap)?, [1, 8]);
    Ok(())
}
