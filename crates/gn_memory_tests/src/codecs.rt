//! What writes bytes, and what puts descriptors together from pieces.

use crate::growths::meet;
use bytes::Bytes;
use gn_fixtures::{Call, Failure, Heap, OWN_PONG};
use gn_frames::{FeedRefusal, Reassembler};
use gn_payload::{
    HitResult, Pong, Push, WriteRefusal, write_hit, write_pong, write_push, write_query,
};
use gn_wire::{Descriptor, Guid, Kind};
use std::alloc::{AllocError, Allocator, Global};
use std::test::Fail;

/// What is appended to a vector.
#[derive(Clone, Copy)]
enum Written {
    OwnPong,
    Pong,
    Push,
    Query,
    Hit,
}

/// Appends to a vector that holds other bytes and is full.
#[derive(Clone, Copy)]
struct Writes {
    written: Written,
    /// What the vector holds then.
    held: &'static [u8],
}

/// Each of them once, with the bytes worked out by hand.
const WRITES: [Writes; 5] = [
    Writes {
        written: Written::OwnPong,
        held: b"before\xa1\xa1\xa1\xa1\xa1\xa1\xa1\xa1\xa1\xa1\xa1\xa1\xa1\xa1\xa1\xa1\x01\x01\0\x0e\0\0\0\xca\x18\x7f\0\0\x01\x05\0\0\0\x28\0\0\0",
    },
    Writes {
        written: Written::Pong,
        held: b"before\x01\0\x7f\0\0\x02\x01\0\0\0\x02\0\0\0",
    },
    Writes {
        written: Written::Push,
        held: b"before\x5e\x5e\x5e\x5e\x5e\x5e\x5e\x5e\x5e\x5e\x5e\x5e\x5e\x5e\x5e\x5e\x01\0\0\0\x7f\0\0\x01\xca\x18",
    },
    Writes {
        written: Written::Query,
        held: b"before\0\0x\0",
    },
    Writes {
        written: Written::Hit,
        held: b"before\x02\xca\x18\x7f\0\0\x02\x1c\0\0\0\x01\0\0\0\x0a\0\0\0a\0\0\x02\0\0\0\x14\0\0\0b\0z\0LIME\x5e\x5e\x5e\x5e\x5e\x5e\x5e\x5e\x5e\x5e\x5e\x5e\x5e\x5e\x5e\x5e",
    },
];

/// The growths that each meets: a descriptor grows for its header and for its payload.
const WRITTEN: [u64; 5] = [2, 1, 1, 1, 1];

/// The servent of the Push and of the Query Hit.
const SERVENT: Guid = Guid([0x5e; 16]);

/// The Pong.
const PONG: Pong = Pong {
    port: 1,
    ip: [127, 0, 0, 2],
    files: 1,
    kbytes: 2,
};

/// The Push.
const PUSH: Push = Push {
    servent: SERVENT,
    file: 1,
    ip: [127, 0, 0, 1],
    port: 6346,
};

/// Appends two results, one without extra bytes and one with.
fn write_two_results<A: Allocator>(out: &mut Vec<u8, A>) -> Result<(), WriteRefusal> {
    let results = [
        HitResult {
            file: 1,
            size: 10,
            name: b"a",
            extra: b"",
        },
        HitResult {
            file: 2,
            size: 20,
            name: b"b",
            extra: b"z",
        },
    ];
    write_hit(6346, [127, 0, 0, 2], 28, &results, b"LIME", SERVENT, out)
}

/// What came of a write that is out of memory or well.
fn answer(written: Result<(), AllocError>) -> Result<(), Failure> {
    match written {
        Ok(()) => Ok(()),
        Err(_) => Err(Failure::NoMemory),
    }
}

/// What came of a write that may be refused.
fn answer_of(written: Result<(), WriteRefusal>) -> Result<(), Failure> {
    match written {
        Ok(()) => Ok(()),
        Err(WriteRefusal::NoMemory) => Err(Failure::NoMemory),
        Err(_) => Err(Failure::Other),
    }
}

/// Appends the own Pong, as a descriptor.
fn write_own_pong<A: Allocator>(out: &mut Vec<u8, A>) -> Result<(), Failure> {
    let payload: Bytes<A> = Bytes::from_static(&OWN_PONG[23..]);
    let Ok(pong) = Descriptor::new(Guid([0xa1; 16]), Kind::Pong, 1, 0, payload) else {
        return Err(Failure::Other);
    };
    let written = pong.write_to(out);
    drop(pong);
    answer(written)
}

impl<A: Allocator> Call<A> for Writes {
    type Subject = Vec<u8, A>;

    type Answer = ();

    fn subject(&self, alloc: A) -> Result<Vec<u8, A>, Fail> {
        Ok(Vec::from_slice(alloc, b"before")?)
    }

    fn make(&self, out: &mut Vec<u8, A>) -> Result<(), Failure> {
        match self.written {
            Written::OwnPong => write_own_pong(out),
            Written::Pong => answer(write_pong(&PONG, out)),
            Written::Push => answer(write_push(&PUSH, out)),
            Written::Query => answer_of(write_query(0, b"x", b"", out)),
            Written::Hit => answer_of(write_two_results(out)),
        }
    }

    fn is_unchanged(&self, out: &Vec<u8, A>, other: &Vec<u8, A>) -> bool {
        out.as_slice() == other.as_slice()
    }

    fn is_right(&self, out: &mut Vec<u8, A>, _answer: &()) -> bool {
        out.as_slice() == self.held
    }
}

/// Whether each meets its growths.
fn writes_meet<A: Allocator + Copy>(out: Global, heap: &Heap, alloc: A) -> Result<(), Fail> {
    meet(out, heap, alloc, &WRITES, &WRITTEN)
}

#[test]
fn what_is_written(rt: HostRuntime) -> Result<(), Fail> {
    let heap = Heap::new(rt.alloc());
    writes_meet(rt.alloc(), &heap, &heap)
}

/// A stream of a Ping, the same Ping, a Query and two Pings.
const STREAM: &[u8] = b"\
    \xa1\xa1\xa1\xa1\xa1\xa1\xa1\xa1\xa1\xa1\xa1\xa1\xa1\xa1\xa1\xa1\0\x07\0\0\0\0\0\
    \xa1\xa1\xa1\xa1\xa1\xa1\xa1\xa1\xa1\xa1\xa1\xa1\xa1\xa1\xa1\xa1\0\x07\0\0\0\0\0\
    \xb2\xb2\xb2\xb2\xb2\xb2\xb2\xb2\xb2\xb2\xb2\xb2\xb2\xb2\xb2\xb2\x80\x07\0\x04\0\0\0\0\0x\0\
    \xa2\xa2\xa2\xa2\xa2\xa2\xa2\xa2\xa2\xa2\xa2\xa2\xa2\xa2\xa2\xa2\0\x07\0\0\0\0\0\
    \xa3\xa3\xa3\xa3\xa3\xa3\xa3\xa3\xa3\xa3\xa3\xa3\xa3\xa3\xa3\xa3\0\x07\0\0\0\0\0";

/// Feeds one piece of the stream to a reassembler that has had those before it: where the piece begins and ends, and where the
/// descriptors end that are whole before it and after it.
#[derive(Clone, Copy)]
struct Feeds(usize, usize, usize, usize);

/// The Ping whole; then 22 bytes of it, and the last; the header of the Query, and its payload byte by byte; both Pings.
const PIECES: [Feeds; 9] = [
    Feeds(0, 23, 0, 23),
    Feeds(23, 45, 23, 23),
    Feeds(45, 46, 23, 46),
    Feeds(46, 69, 46, 46),
    Feeds(69, 70, 46, 46),
    Feeds(70, 71, 46, 46),
    Feeds(71, 72, 46, 46),
    Feeds(72, 73, 46, 73),
    Feeds(73, 119, 73, 119),
];

/// The growths that each meets.
const FED: [u64; 9] = [3, 3, 4, 3, 1, 0, 0, 3, 3];

/// A reassembler, what it says is pending, and the allocator of what is compared with its answers.
#[derive(Drop)]
struct Feeding<A: Allocator> {
    alloc: A,
    frames: Reassembler<A>,
    pending: usize,
}

/// The bytes of the stream from one place to another.
fn between(from: usize, to: usize) -> &'static [u8] {
    STREAM.get(from..to).unwrap_or(b"")
}

impl<A: Allocator + Copy> Call<A> for Feeds {
    type Subject = Feeding<A>;

    type Answer = Vec<Descriptor<A>, A>;

    fn subject(&self, alloc: A) -> Result<Feeding<A>, Fail> {
        let mut frames = Reassembler::new(alloc)?;
        for Feeds(from, to, _, _) in &PIECES {
            if *to <= self.0 && frames.feed(between(*from, *to)).is_err() {
                return Err("the pieces before".into());
            }
        }
        let pending = frames.pending();
        Ok(Feeding {
            alloc,
            frames,
            pending,
        })
    }

    /// How many bytes are left is asked for beside the descriptors, and takes no memory.
    fn make(&self, feeding: &mut Feeding<A>) -> Result<Vec<Descriptor<A>, A>, Failure> {
        let answer = feeding.frames.feed(between(self.0, self.1));
        feeding.pending = feeding.frames.pending();
        match answer {
            Ok(fed) if fed.fault.is_none() => Ok(fed.descriptors),
            Err(FeedRefusal::NoMemory) => Err(Failure::NoMemory),
            _ => Err(Failure::Other),
        }
    }

    fn is_unchanged(&self, feeding: &Feeding<A>, other: &Feeding<A>) -> bool {
        feeding.pending == other.pending
    }

    fn is_right(&self, feeding: &mut Feeding<A>, descriptors: &Vec<Descriptor<A>, A>) -> bool {
        let mut encoded = Vec::new(feeding.alloc);
        for descriptor in descriptors {
            if descriptor.write_to(&mut encoded).is_err() {
                return false;
            }
        }
        encoded.as_slice() == between(self.2, self.3)
            && feeding.pending == self.1.wrapping_sub(self.3)
    }
}

/// Whether each piece meets its growths.
fn pieces_meet<A: Allocator + Copy>(out: Global, heap: &Heap, alloc: A) -> Result<(), Fail> {
    meet(out, heap, alloc, &PIECES, &FED)
}

#[test]
fn what_is_read_and_copied(rt: HostRuntime) -> Result<(), Fail> {
    let heap = Heap::new(rt.alloc());
    pieces_meet(rt.alloc(), &heap, &heap)
}
