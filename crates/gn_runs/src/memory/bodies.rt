//! The bodies of one link, called in turn on one thread.

use crate::threads::bodies::worked::link_of_one_ping;
use crate::threads::bodies::{Ends, Ran, Setting, run_link};
use gn_bodies::{BodyFault, ReaderEnd, WriterEnd};
use gn_fixtures::{Heap, OWN_PONG, Refused, Turn, Turns, growths};
use gn_shake::{Role, consent};
use std::alloc::Allocator;
use std::process::Abort;
use std::sync::Wait;
use std::test::Fail;

/// How many of them were out of memory. None where one has another fault.
fn all_stopped(ends: Ends) -> Option<u32> {
    let mut count = 0u32;
    for fault in [ends.0.err(), ends.1.err(), ends.2.err()] {
        match fault {
            None => {}
            Some(BodyFault::NoMemory) => count = count.wrapping_add(1),
            Some(_) => return None,
        }
    }
    Some(count)
}

/// How they end well.
const DONE: Ends = (Ok(ReaderEnd::Bytes), Ok(()), Ok(WriterEnd::Drained));

/// Where a growth was refused, it stopped a body, and with it the run; alone, it stopped no other. Where none was, they ended well,
/// having written the consent and the own Pong. The history has as many steps as the gate knows of; that it is legal is proved.
fn turn_of(ran: &Ran, refused: Refused) -> Turn {
    if ran.length != ran.steps {
        return Turn::Wrong;
    }
    if !ran.has_refused {
        return if ran.ends == DONE && ran.is_written {
            Turn::Answered
        } else {
            Turn::Wrong
        };
    }
    match (all_stopped(ran.ends), refused) {
        (Some(1), Refused::Only(_)) | (Some(1..=3), Refused::From(_)) if ran.has_failed =>
            Turn::Refused,
        _ => Turn::Wrong,
    }
}

/// Calls the bodies of a link over a memory of its own.
#[derive(Drop)]
struct Bodies<'a, B, R> {
    rt: &'a R,
    rich: B,
}

impl<'a, A: Allocator + Copy, B: Allocator + Copy, R: Wait> Turns<A> for Bodies<'a, B, R> {
    fn turn(&self, heap: &Heap, alloc: A, refused: Refused) -> Result<Turn, Fail> {
        heap.refuse_none();
        let written = (consent(), OWN_PONG);
        let setting = Setting::refusing(heap, refused, written);
        let link = link_of_one_ping(self.rich, Role::Accepting, 4_096)?;
        let ran = run_link(self.rt, alloc, setting, link)?;
        Ok(turn_of(&ran, refused))
    }
}

/// The reader connects, which takes two, cuts the Ping out of its piece, three, and admits it, eight. The worker makes room for
/// the jobs of a batch, and its route takes eight, one fewer than at the router alone, since no receipt copies the list of its
/// packets. The writer makes room for the receipts of a batch, encodes the Pong, which takes one, and its Close is the fifth step
/// of the history.
const GROWTHS: u64 = 13 + 9 + 3;

/// Fails unless the bodies meet their growths.
fn meet_all<A: Allocator + Copy, B: Allocator + Copy, R: Wait + Abort>(
    rt: &R,
    heap: &Heap,
    alloc: A,
    rich: B,
) -> Result<(), Fail> {
    let met = growths(heap, alloc, &Bodies { rt, rich })?;
    assert_eq!(rt; met, GROWTHS);
    Ok(())
}

#[test]
fn bodies_of_one_link(rt: HostRuntime) -> Result<(), Fail> {
    let heap = Heap::new(rt.alloc());
    meet_all(&rt, &heap, &heap, rt.alloc())
}
