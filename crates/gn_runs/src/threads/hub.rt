//! Runs on the lent hub, at the plain router: the worked one, and one over jobs that were never admitted, or not so.
//!
//! Each helper is generic in the router, so that one function alone names it, and in the allocator: a router over Global is
//! dear to prove in each function that names it, one over any allocator isn't. What a worker does with such a job stands with
//! the tests of the bodies. A run over one can't be had: all jobs are put by the run's own readers, and no caller has an
//! intake.

ghost use Rattle.std.specs.Prelude.{◌≡◌, ◌+◌, ◌*◌, ◌≤◌, length, IfOk};
ghost use Rattle.gn_hub.specs.ActorState.{AreNew};
ghost use Rattle.gn_rules.specs.Limits.{most_links};

use crate::threads::place::{Made, Place, passed_on};
use gn_actors::{Named, Unopened};
use gn_fixtures::usual;
use gn_hub::{Actor, Hub, Next, Role, Service, ServiceFault};
use gn_rules::{ConnId, Historian, Receipt, Refusal, RouterCore, Step, Ticket, is_step_of};
use gn_search::PlainRouter;
use gn_text::push_step;
use std::alloc::{AllocError, Allocator};
use std::marker::Brand;
use std::sync::ledger::Ledger;
use std::test::Fail;

/// A call, with the answer that is wanted. A Ping is named by the byte that its ID repeats.
#[derive(Clone, Copy)]
enum Call {
    Connects(u32),
    Admits(u8),
    Routes(Ticket, u8, Result<(), Refusal>),
    Next(ConnId, Next),
    Done(u32, bool),
}

/// The calls of the worked run: who makes each, and what it is.
const CALLS: [(usize, Call); 12] = [
    (0, Call::Connects(0)),
    (1, Call::Connects(1)),
    (0, Call::Admits(0xa1)),
    (4, Call::Routes(0, 0xa1, Ok(()))),
    (3, Call::Next(2, Next::Packet)),
    (3, Call::Next(2, Next::Later)),
    (0, Call::Done(0, false)),
    (1, Call::Done(1, true)),
    (3, Call::Next(2, Next::Over)),
    (3, Call::Next(2, Next::Over)),
    (2, Call::Next(1, Next::Packet)),
    (2, Call::Next(1, Next::Over)),
];

/// The steps of the worked run: the own Pong goes back, and the Ping on.
const WORKED: &str = "\
0 connect = connected 1
1 connect = connected 2
0 admit 1 a1a1a1a1a1a1a1a1a1a1a1a1a1a1a1a100070000000000 = admitted 0
4 route 0 = routed local 1+a1a1a1a1a1a1a1a1a1a1a1a1a1a1a1a10101000e000000ca187f0000010500000028000000 2+a1a1a1a1a1a1a1a1a1a1a1a1a1a1a1a100060100000000
3 take 2 = taken a1a1a1a1a1a1a1a1a1a1a1a1a1a1a1a100060100000000
3 close 2 = closed 0
2 take 1 = taken a1a1a1a1a1a1a1a1a1a1a1a1a1a1a1a10101000e000000ca187f0000010500000028000000
2 close 1 = closed 0
";

/// Two Pings are admitted, and each is routed once: who makes each call, and what it is. All readers are done before, and no
/// writer closes while a Ping is in flight.
const FORGED_CALLS: [(usize, Call); 13] = [
    (0, Call::Connects(0)),
    (0, Call::Admits(0xa1)),
    (0, Call::Admits(0xa2)),
    (0, Call::Done(0, false)),
    (1, Call::Done(1, false)),
    (2, Call::Next(1, Next::Later)),
    (4, Call::Routes(2, 0xa1, Err(Refusal::NoTicket))),
    (4, Call::Routes(0, 0xa2, Err(Refusal::Strange))),
    (4, Call::Routes(0, 0xa1, Ok(()))),
    (4, Call::Routes(0, 0xa1, Err(Refusal::NoTicket))),
    (4, Call::Routes(1, 0xa1, Err(Refusal::Strange))),
    (4, Call::Routes(1, 0xa2, Ok(()))),
    (4, Call::Routes(1, 0xa2, Err(Refusal::NoTicket))),
];

/// The steps of those calls: the refused ones make none.
const FORGED: &str = "\
0 connect = connected 1
0 admit 1 a1a1a1a1a1a1a1a1a1a1a1a1a1a1a1a100070000000000 = admitted 0
0 admit 1 a2a2a2a2a2a2a2a2a2a2a2a2a2a2a2a200070000000000 = admitted 1
4 route 0 = routed local 1+a1a1a1a1a1a1a1a1a1a1a1a1a1a1a1a10101000e000000ca187f0000010500000028000000
4 route 1 = routed local 1+a2a2a2a2a2a2a2a2a2a2a2a2a2a2a2a20101000e000000ca187f0000010500000028000000
";

/// An actor, and the receipts that its calls answered.
#[derive(Drop)]
pub(crate) struct Caller<L: Ledger + Named, A: Allocator> {
    pub(crate) me: Actor<L, A>,
    pub(crate) receipts: Vec<Receipt<A>, A>,
}

impl<L: Ledger + Named, A: Allocator> Caller<L, A> {
    /// Keeps the receipt that a call answered.
    pub(crate) fn keep(&mut self, answer: Result<Receipt<A>, Refusal>) -> Result<(), Refusal> {
        self.receipts.push(answer?)?;
        Ok(())
    }

    /// Whether it has so many receipts, and each is a step of the history, at its index and its own.
    pub(crate) fn has_receipts(&self, count: usize, history: &[Step<A>]) -> bool {
        let me = self.me.number();
        for receipt in &self.receipts {
            match history.get(receipt.index as usize) {
                Some(step) if is_step_of(step, me, receipt) => {}
                _ => return false,
            }
        }
        self.receipts.len() == count
    }
}

/// Whether a call is answered, whose answer is let go.
pub(crate) fn is_answer<T: Drop, E: Drop>(answer: Result<T, E>) -> bool {
    answer.is_ok()
}

/// Callers that have called nothing, of these actors.
pub(crate) fn callers_of<L: Ledger + Named, A: Allocator + Copy>(
    alloc: A,
    actors: Vec<Actor<L, A>, A>,
) -> Result<Vec<Caller<L, A>, A>, AllocError> {
    let mut callers = Vec::new(alloc);
    for me in actors {
        callers.push(Caller {
            me,
            receipts: Vec::new(alloc),
        })?;
    }
    Ok(callers)
}

/// Makes a call with the Ping whose ID repeats this byte, and keeps its receipt.
pub(crate) fn make<A: Allocator + Copy, L: Ledger + Named, P: Place<L, A>>(
    place: &mut P,
    caller: &mut Caller<L, A>,
    made: Made,
    byte: u8,
) -> Result<(), Refusal> {
    let passed = passed_on(byte).ok_or(Refusal::NotLive)?;
    let answer = place.make(&mut caller.me, made, &passed);
    drop(passed);
    caller.keep(answer)
}

/// Whether the Connect of this link's reader is answered.
pub(crate) fn connects<A: Allocator + Copy, L: Ledger + Named, P: Place<L, A>>(
    place: &mut P,
    caller: &mut Caller<L, A>,
    link: u32,
) -> bool {
    make(place, caller, Made::Connects(link), 0).is_ok() && caller.me.number() == link
}

/// Makes a call: whether its answer is the wanted one.
fn is_answered<A: Allocator + Copy, C: RouterCore<A>, L: Ledger + Named>(
    hub: &mut Hub<C, L, A>,
    caller: &mut Caller<L, A>,
    call: Call,
) -> bool {
    match call {
        Call::Connects(link) => connects(hub, caller, link),
        Call::Admits(byte) => make(hub, caller, Made::Admits, byte).is_ok(),
        Call::Routes(ticket, byte, wanted) => {
            make(hub, caller, Made::Routes(ticket), byte) == wanted
        }
        Call::Next(c, next) => {
            let Caller { me, receipts } = caller;
            hub.next_out(me, c, receipts) == Ok(next)
        }
        Call::Done(link, closing) => {
            hub.reader_done(link);
            hub.closing() == closing
        }
    }
}

/// Whether the callers have so many receipts each, in order, that stand in the history.
pub(crate) fn have_receipts<A: Allocator, L: Ledger + Named>(
    callers: &[Caller<L, A>],
    counts: &[usize],
    history: &[Step<A>],
) -> bool {
    for (k, caller) in callers.iter().enumerate() {
        match counts.get(k) {
            Some(count) if caller.has_receipts(*count, history) => {}
            _ => return false,
        }
    }
    callers.len() == counts.len()
}

/// Appends the lines of these steps.
fn push_lines<A: Allocator>(lines: &mut Vec<u8, A>, steps: &[Step<A>]) -> Result<(), AllocError> {
    for step in steps {
        push_step(lines, step)?;
    }
    Ok(())
}

/// Whether these are the lines of these steps.
pub(crate) fn are_lines<A: Allocator + Copy>(alloc: A, steps: &[Step<A>], wanted: &str) -> bool {
    let mut lines = Vec::new(alloc);
    push_lines(&mut lines, steps).is_ok() && lines.as_slice() == wanted.as_bytes()
}

/// Makes all calls: whether each answer was the wanted one.
fn are_answered<A: Allocator + Copy, C: RouterCore<A>, L: Ledger + Named>(
    hub: &mut Hub<C, L, A>,
    callers: &mut [Caller<L, A>],
    calls: &[(usize, Call)],
) -> bool {
    for (who, call) in calls {
        let Some(caller) = callers.get_mut(*who) else {
            return false;
        };
        if !is_answered(hub, caller, *call) {
            return false;
        }
    }
    true
}

/// A service of links of these roles and one worker that makes at most so many steps, with its actors.
pub(crate) fn service_of<A: Allocator + Copy, C: Historian<A> + Drop, L: Ledger + Named>(
    alloc: A,
    unopened: Unopened<A>,
    steps: u32,
    roles: &[Role],
) -> Result<(Service<C, L, A>, Vec<Actor<L, A>, A>), ServiceFault>
    requires name { (unopened.blank.name ≡ L.name) × (unopened.steps.name ≡ L.growing) }
    requires parts { (unopened.blank.parts ≡ L.parts) × (unopened.blank.parts ≡ 2 * length roles.now + 1 + 1) }
    requires few { length roles.now ≤ most_links }
    ensures { IfOk result (λ made. AreNew (2 * length roles.now + 1 + 1) made.1.items) }
{
    let Ok(config) = usual(steps) else {
        return Err(ServiceFault::BadWorkers);
    };
    Service::<C, L, A>::new(alloc, unopened, &config, roles, 1)
}

/// A run: its calls, and what it must leave.
#[derive(Clone, Copy)]
struct Sample<'a> {
    calls: &'a [(usize, Call)],
    /// How many receipts each actor gets.
    counts: &'a [usize],
    book: u64,
    /// The lines of its steps.
    steps: &'a str,
}

/// Whether the calls are answered as they must, and leave the book, the steps and receipts that stand in the history.
fn is_worked<A: Allocator + Copy, C: Historian<A> + Drop, L: Ledger + Named>(
    alloc: A,
    mut hub: Hub<C, L, A>,
    mut callers: Vec<Caller<L, A>, A>,
    sample: &Sample<'_>,
) -> bool {
    let are_answered = are_answered(&mut hub, callers.as_mut_slice(), sample.calls);
    let has_book = hub.book() == sample.book;
    let history = hub.into_router().into_history();
    let steps = history.as_slice();
    let have_receipts = have_receipts(callers.as_slice(), sample.counts, steps);
    are_answered && has_book && have_receipts && are_lines(alloc, steps, sample.steps)
}

/// Whether a run of two plain links and one worker does all that.
fn work<A: Allocator + Copy, C: Historian<A> + Drop, L: Ledger + Named>(
    alloc: A,
    unopened: Unopened<A>,
    sample: &Sample<'_>,
) -> bool
    requires name { (unopened.blank.name ≡ L.name) × (unopened.steps.name ≡ L.growing) }
    requires parts { (unopened.blank.parts ≡ L.parts) × (unopened.blank.parts ≡ 6) }
{
    let roles = [Role::Plain, Role::Plain];
    let Ok((service, actors)) = service_of::<A, C, L>(alloc, unopened, 100, &roles) else {
        return false;
    };
    match callers_of(alloc, actors) {
        Ok(callers) => is_worked(alloc, service.into_hub(), callers, sample),
        Err(_) => false,
    }
}

/// That run, on a hub of six actors, at the plain router.
fn work_plain<A: Allocator + Copy>(alloc: A, sample: &Sample<'_>) -> bool {
    work::<A, PlainRouter<A>, Brand>(alloc, Unopened::new(6), sample)
}

/// Two plain links connect, the first sends a Ping, and both writers take what there is until the run closes.
#[test]
fn a_ping_through_the_lent_hub(rt: HostRuntime) -> Result<(), Fail> {
    let sample = Sample {
        calls: &CALLS,
        counts: &[2, 1, 2, 2, 1, 0],
        book: 8,
        steps: WORKED,
    };
    assert!(rt; work_plain(rt.alloc(), &sample));
    Ok(())
}

#[test]
fn forged_routes_are_refused(rt: HostRuntime) -> Result<(), Fail> {
    let sample = Sample {
        calls: &FORGED_CALLS,
        counts: &[3, 0, 0, 0, 2, 0],
        book: 5,
        steps: FORGED,
    };
    assert!(rt; work_plain(rt.alloc(), &sample));
    Ok(())
}
