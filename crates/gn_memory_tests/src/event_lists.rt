//! A list of events, of which some meet a refusal.

use crate::steps::read;
use gn_fixtures::{Heap, Refused, Turn, Turns, growths};
use gn_rules::{Config, Event, Historian, Receipt, Refusal, Step, run_events};
use std::alloc::{AllocError, Allocator};
use std::marker::PhantomData;
use std::test::Fail;

/// Runs the events of a history.
#[derive(Drop)]
struct Runs<C> {
    history: &'static str,
    core: PhantomData<C>,
}

/// Copies of the events of these steps.
fn events_of<A: Allocator + Copy>(
    alloc: A,
    steps: &[Step<A>],
) -> Result<Vec<Event<A>, A>, AllocError> {
    let mut events = Vec::new(alloc);
    for step in steps {
        events.push(step.event.copy()?)?;
    }
    Ok(events)
}

/// The configuration and the events of a history.
fn read_events<A: Allocator + Copy>(
    alloc: A,
    history: &str,
) -> Result<(Config, Vec<Event<A>, A>), Fail> {
    let (config, steps) = read(alloc, history)?;
    let events = events_of(alloc, steps.as_slice());
    drop(steps);
    Ok((config, events?))
}

/// How many of the answers are out of memory.
fn refused_of<A: Allocator>(answers: &[Result<Receipt<A>, Refusal>]) -> u64 {
    let mut refused = 0u64;
    for answer in answers {
        if let Err(Refusal::NoMemory) = answer {
            refused = refused.saturating_add(1);
        }
    }
    refused
}

/// The turn of a list of which so many events were out of memory: just one, where one growth was refused. That each other
/// event has the answer of the history that stands then is proved.
fn turn_of(out_of_memory: u64, has_refused: bool, refused: Refused) -> Turn {
    match refused {
        _ if has_refused != (out_of_memory > 0) => Turn::Wrong,
        Refused::Only(_) if out_of_memory > 1 => Turn::Wrong,
        _ if has_refused => Turn::Refused,
        _ => Turn::Answered,
    }
}

/// Runs these events at a new router.
fn turn_at<A: Allocator + Copy, C: Historian<A>>(
    heap: &Heap,
    alloc: A,
    core: &mut C,
    events: &[Event<A>],
    refused: Refused,
) -> Turn {
    refused.begin(heap);
    let answers = run_events(alloc, core, events);
    let has_refused = heap.has_refused();
    heap.refuse_none();
    match answers {
        Ok(answers) => {
            let out_of_memory = refused_of(answers.as_slice());
            drop(answers);
            turn_of(out_of_memory, has_refused, refused)
        }
        Err(_) if has_refused && core.history().is_empty() => Turn::Refused,
        Err(_) => Turn::Wrong,
    }
}

impl<A: Allocator + Copy, C: Historian<A> + Drop> Turns<A> for Runs<C> {
    fn turn(&self, heap: &Heap, alloc: A, refused: Refused) -> Result<Turn, Fail> {
        heap.refuse_none();
        let (config, events) = read_events(alloc, self.history)?;
        let mut core = C::make(alloc, &config)?;
        let turn = turn_at(heap, alloc, &mut core, events.as_slice(), refused);
        drop(core);
        drop(events);
        Ok(turn)
    }
}

/// How many growths the events of a history meet together.
pub(crate) fn growths_of_list<A: Allocator + Copy, C: Historian<A> + Drop>(
    heap: &Heap,
    alloc: A,
    history: &'static str,
) -> Result<u64, Fail> {
    let call: Runs<C> = Runs {
        history,
        core: PhantomData,
    };
    growths(heap, alloc, &call)
}
