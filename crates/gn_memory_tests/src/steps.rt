//! One step of a history, made by each of the calls that make one.

use gn_capture::{CaptureRefusal, read_history};
use gn_fixtures::{Call, Failure, Heap, are_same, growths_of_call, is_same_step};
use gn_payload::Checked;
use gn_rules::{Config, Event, Historian, Receipt, Refusal, Reply, RouterCore, Step, is_step_of};
use std::alloc::{AllocError, Allocator, Global};
use std::marker::PhantomData;
use std::test::Fail;

/// The call that makes a step.
#[derive(Clone, Copy)]
pub(crate) enum Asked {
    Apply,
    Route,
    Enter,
    Add,
}

/// The configuration and the steps of a history.
pub(crate) fn read<A: Allocator + Copy>(
    alloc: A,
    history: &str,
) -> Result<(Config, Vec<Step<A>, A>), CaptureRefusal> {
    read_history(alloc, history.as_bytes())
}

/// The descriptor that was admitted under a ticket.
fn admitted<A: Allocator + Copy>(
    steps: &[Step<A>],
    wanted: u32,
) -> Result<Option<Checked<A>>, AllocError> {
    for step in steps {
        if let (Event::Admit(_, descriptor), Reply::Admitted(ticket)) = (&step.event, &step.reply) {
            if *ticket == wanted {
                return Ok(Some(Checked::new(descriptor.copy()?)));
            }
        }
    }
    Ok(None)
}

/// The descriptor that this event routes, where it does.
fn routed<A: Allocator + Copy>(
    steps: &[Step<A>],
    event: &Event<A>,
) -> Result<Option<Checked<A>>, AllocError> {
    match event {
        Event::Route(ticket) => admitted(steps, *ticket),
        _ => Ok(None),
    }
}

/// A copy of a step.
fn copy_of<A: Allocator + Copy>(alloc: A, step: &Step<A>) -> Result<Step<A>, AllocError> {
    Ok(Step {
        actor: step.actor,
        event: step.event.copy()?,
        reply: step.reply.copy(alloc)?,
    })
}

/// A router, all steps of the history, the one that it is to make, and the descriptor that this one routes.
#[derive(Drop)]
struct Subject<A: Allocator + Copy, C> {
    core: C,
    steps: Vec<Step<A>, A>,
    step: Step<A>,
    checked: Option<Checked<A>>,
}

/// Makes the step of this number, after those before it.
#[derive(Drop)]
struct Makes<C> {
    asked: Asked,
    history: &'static str,
    number: usize,
    core: PhantomData<C>,
}

/// A refusal as the table of growths counts it.
fn failure(refusal: Refusal) -> Failure {
    match refusal {
        Refusal::NoMemory => Failure::NoMemory,
        _ => Failure::Other,
    }
}

/// A call's receipt.
fn receipt_of<A: Allocator>(
    answer: Result<Receipt<A>, Refusal>,
) -> Result<Option<Receipt<A>>, Failure> {
    match answer {
        Ok(receipt) => Ok(Some(receipt)),
        Err(refusal) => Err(failure(refusal)),
    }
}

/// The first steps, so many of them.
pub(crate) fn before<A: Allocator>(steps: &[Step<A>], number: usize) -> &[Step<A>] {
    steps.get(..number).unwrap_or(steps)
}

/// Whether a router gives the replies of these steps, one after another.
fn goes_on<A: Allocator + Copy, C: RouterCore<A>>(core: &mut C, steps: &[Step<A>]) -> bool {
    for step in steps {
        let answer = core.apply(0, &step.event);
        let is_given = matches!(&answer, Ok(receipt) if is_step_of(step, 0, receipt));
        drop(answer);
        if !is_given {
            return false;
        }
    }
    true
}

/// A router that has made these steps.
pub(crate) fn after<A: Allocator + Copy, C: Historian<A> + Drop>(
    alloc: A,
    config: &Config,
    steps: &[Step<A>],
) -> Result<C, Fail> {
    let mut core = C::make(alloc, config)?;
    if goes_on(&mut core, steps) {
        Ok(core)
    } else {
        Err("the steps before".into())
    }
}

/// The step of this number, and the descriptor that it routes.
fn step_of<A: Allocator + Copy>(
    alloc: A,
    steps: &[Step<A>],
    number: usize,
) -> Result<(Step<A>, Option<Checked<A>>), Fail> {
    let Some(wanted) = steps.get(number) else {
        return Err("a step of the history".into());
    };
    let checked = routed(steps, &wanted.event)?;
    match copy_of(alloc, wanted) {
        Ok(step) => Ok((step, checked)),
        Err(_) => {
            drop(checked);
            Err("room for a step".into())
        }
    }
}

impl<A: Allocator + Copy, C: Historian<A> + Drop> Call<A> for Makes<C> {
    type Subject = Subject<A, C>;

    type Answer = Option<Receipt<A>>;

    fn subject(&self, alloc: A) -> Result<Subject<A, C>, Fail> {
        let (config, steps) = read(alloc, self.history)?;
        let (step, checked) = step_of(alloc, &steps, self.number)?;
        match after(alloc, &config, before(&steps, self.number)) {
            Ok(core) => Ok(Subject {
                core,
                steps,
                step,
                checked,
            }),
            Err(fail) => {
                drop(steps);
                drop(step);
                drop(checked);
                Err(fail)
            }
        }
    }

    fn make(&self, subject: &mut Subject<A, C>) -> Result<Option<Receipt<A>>, Failure> {
        let Subject {
            core,
            step,
            checked,
            ..
        } = subject;
        match self.asked {
            Asked::Apply => receipt_of(core.apply(0, &step.event)),
            Asked::Route => match (&step.event, checked) {
                (Event::Route(ticket), Some(checked)) => {
                    receipt_of(core.route(0, *ticket, checked))
                }
                _ => Err(Failure::Other),
            },
            Asked::Enter => match core.enter(0, &mut step.event) {
                Ok(()) => Ok(None),
                Err(refusal) => Err(failure(refusal)),
            },
            Asked::Add if core.is_answered(step) => match core.add(step) {
                Ok(()) => Ok(None),
                Err(_) => Err(Failure::NoMemory),
            },
            Asked::Add => Err(Failure::Other),
        }
    }

    /// Of what the router says beside its history, which says all that it can say.
    fn is_unchanged(&self, subject: &Subject<A, C>, other: &Subject<A, C>) -> bool {
        let (core, step) = (&subject.core, &subject.step);
        are_same(core.history(), other.core.history())
            && is_same_step(step, &other.step)
            && core.flights() == other.core.flights()
            && core.is_live(1) == other.core.is_live(1)
            && core.waiting(1) == other.core.waiting(1)
    }

    fn is_right(&self, subject: &mut Subject<A, C>, answer: &Option<Receipt<A>>) -> bool {
        let Subject { core, steps, .. } = subject;
        let (made, left) = steps.split_at(self.number.saturating_add(1).min(steps.len()));
        let fits = match (answer, made.last()) {
            (Some(receipt), Some(wanted)) => {
                receipt.index as usize == self.number && is_step_of(wanted, 0, receipt)
            }
            _ => answer.is_none(),
        };
        fits && are_same(core.history(), made) && goes_on(core, left)
    }
}

/// How many growths each step of a history meets, where this call makes it: of its Routes alone where it is `route`.
pub(crate) fn growths_of<A: Allocator + Copy, C: Historian<A> + Drop>(
    out: Global,
    heap: &Heap,
    alloc: A,
    asked: Asked,
    history: &'static str,
) -> Result<Vec<u64>, Fail> {
    let (_, steps) = read(alloc, history)?;
    let mut all = Vec::new(out);
    for (number, step) in steps.iter().enumerate() {
        if matches!(asked, Asked::Route) && step.event.ticket().is_none() {
            continue;
        }
        let call: Makes<C> = Makes {
            asked,
            history,
            number,
            core: PhantomData,
        };
        all.push(growths_of_call(heap, alloc, &call)?)?;
    }
    Ok(all)
}
