//! The stage queue: how it is made, and settled with a job left.

ghost use Rattle.std.specs.Prelude.{◌≡◌};

use crate::threads::stage::{intakes_home, is_settled_so, outlets_home, put_two_and_take};
use gn_fixtures::{Heap, Refused, Turn, Turns, growths};
use gn_stage::{Desk, IntakeHome, OutletHome, Settled, Site, Stage, StageFault, Unsettled};
use std::alloc::{AllocError, Allocator};
use std::marker::Brand;
use std::process::Abort;
use std::sync::Wait;
use std::test::Fail;

/// Settles again what was out of memory.
fn settle_again<A: Allocator + Copy, S: Site, R: Wait>(
    rt: &R,
    alloc: A,
    left: Unsettled<S, A>,
    has_refused: bool,
) -> Turn {
    let Unsettled {
        fault,
        desk,
        intakes,
        outlets,
    } = left;
    let is_amiss = (fault != StageFault::NoMemory) | !has_refused;
    let again = desk.settle(rt, alloc, intakes, outlets).ok();
    answered(again.as_ref(), is_amiss, Turn::Refused)
}

/// Settles a stage, where these growths are refused. After out of memory it is settled again.
fn turn_of<A: Allocator + Copy, S: Site, R: Wait>(
    rt: &R,
    heap: &Heap,
    alloc: A,
    desk: Desk<S, A>,
    intakes: Vec<IntakeHome<S, A>, A>,
    outlets: Vec<OutletHome<S, A>, A>,
    refused: Refused,
) -> Turn {
    refused.begin(heap);
    let answer = desk.settle(rt, alloc, intakes, outlets);
    let has_refused = heap.has_refused();
    heap.refuse_none();
    match answer {
        Ok(settled) => answered(Some(&settled), has_refused, Turn::Answered),
        Err(left) => settle_again(rt, alloc, left, has_refused),
    }
}

/// Settles a stage after two jobs were put and one was taken.
fn settles_of<A: Allocator + Copy, S: Site, R: Wait>(
    rt: &R,
    heap: &Heap,
    alloc: A,
    stage: Stage<A>,
    refused: Refused,
) -> Result<Turn, Fail>
    requires { stage ≡ S.stage }
{
    let (mut ins, mut outs, desk) = stage.ends::<S>(alloc, 1, 1)?;
    let first = put_two_and_take(rt, ins.as_mut_slice(), outs.as_mut_slice());
    let (intakes, outlets) = (intakes_home(alloc, ins), outlets_home(alloc, outs));
    let turn = turn_of(rt, heap, alloc, desk, intakes, outlets, refused);
    if first == Some(0) {
        Ok(turn)
    } else {
        Err("the first job".into())
    }
}

/// This turn, where nothing is amiss and the answer is the right one: two jobs were put, one was taken, and the second was left.
fn answered<A: Allocator>(settled: Option<&Settled<A>>, is_amiss: bool, turn: Turn) -> Turn {
    match settled {
        Some(settled) if !is_amiss && is_settled_so(settled, 2, 1, &[1]) => turn,
        _ => Turn::Wrong,
    }
}

/// Settles a stage.
#[derive(Drop)]
struct Settles<'a, R> {
    rt: &'a R,
}

impl<'a, A: Allocator + Copy, R: Wait> Turns<A> for Settles<'a, R> {
    fn turn(&self, heap: &Heap, alloc: A, refused: Refused) -> Result<Turn, Fail> {
        heap.refuse_none();
        settles_of::<A, Brand, R>(self.rt, heap, alloc, Stage::new(alloc, 2)?, refused)
    }
}

/// Whether a stage has the ends that are asked for.
fn has_ends<A: Allocator + Copy, S: Site>(alloc: A, stage: Stage<A>) -> Result<bool, AllocError>
    requires { stage ≡ S.stage }
{
    let ends = stage.ends::<S>(alloc, 1, 1)?;
    let has_both = (ends.0.len() == 1) & (ends.1.len() == 1);
    drop(ends);
    Ok(has_both)
}

/// Makes a stage and its ends.
#[derive(Drop)]
struct Makes;

/// Whether a stage could be made.
fn is_made<A: Allocator + Copy>(alloc: A) -> Result<bool, AllocError> {
    has_ends::<A, Brand>(alloc, Stage::new(alloc, 2)?)
}

impl<A: Allocator + Copy> Turns<A> for Makes {
    fn turn(&self, heap: &Heap, alloc: A, refused: Refused) -> Result<Turn, Fail> {
        refused.begin(heap);
        let made = is_made(alloc);
        let has_refused = heap.has_refused();
        heap.refuse_none();
        Ok(match made {
            Ok(true) if !has_refused => Turn::Answered,
            Err(_) if has_refused && is_made(alloc) == Ok(true) => Turn::Refused,
            _ => Turn::Wrong,
        })
    }
}

/// Fails unless making a stage and settling one meet their growths.
fn meet_all<A: Allocator + Copy, R: Wait + Abort>(
    rt: &R,
    heap: &Heap,
    alloc: A,
) -> Result<(), Fail> {
    let made = growths(heap, alloc, &Makes)?;
    let settled = growths(heap, alloc, &Settles { rt })?;
    assert_eq!(rt; (made, settled), (14, 1));
    Ok(())
}

#[test]
fn the_stage_queue(rt: HostRuntime) -> Result<(), Fail> {
    let heap = Heap::new(rt.alloc());
    meet_all(&rt, &heap, &heap)
}
