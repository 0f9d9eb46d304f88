//! Jobs through a stage's queue, from two threads to two.

ghost use Rattle.std.specs.Prelude.{◌≡◌};

use crate::setup::{ping, tell};
use gn_stage::{Intake, Job, Outlet, Site, Stage};
use std::alloc::{AllocError, Global};
use std::marker::Brand;
use std::rt::Runtime;
use std::sync::Wait;
use std::sync::atomic::{AtomicU64, Ordering};
use std::thread::Threads;
use std::time::Instant;
use std::{io, thread};

/// How many jobs the queue has room for.
const CAPACITY: usize = 1_024;

/// Puts so many jobs, and lets the intake go.
fn put_all<S: Site, R: Wait>(rt: &R, mut intake: Intake<S>, jobs: u32) {
    for ticket in 0..jobs {
        let Ok(descriptor) = ping(ticket) else {
            break;
        };
        if intake.put(rt, Job { ticket, descriptor }).is_err() {
            break;
        }
    }
    let _ = intake.finish();
}

/// Adds how many jobs came.
fn take_all<S: Site, R: Wait>(rt: &R, mut outlet: Outlet<S>, all: &AtomicU64) {
    let mut taken = 0u64;
    for _ in rt.forever() {
        if outlet.take(rt).is_none() {
            break;
        }
        taken = taken.wrapping_add(1);
    }
    let _ = outlet.finish();
    all.fetch_add(taken, Ordering::SeqCst);
}

/// How many jobs came out of the stage, each of two threads having put so many.
fn pass_on<S: Site + Send, R: Threads + Wait + Sync>(
    rt: &R,
    alloc: Global,
    stage: Stage,
    jobs: u32,
) -> Result<u64, AllocError>
    requires { stage ≡ S.stage }
{
    let (ins, outs, _desk) = stage.ends::<S>(alloc, 2, 2)?;
    let taken = AtomicU64::new(0);
    thread::scope(thread::scope_env(), rt, |scope| {
        for intake in ins {
            let _ = scope.spawn(move || put_all(rt, intake, jobs));
        }
        for outlet in outs {
            let _ = scope.spawn(|| take_all(rt, outlet, &taken));
        }
    });
    Ok(taken.load(Ordering::SeqCst))
}

/// So many jobs through a stage of capacity 1,024, and what each took.
pub(crate) fn measure_stage<R: Runtime + Threads + Wait + Sync>(
    rt: &R,
    alloc: Global,
    jobs: u32,
) -> io::Result<()> {
    let stage = Stage::new(alloc, CAPACITY)?;
    let start = Instant::now(rt)?;
    let jobs = pass_on::<Brand, R>(rt, alloc, stage, jobs / 2)?;
    let taken = start.elapsed(rt)?;
    println!(rt; "stage: {jobs} jobs")?;
    tell(rt, "stage, a job of two threads to", 2, taken, jobs)
}
