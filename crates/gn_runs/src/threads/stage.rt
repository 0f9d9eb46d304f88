//! Runs of whole stages.

ghost use Rattle.std.specs.Prelude.{◌≡◌, ◌+◌, ◌-◌, ◌^◌, ◌<◌, true, IfOk};

use crate::threads::hub::is_answer;
use gn_fixtures::ping;
use gn_stage::*;
use std::alloc::{AllocError, Allocator, Global};
use std::marker::Brand;
use std::sync::Wait;
use std::sync::atomic::{AtomicU32, Ordering};
use std::test::Fail;
use std::thread;
use std::thread::Threads;
use std::time::{Clock, Duration};

/// A Ping with this ticket.
fn job<A: Allocator>(ticket: u32) -> Result<Job<A>, AllocError> {
    match ping(0xa1, 7, 0) {
        Ok(descriptor) => Ok(Job { ticket, descriptor }),
        Err(_) => Err(AllocError),
    }
}

/// Whether a job of this ticket is put.
fn is_put<A: Allocator, S: Site, R: Wait>(rt: &R, intake: &mut Intake<S, A>, ticket: u32) -> bool {
    match job(ticket) {
        Ok(job) => is_answer(intake.put(rt, job)),
        Err(_) => false,
    }
}

/// Puts so many jobs, until one can't be.
pub(crate) fn put_some<A: Allocator, S: Site, R: Wait>(
    rt: &R,
    intake: &mut Intake<S, A>,
    first: u32,
    count: u32,
) {
    for i in 0..count {
        if !is_put(rt, intake, first.wrapping_add(i)) {
            return;
        }
    }
}

/// The ticket of a job, where there is one.
pub(crate) fn ticket_of<A: Allocator>(job: Option<Job<A>>) -> Option<u32> {
    let job = job?;
    let ticket = job.ticket;
    drop(job);
    Some(ticket)
}

/// These intakes at home, as many as there is memory for.
pub(crate) fn intakes_home<A: Allocator + Copy, S: Site>(
    alloc: A,
    intakes: Vec<Intake<S, A>, A>,
) -> Vec<IntakeHome<S, A>, A> {
    let mut homes = Vec::new(alloc);
    for intake in intakes {
        let _ = homes.push(intake.finish());
    }
    homes
}

/// These outlets at home, as many as there is memory for.
pub(crate) fn outlets_home<A: Allocator + Copy, S: Site>(
    alloc: A,
    outlets: Vec<Outlet<S, A>, A>,
) -> Vec<OutletHome<S, A>, A> {
    let mut homes = Vec::new(alloc);
    for outlet in outlets {
        let _ = homes.push(outlet.finish());
    }
    homes
}

/// Whether the jobs that are left have these tickets, in order.
fn are_left<A: Allocator>(jobs: &[Job<A>], tickets: &[u32]) -> bool {
    for (i, job) in jobs.iter().enumerate() {
        if tickets.get(i) != Some(&job.ticket) {
            return false;
        }
    }
    jobs.len() == tickets.len()
}

/// Whether so many jobs were put and taken, and those of these tickets are left.
pub(crate) fn is_settled_so<A: Allocator>(
    settled: &Settled<A>,
    put: u64,
    taken: u64,
    tickets: &[u32],
) -> bool {
    settled.put == put && settled.taken == taken && are_left(settled.drained.as_slice(), tickets)
}

/// Whether a stage is settled so, with what comes back where it isn't.
fn is_settled<E: Drop>(answer: Result<Settled, E>, put: u64, taken: u64, tickets: &[u32]) -> bool {
    match &answer {
        Ok(settled) => is_settled_so(settled, put, taken, tickets),
        Err(_) => false,
    }
}

/// The first intake puts so many jobs.
fn put_by_first<A: Allocator, S: Site, R: Wait>(rt: &R, intakes: &mut [Intake<S, A>], count: u32) {
    if let Some(intake) = intakes.first_mut() {
        put_some(rt, intake, 0, count);
    }
}

/// The first intake puts two jobs: what ticket the first outlet takes.
pub(crate) fn put_two_and_take<A: Allocator, S: Site, R: Wait>(
    rt: &R,
    intakes: &mut [Intake<S, A>],
    outlets: &mut [Outlet<S, A>],
) -> Option<u32> {
    put_by_first(rt, intakes, 2);
    ticket_of(outlets.first_mut()?.take(rt))
}

/// Whether a stage that missed an intake is settled with it, and leaves the second of two jobs.
fn is_settled_again<S: Site, R: Wait>(
    rt: &R,
    alloc: Global,
    back: Unsettled<S>,
    late: IntakeHome<S>,
) -> bool {
    let Unsettled {
        fault,
        desk,
        mut intakes,
        outlets,
    } = back;
    let _ = intakes.push(late);
    let is_settled = is_settled(desk.settle(rt, alloc, intakes, outlets), 2, 1, &[1]);
    is_settled && fault == StageFault::Missing
}

/// Whether a stage misses the last of these intakes, and is settled once that has come home, too.
fn is_settled_late<S: Site, R: Wait>(
    rt: &R,
    alloc: Global,
    desk: Desk<S>,
    mut intakes: Vec<IntakeHome<S>>,
    outlets: Vec<OutletHome<S>>,
) -> bool {
    let late = intakes.pop();
    let back = desk.settle(rt, alloc, intakes, outlets).err();
    match back.zip(late) {
        Some((back, late)) => is_settled_again(rt, alloc, back, late),
        None => false,
    }
}

/// Two jobs are put and one is taken. The second intake comes home late: whether the stage misses it, and is settled
/// then.
fn one_thread<S: Site, R: Wait>(rt: &R, alloc: Global, stage: Stage) -> Result<bool, AllocError>
    requires { stage ≡ S.stage }
{
    let (mut intakes, mut outlets, desk) = stage.ends::<S>(alloc, 2, 1)?;
    let first = put_two_and_take(rt, intakes.as_mut_slice(), outlets.as_mut_slice());
    let (intakes, outlets) = (intakes_home(alloc, intakes), outlets_home(alloc, outlets));
    Ok(is_settled_late(rt, alloc, desk, intakes, outlets) && first == Some(0))
}

/// That run, with the stage's mark made here.
fn in_one_thread<R: Wait>(rt: &R, alloc: Global) -> Result<bool, AllocError> {
    one_thread::<Brand, R>(rt, alloc, Stage::new(alloc, 2)?)
}

#[test]
fn stage_settles(rt: HostRuntime) -> Result<(), Fail> {
    assert!(rt; in_one_thread(&rt, rt.alloc())?);
    Ok(())
}

/// How often the job of each of so many tickets was seen, and last how often one of any other: none was yet.
fn unseen(alloc: Global, count: u32) -> Result<Vec<AtomicU32>, AllocError> {
    let mut seen = Vec::new(alloc);
    for _ in 0..=count {
        seen.push(AtomicU32::new(0))?;
    }
    Ok(seen)
}

/// The job of this ticket is seen once more.
fn see(seen: &[AtomicU32], ticket: u32) {
    if let Some(times) = seen.get(ticket as usize).or(seen.last()) {
        times.fetch_add(1, Ordering::SeqCst);
    }
}

/// Whether the jobs of the first so many tickets were seen once each, and no others.
fn are_seen_once(seen: &[AtomicU32], count: usize) -> bool {
    for (i, times) in seen.iter().enumerate() {
        let is_wanted = i < count;
        if times.load(Ordering::SeqCst) != u32::from(is_wanted) {
            return false;
        }
    }
    count < seen.len()
}

/// Puts so many jobs, under tickets that no intake has had yet, and finishes.
fn put_all<S: Site, R: Wait>(
    rt: &R,
    mut intake: Intake<S>,
    tickets: &AtomicU32,
    count: u32,
) -> IntakeHome<S> {
    let first = tickets.fetch_add(count, Ordering::SeqCst);
    put_some(rt, &mut intake, first, count);
    intake.finish()
}

/// Takes jobs until there are no more, and finishes.
fn take_all<S: Site, R: Wait>(rt: &R, mut outlet: Outlet<S>, seen: &[AtomicU32]) -> OutletHome<S> {
    for _ in rt.forever() {
        match ticket_of(outlet.take(rt)) {
            Some(ticket) => see(seen, ticket),
            None => break,
        }
    }
    outlet.finish()
}

/// Each intake puts so many jobs and goes home, in a thread of its own.
fn all_put<S: Site + Send, R: Threads + Wait + Sync>(
    rt: &R,
    intakes: Vec<Intake<S>>,
    count: u32,
) -> Result<Vec<IntakeHome<S>>, AllocError> {
    let tickets = AtomicU32::new(0);
    let put = |intake: Intake<S>| put_all(rt, intake, &tickets, count);
    thread::map_vec(rt, intakes, &put)
}

/// Each outlet takes what there is and goes home, in a thread of its own.
fn all_take<S: Site + Send, R: Threads + Wait + Sync>(
    rt: &R,
    outlets: Vec<Outlet<S>>,
    seen: &[AtomicU32],
) -> Result<Vec<OutletHome<S>>, AllocError> {
    let take = |outlet: Outlet<S>| take_all(rt, outlet, seen);
    thread::map_vec(rt, outlets, &take)
}

/// How many jobs were put, taken and drained.
type Counts = (u64, u64, usize);

/// What was settled, by the jobs' numbers; those that were left are seen, too.
fn counts_of(settled: &Settled, seen: &[AtomicU32]) -> Counts {
    for job in &settled.drained {
        see(seen, job.ticket);
    }
    (settled.put, settled.taken, settled.drained.len())
}

/// What is settled of a stage, where nothing is missing.
fn settled_counts<E: Drop>(answer: Result<Settled, E>, seen: &[AtomicU32]) -> Option<Counts> {
    match &answer {
        Ok(settled) => Some(counts_of(settled, seen)),
        Err(_) => None,
    }
}

/// A stage of so many jobs at once, with so many ends and so many jobs of each intake, which is run so often.
struct Row {
    times: u32,
    capacity: usize,
    intakes: u32,
    outlets: u32,
    count: u32,
    /// What is counted each time.
    wanted: Counts,
}

/// Stages with many ends, one of each kind, and none of one kind or both.
const ROWS: [Row; 6] = [
    Row {
        times: 1,
        capacity: 2,
        intakes: 2,
        outlets: 2,
        count: 100,
        wanted: (200, 200, 0),
    },
    Row {
        times: 1,
        capacity: 1,
        intakes: 1,
        outlets: 1,
        count: 100,
        wanted: (100, 100, 0),
    },
    Row {
        times: 1,
        capacity: 4096,
        intakes: 0,
        outlets: 2,
        count: 100,
        wanted: (0, 0, 0),
    },
    Row {
        times: 1,
        capacity: 4096,
        intakes: 2,
        outlets: 0,
        count: 100,
        wanted: (0, 0, 0),
    },
    Row {
        times: 1,
        capacity: 4096,
        intakes: 0,
        outlets: 0,
        count: 100,
        wanted: (0, 0, 0),
    },
    Row {
        times: 100,
        capacity: 1,
        intakes: 7,
        outlets: 5,
        count: 10,
        wanted: (70, 70, 0),
    },
];

/// A thread for each end: each intake puts so many jobs, each outlet takes until there are no more.
fn many_threads<S: Site + Send, R: Threads + Wait + Sync>(
    rt: &R,
    alloc: Global,
    stage: Stage,
    row: &Row,
    seen: &[AtomicU32],
) -> Result<Option<Counts>, AllocError>
    requires { stage ≡ S.stage }
{
    let (intakes, outlets, desk) = stage.ends::<S>(alloc, row.intakes, row.outlets)?;
    let count = row.count;
    let (intakes, outlets) = thread::join(
        rt,
        move || all_put(rt, intakes, count),
        move || all_take(rt, outlets, seen),
    );
    let (intakes, outlets) = intakes.ok().zip(outlets.ok()).ok_or(AllocError)?;
    Ok(settled_counts(desk.settle(rt, alloc, intakes, outlets), seen))
}

/// That run, with the stage's mark made here.
fn counted<R: Threads + Wait + Sync>(
    rt: &R,
    alloc: Global,
    row: &Row,
    seen: &[AtomicU32],
) -> Result<Option<Counts>, AllocError> {
    if row.capacity == 0 || row.capacity > 4096 {
        return Err(AllocError);
    }
    many_threads::<Brand, R>(rt, alloc, Stage::new(alloc, row.capacity)?, row, seen)
}

/// Whether a run counts what it should, and each ticket from 0 on is there once.
fn is_right<R: Threads + Wait + Sync>(
    rt: &R,
    alloc: Global,
    row: &Row,
) -> Result<bool, AllocError> {
    let seen = unseen(alloc, row.intakes.wrapping_mul(row.count))?;
    let counts = counted(rt, alloc, row, seen.as_slice());
    let (_, taken, drained) = row.wanted;
    let are_once = are_seen_once(seen.as_slice(), (taken as usize).wrapping_add(drained));
    drop(seen);
    Ok(counts? == Some(row.wanted) && are_once)
}

/// Whether each run of a row is right.
fn are_right<R: Threads + Wait + Sync>(
    rt: &R,
    alloc: Global,
    row: &Row,
) -> Result<bool, AllocError> {
    for _ in 0..row.times {
        if !is_right(rt, alloc, row)? {
            return Ok(false);
        }
    }
    Ok(true)
}

/// The first row of which a run isn't right.
fn wrong_row<R: Threads + Wait + Sync>(rt: &R, alloc: Global) -> Result<Option<usize>, AllocError> {
    for (i, row) in ROWS.iter().enumerate() {
        if !are_right(rt, alloc, row)? {
            return Ok(Some(i));
        }
    }
    Ok(None)
}

#[test]
fn each_job_is_there_once(rt: HostRuntime) -> Result<(), Fail> {
    assert_eq!(rt; wrong_row(&rt, rt.alloc())?, None);
    Ok(())
}

/// The first of these intakes puts the job of ticket 1: the ticket of the one that comes back.
fn put_back<S: Site, R: Wait>(rt: &R, mut intakes: Vec<Intake<S>>) -> Option<u32> {
    let intake = intakes.first_mut()?;
    let second = job(1).ok()?;
    ticket_of(intake.put(rt, second).err())
}

/// Finishes the outlets after a while.
fn finish_late<S: Site, R: Clock>(rt: &R, alloc: Global, outlets: Vec<Outlet<S>>) {
    thread::sleep(rt, Duration::from_millis(100));
    drop(outlets_home(alloc, outlets));
}

/// A thread waits at a full queue of one while the only outlet finishes: whether the second job comes back.
fn outlet_leaves<S: Site + Send, R: Threads + Wait + Sync + Clock>(
    rt: &R,
    alloc: Global,
    stage: Stage,
) -> Result<bool, AllocError>
    requires { stage ≡ S.stage }
{
    let (mut intakes, outlets, _desk) = stage.ends::<S>(alloc, 1, 1)?;
    put_by_first(rt, intakes.as_mut_slice(), 1);
    let (back, ()) = thread::join(
        rt,
        move || put_back(rt, intakes),
        move || finish_late(rt, alloc, outlets),
    );
    Ok(back == Some(1))
}

/// That run, with the stage's mark made here.
fn left<R: Threads + Wait + Sync + Clock>(rt: &R, alloc: Global) -> Result<bool, AllocError> {
    outlet_leaves::<Brand, R>(rt, alloc, Stage::new(alloc, 1)?)
}

#[test]
fn a_put_that_waits_gets_its_job_back(rt: HostRuntime) -> Result<(), Fail> {
    assert!(rt; left(&rt, rt.alloc())?);
    Ok(())
}

/// An intake comes, puts two jobs from this ticket on, and goes home.
fn come_and_go<S: Site, R: Wait>(
    rt: &R,
    reception: &mut Reception<S>,
    first: u32,
) -> Result<(), AllocError>
    requires { (reception.old.is_open ≡ true) × (reception.old.made.intakes < 2 ^ 32 - 1) }
    ensures { IfOk result (λ _. (reception.new.is_open ≡ true)
        × (reception.new.made.intakes ≡ reception.old.made.intakes + 1)) }
{
    let mut intake = reception.intake()?;
    put_some(rt, &mut intake, first, 2);
    reception.take_home(intake.finish());
    Ok(())
}

/// Whether a stage that missed an intake is drained once that has come home, and leaves all jobs but the first.
fn is_drained_again<S: Site, R: Wait>(
    rt: &R,
    alloc: Global,
    back: Undrained<S>,
    late: IntakeHome<S>,
) -> bool {
    let Undrained {
        fault,
        mut reception,
        outlets,
    } = back;
    reception.take_home(late);
    let is_settled = is_settled(reception.drain(rt, alloc, outlets), 4, 1, &[1, 2, 3]);
    is_settled && fault == StageFault::Missing
}

/// Whether a stage misses this intake, and is drained once that has come home.
fn is_drained_late<S: Site, R: Wait>(
    rt: &R,
    alloc: Global,
    reception: Reception<S>,
    outlets: Vec<OutletHome<S>>,
    late: IntakeHome<S>,
) -> bool {
    match reception.drain(rt, alloc, outlets).err() {
        Some(back) => is_drained_again(rt, alloc, back, late),
        None => false,
    }
}

/// Two intakes come one after the other, of whose jobs the outlet takes the first. A third one comes last, and is given.
fn last_that_comes<S: Site, R: Wait>(
    rt: &R,
    reception: &mut Reception<S>,
    outlets: &mut [Outlet<S>],
) -> Option<IntakeHome<S>>
    requires { (reception.old.is_open ≡ true) × (reception.old.made.intakes ≡ 0) }
{
    come_and_go(rt, reception, 0).ok()?;
    if ticket_of(outlets.first_mut()?.take(rt)) != Some(0) {
        return None;
    }
    come_and_go(rt, reception, 2).ok()?;
    let late = reception.intake().ok()?;
    reception.shut();
    Some(late.finish())
}

/// Whether the outlet takes the first job, the stage misses the third intake, which comes home late, and the other jobs
/// are drained.
fn open_stage<S: Site, R: Wait>(rt: &R, alloc: Global, stage: Stage) -> Result<bool, AllocError>
    requires { stage ≡ S.stage }
{
    let (mut outlets, mut reception) = stage.open::<S>(alloc, 1)?;
    let late = last_that_comes(rt, &mut reception, outlets.as_mut_slice());
    let outlets = outlets_home(alloc, outlets);
    match late {
        Some(late) => Ok(is_drained_late(rt, alloc, reception, outlets, late)),
        None => Ok(false),
    }
}

/// That run, with the stage's mark made here.
fn is_drained<R: Wait>(rt: &R, alloc: Global) -> Result<bool, AllocError> {
    open_stage::<Brand, R>(rt, alloc, Stage::new(alloc, 8)?)
}

#[test]
fn a_reception_is_drained(rt: HostRuntime) -> Result<(), Fail> {
    assert!(rt; is_drained(&rt, rt.alloc())?);
    Ok(())
}

/// Whether the job of this ticket is the next that an outlet takes, without a wait.
fn takes<S: Site, R: Wait>(rt: &R, outlet: &mut Outlet<S>, ticket: u32) -> bool {
    ticket_of(outlet.try_take(rt)) == Some(ticket)
}

/// So many intakes come and go, and the outlet takes what each put: whether in order.
fn are_taken_in_order<S: Site, R: Wait>(
    rt: &R,
    reception: &mut Reception<S>,
    outlet: &mut Outlet<S>,
    count: u32,
) -> Result<bool, AllocError>
    requires { (reception.old.is_open ≡ true) × (reception.old.made.intakes ≡ 0) }
{
    let mut first = 0u32;
    for _ in 0..count {
        come_and_go(rt, reception, first)?;
        if !takes(rt, outlet, first) || !takes(rt, outlet, first.wrapping_add(1)) {
            return Ok(false);
        }
        first = first.wrapping_add(2);
    }
    Ok(true)
}

/// Whether so many intakes come and go, whose jobs the outlet takes in order, and then finds that no more come.
fn comes_to_an_end<S: Site, R: Wait>(
    rt: &R,
    reception: &mut Reception<S>,
    outlets: &mut [Outlet<S>],
    count: u32,
) -> bool
    requires { (reception.old.is_open ≡ true) × (reception.old.made.intakes ≡ 0) }
{
    let Some(outlet) = outlets.first_mut() else {
        return false;
    };
    let are_in_order = are_taken_in_order(rt, reception, outlet, count);
    reception.shut();
    are_in_order == Ok(true) && ticket_of(outlet.take(rt)).is_none()
}

/// Whether 500 intakes come and go so, and the stage counts a thousand jobs that were put, and as many that were taken.
fn many_come_and_go<S: Site, R: Wait>(
    rt: &R,
    alloc: Global,
    stage: Stage,
) -> Result<bool, AllocError>
    requires { stage ≡ S.stage }
{
    let (mut outlets, mut reception) = stage.open::<S>(alloc, 1)?;
    let is_over = comes_to_an_end(rt, &mut reception, outlets.as_mut_slice(), 500);
    let answer = reception.drain(rt, alloc, outlets_home(alloc, outlets));
    Ok(is_settled(answer, 1000, 1000, &[]) && is_over)
}

/// That run, with the stage's mark made here.
fn came_and_went<R: Wait>(rt: &R, alloc: Global) -> Result<bool, AllocError> {
    many_come_and_go::<Brand, R>(rt, alloc, Stage::new(alloc, 2)?)
}

#[test]
fn intakes_come_and_go(rt: HostRuntime) -> Result<(), Fail> {
    assert!(rt; came_and_went(&rt, rt.alloc())?);
    Ok(())
}
