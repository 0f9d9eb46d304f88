//! A run whose links come one after another.

ghost use Rattle.std.specs.Prelude.{◌≡◌, ◌<◌, ◌≤◌, ◌^◌, [], None, length, take, vec_len, IfErr, IfOk, IfSome};
ghost use Rattle.gn_rules.specs.Limits.{IsCrew, most_links, most_reads};
ghost use Rattle.gn_actors.specs.Who.{number_of};
ghost use Rattle.gn_actors.specs.declared.who.Who.TheVariants.{House};
ghost use Rattle.gn_report.specs.Accounts.{report_of};
ghost use Rattle.gn_start.specs.Faults.{IsArrivingFault};
ghost use Rattle.gn_start.specs.House.{IsHouse};
ghost use Rattle.gn_start.specs.Numbers.{workers_of};
ghost use Rattle.gn_start.specs.Over.{HaveCome, IsOver, views_of};
ghost use Rattle.gn_threads.specs.Answers.{AreArrived, IsKeptAnswer, IsRunAnswer, halted_views, stopped_views};
ghost use Rattle.gn_threads.specs.Courses.{AreStepsOf, AreTallies, IsLeft};
ghost use Rattle.gn_threads.specs.Headline.{AreMadeOf, Holds};
ghost use Rattle.gn_threads.specs.Left.{IsFaultAt};

use crate::arrivals::Arrivals;
use crate::asked::{Asked, Coming, Routing};
use crate::course::{Course, InMemory};
use crate::ending::{Begun, run_to_end};
use crate::finishing::conclude;
use crate::halted::Halted;
use crate::in_order::InOrder;
use crate::opening::{Opening, open_run};
use crate::reporting::told_by;
use crate::settling::Left;
use crate::stopped::Stopped;
use gn_actors::{Named, Numbering, Unopened};
use gn_hub::Batch;
use gn_links::Gate;
use gn_report::{Account, Keeping, Kept, Report};
use gn_room::{Signal, run_beside};
use gn_rules::{Config, Historian, MOST_WORKERS, RouterCore};
use gn_shake::Role;
use gn_stage::{Site, Stage};
use gn_start::{Floor, Incoming, Limited, Limits, RunFault};
use std::alloc::Allocator;
use std::marker::Brand;
use std::sync::Wait;
use std::sync::ledger::Ledger;
use std::thread::Threads;

/// The parts of a run's ledger: more than there are numbers of actors.
pub(crate) const PARTS: u64 = 1 << 33;

/// As `run`, over links of these roles that come one after another: the bodies of each start as soon as it has come. Where
/// one doesn't come, what has started is ended, and that fault is answered.
pub fn run_arriving<
    C: Historian<A> + Drop + Send,
    V: Arrivals,
    G: Gate + Sync,
    A: Allocator + Copy + Send + Sync,
    R: Threads + Wait + Sync,
>(
    rt: &R,
    alloc: A,
    config: &Config,
    roles: &[Role],
    arrivals: V,
    workers: u32,
    gate: &G,
) -> Result<Report<V::Reader, V::Writer, A>, RunFault>
where
    V::Reader: Send,
    V::Writer: Send,
    requires few { length roles.now ≤ most_links }
    ensures answer { IsRunAnswer workers (IsArrivingFault V.has_peers (length roles.now) workers)
        (Holds 1 V.Reader.state V.Writer.state config.now roles.now workers)
        (AreMadeOf (λ reader. V.foreknown (V.Reader.made_of reader)) (λ writer. V.foreknown (V.Writer.made_of writer))
        (take (length roles.now) (V.coming arrivals))) (λ report. report) (λ fault. fault) result }
    ensures arrived { IfOk result (λ report.
        AreArrived V.Reader.state V.Reader.gives V.Reader.made_of V.Writer.made_of report) }
{
    match run_arriving_kept::<C, V, G, A, R>(rt, alloc, config, roles, arrivals, workers, gate) {
        Ok(report) => Ok(report),
        Err(stopped) => Err(stopped.fault),
    }
}

/// Does the same, and a fault comes with what stands of the history, which is legal by the configuration of the call, and has as
/// many steps as it may have where the fault is a full history.
pub fn run_arriving_kept<
    C: Historian<A> + Drop + Send,
    V: Arrivals,
    G: Gate + Sync,
    A: Allocator + Copy + Send + Sync,
    R: Threads + Wait + Sync,
>(
    rt: &R,
    alloc: A,
    config: &Config,
    roles: &[Role],
    arrivals: V,
    workers: u32,
    gate: &G,
) -> Result<Report<V::Reader, V::Writer, A>, Stopped<A>>
where
    V::Reader: Send,
    V::Writer: Send,
    requires few { length roles.now ≤ most_links }
    ensures answer { IsKeptAnswer config.now workers (IsArrivingFault V.has_peers (length roles.now) workers)
        (Holds 1 V.Reader.state V.Writer.state config.now roles.now workers)
        (AreMadeOf (λ reader. V.foreknown (V.Reader.made_of reader)) (λ writer. V.foreknown (V.Writer.made_of writer))
        (take (length roles.now) (V.coming arrivals))) (λ report. report) stopped_views result }
    ensures arrived { IfOk result (λ report.
        AreArrived V.Reader.state V.Reader.gives V.Reader.made_of V.Writer.made_of report) }
{
    if workers == 0 || workers > MOST_WORKERS {
        return Err(Stopped::before(RunFault::BadWorkers));
    }
    let Ok(core) = C::make(alloc, config) else {
        return Err(Stopped::before(RunFault::NoMemory));
    };
    let asked = Asked {
        config,
        workers,
        gate,
        batch: Batch::one(),
    };
    let routing = Routing {
        core,
        course: InMemory,
    };
    let coming = Coming { roles, arrivals };
    let (answer, core) = run_arriving_by::<C, InMemory, V, G, A, R>(
        rt, alloc, &asked, coming, routing,
    );
    told_by(alloc, answer, core)
}

/// Does the same with a router of no steps, whose steps may go to somebody who runs beside it, and with writers that take at most
/// `batch` packets at once. Nobody keeps its steps: the account tells its report. What is left of who ran beside it comes back,
/// who had all of them.
pub fn run_arriving_by<
    C: RouterCore<A> + Drop + Send,
    W: Course<C, A> + Send + Drop,
    V: Arrivals,
    G: Gate + Sync,
    A: Allocator + Copy + Send + Sync,
    R: Threads + Wait + Sync,
>(
    rt: &R,
    alloc: A,
    asked: &Asked<'_, G>,
    coming: Coming<'_, V>,
    routing: Routing<C, W>,
) -> (Result<Account<V::Reader, V::Writer, A>, Halted<A>>, W::Rest)
where
    V::Reader: Send,
    V::Writer: Send,
    W::Followed: Send + Drop,
    requires few { length coming.roles.now ≤ most_links }
    requires empty { C.steps routing.core ≡ [] }
    ensures answer { IsKeptAnswer asked.now.config.now asked.now.workers
        (IsArrivingFault V.has_peers (length coming.entry.roles.now) asked.now.workers)
        (Holds asked.now.batch V.Reader.state V.Writer.state asked.now.config.now coming.entry.roles.now
        asked.now.workers)
        (AreMadeOf (λ reader. V.foreknown (V.Reader.made_of reader)) (λ writer. V.foreknown (V.Writer.made_of writer))
        (take (length coming.entry.roles.now) (V.coming coming.entry.arrivals))) report_of halted_views result.0 }
    ensures arrived { IfOk result.0 (λ account.
        AreArrived V.Reader.state V.Reader.gives V.Reader.made_of V.Writer.made_of (report_of account)) }
    ensures tallied { IfErr result.0 (λ halted. IfSome halted.history (λ history. IfSome halted.links (λ links.
        AreTallies history.items (length coming.entry.roles.now) links.items))) }
    ensures rest { IsLeft (W.follows routing.course) W.leaves result.1 (AreStepsOf result.0) }
{
    let Coming { roles, arrivals } = coming;
    let workers = asked.workers;
    if workers == 0 || workers > MOST_WORKERS {
        return (
            Err(Halted::before(RunFault::BadWorkers)),
            routing.course.give_up(),
        );
    }
    let Ok(stage) = Stage::new(alloc, asked.config.numbers.stage as usize) else {
        return (
            Err(Halted::before(RunFault::NoMemory)),
            routing.course.give_up(),
        );
    };
    let unopened = Unopened::new(PARTS);
    let links = Coming { roles, arrivals };
    run_arriving_in::<Brand, C, W, V, G, A, R>(rt, alloc, unopened, stage, asked, links, routing)
}

/// A run with its ledger, its stage and its limits, which `B` names.
fn run_arriving_in<
    B: Site + Ledger + Limited + Named + Send + Sync,
    C: RouterCore<A> + Drop + Send,
    W: Course<C, A> + Send + Drop,
    V: Arrivals,
    G: Gate + Sync,
    A: Allocator + Copy + Send + Sync,
    R: Threads + Wait + Sync,
>(
    rt: &R,
    alloc: A,
    unopened: Unopened<A>,
    stage: Stage<A>,
    asked: &Asked<'_, G>,
    coming: Coming<'_, V>,
    routing: Routing<C, W>,
) -> (Result<Account<V::Reader, V::Writer, A>, Halted<A>>, W::Rest)
where
    V::Reader: Send,
    V::Writer: Send,
    W::Followed: Send + Drop,
    requires names { (unopened.blank.name ≡ B.name) × (unopened.steps.name ≡ B.growing) × (stage ≡ B.stage) }
    requires parts { (unopened.blank.parts ≡ B.parts) × (2 ^ 33 ≤ B.parts) }
    requires turns { B.turns ≡ most_reads asked.now.config.now.numbers.steps }
    requires batch { B.batch ≡ asked.now.batch }
    requires few { (length coming.roles.now ≤ most_links) × IsCrew asked.now.workers }
    requires empty { C.steps routing.core ≡ [] }
    ensures answer { IsKeptAnswer asked.now.config.now asked.now.workers
        (IsArrivingFault V.has_peers (length coming.entry.roles.now) asked.now.workers)
        (Holds B.batch V.Reader.state V.Writer.state asked.now.config.now coming.entry.roles.now asked.now.workers)
        (AreMadeOf (λ reader. V.foreknown (V.Reader.made_of reader)) (λ writer. V.foreknown (V.Writer.made_of writer))
        (take (length coming.entry.roles.now) (V.coming coming.entry.arrivals))) report_of halted_views result.0 }
    ensures arrived { IfOk result.0 (λ account.
        AreArrived V.Reader.state V.Reader.gives V.Reader.made_of V.Writer.made_of (report_of account)) }
    ensures tallied { IfErr result.0 (λ halted. IfSome halted.history (λ history. IfSome halted.links (λ links.
        AreTallies history.items (length coming.entry.roles.now) links.items))) }
    ensures rest { IsLeft (W.follows routing.course) W.leaves result.1 (AreStepsOf result.0) }
{
    let (config, workers) = (asked.config, asked.workers);
    let Coming { roles, arrivals } = coming;
    let Routing { core, course } = routing;
    let links = roles.len() as u32;
    let numbering = Numbering::Known { links, workers };
    let room = course.room();
    let Ok(opening) = open_run::<B, C, A>(
        alloc, unopened, stage, core, room, numbering, workers, links,
    ) else {
        return (Err(Halted::before(RunFault::NoMemory)), course.give_up());
    };
    let Opening { service, opened } = opening;
    let limits = Limits::of(config, asked.batch);
    let signal = Signal::new();
    let floor = Floor {
        rt,
        alloc,
        service: &service,
        gate: asked.gate,
        limits: &limits,
        signal: &signal,
    };
    let begun = Begun::new(opened, InOrder { arrivals, roles }, Kept::new(alloc));
    let (left, ran) = run_bodies(&floor, begun, course);
    let mut hub = service.into_hub();
    let answer = conclude::<InOrder<'_, V>, B, C, A>(alloc, config, &mut hub, left, links, workers);
    let rest = W::end(ran, hub.into_router());
    (answer, rest)
}

/// Runs all bodies to their ends, and who takes their steps beside them.
pub(crate) fn run_bodies<
    V: Incoming,
    K: Keeping<V::Reader, V::Writer, A>,
    B: Site + Ledger + Limited + Named + Send + Sync,
    C: RouterCore<A> + Drop + Send,
    W: Course<C, A> + Send + Drop,
    G: Gate + Sync,
    A: Allocator + Copy + Send + Sync,
    R: Threads + Wait + Sync,
>(
    floor: &Floor<'_, C, B, G, A, R>,
    begun: Begun<V, K, B, A>,
    course: W,
) -> (Left<V::Reader, V::Writer, K, B, A>, W::Followed)
where
    V::Reader: Send,
    V::Writer: Send,
    W::Followed: Send + Drop,
    ensures over { IsOver (views_of V.Reader.state V.Writer.state V.Reader.gives V.Reader.made_of V.Writer.made_of)
        K.keeps B.turns B.batch begun.opened.numbering (workers_of begun.opened.numbering) result.0.over }
    ensures came { HaveCome (views_of V.Reader.state V.Writer.state V.Reader.gives V.Reader.made_of V.Writer.made_of)
        V.foreknown V.is_known (V.may_come begun.incoming) (V.may_end begun.incoming) result.0.over }
    ensures house { IsHouse (V.recalls begun.incoming) (V.originates begun.incoming)
        (number_of begun.opened.numbering House) result.0.house }
    ensures fault { IsFaultAt V.has_peers begun.opened.numbering result.0.over result.0.fault }
    ensures follows { W.follows course result.1 }
{
    let bodies = move || run_to_end(floor, begun);
    if W::IS_BESIDE {
        return run_beside(floor.rt, floor.service.room(), course, bodies);
    }
    let left = bodies();
    (left, course.follow(floor.rt, floor.service.room()))
}
