//! A run whose links come one after another, of which nobody says how many.

ghost use Rattle.std.specs.Prelude.{◌≡◌, ◌<◌, ◌≤◌, ◌^◌, ⊤, [], Some, false, map, Err, IfOk, None};
ghost use Rattle.gn_rules.specs.Limits.{IsCrew, most_links, most_reads};
ghost use Rattle.gn_report.specs.declared.account.LinkEnd.TheVariants.{Whole};
ghost use Rattle.gn_start.specs.Over.{views_of};
ghost use Rattle.gn_threads.specs.Answers.{IsKeptAnswer, halted_views};
ghost use Rattle.gn_threads.specs.Courses.{IsLeft};
ghost use Rattle.gn_threads.specs.OpenRuns.{AreOpenStepsOf, IsOpenAnswer, IsOpenFault, IsRecalledAnswer, known_report};

use crate::arriving::{PARTS, run_bodies};
use crate::asked::{Asked, Routing};
use crate::course::Course;
use crate::ending::Begun;
use crate::halted::Halted;
use crate::open_account::OpenAccount;
use crate::open_ending::conclude_open;
use crate::opening::{Opening, open_run};
use gn_actors::{Named, Numbering, Unopened};
use gn_links::Gate;
use gn_report::Keeping;
use gn_room::Signal;
use gn_rules::{MOST_WORKERS, RouterCore};
use gn_stage::{Site, Stage};
use gn_start::{Floor, Incoming, Limited, Limits, RunFault};
use std::alloc::Allocator;
use std::marker::Brand;
use std::sync::Wait;
use std::sync::ledger::Ledger;
use std::thread::Threads;

/// Where the links of such a run come from, who is lent what each did, how many may be there at once, and the signal by which whoever
/// has a link for the run wakes it.
#[derive(Drop)]
pub struct Entering<'a, V, K> {
    pub incoming: V,
    pub keeper: K,
    pub slots: u32,
    pub signal: &'a Signal,
}

/// Runs a router, which has no steps, over links that come one after another, each with a reader and a writer, and with this many workers,
/// until no more links come and all these threads have ended. Each link is let go as it ends: nothing of it is kept but what its keeper
/// keeps. The keeper comes back, and what is left of who ran beside the run, who had all of its steps. The steps of before that the house
/// makes again, where there are any, are the first of them.
pub fn run_open<
    C: RouterCore<A> + Drop + Send,
    W: Course<C, A> + Send + Drop,
    V: Incoming,
    K: Keeping<V::Reader, V::Writer, A>,
    G: Gate + Sync,
    A: Allocator + Copy + Send + Sync,
    R: Threads + Wait + Sync,
>(
    rt: &R,
    alloc: A,
    asked: &Asked<'_, G>,
    entering: Entering<'_, V, K>,
    routing: Routing<C, W>,
) -> (
    Result<OpenAccount<V::Reader, V::Writer, A>, Halted<A>>,
    K,
    W::Rest,
)
where
    V::Reader: Send,
    V::Writer: Send,
    W::Followed: Send + Drop,
    requires slots { (0 < entering.slots) × (entering.slots ≤ most_links) }
    requires unknown { V.is_known ≡ false }
    requires keeper { K.keeps entering.keeper [] }
    requires empty { C.steps routing.core ≡ [] }
    ensures answer { IsKeptAnswer asked.now.config.now asked.now.workers (IsOpenFault V.has_peers asked.now.workers)
        (λ _. ⊤) (λ _. ⊤) known_report halted_views result.0 }
    ensures account { V.recalls entering.entry.incoming ≡ false
        → IfOk result.0 (IsOpenAnswer (V.originates entering.entry.incoming)
        (views_of V.Reader.state V.Writer.state V.Reader.gives V.Reader.made_of V.Writer.made_of) V.foreknown
        asked.now.batch asked.now.config.now asked.now.workers (V.may_come entering.entry.incoming)) }
    ensures recalled { IfOk result.0 (IsRecalledAnswer
        (views_of V.Reader.state V.Writer.state V.Reader.gives V.Reader.made_of V.Writer.made_of) V.foreknown
        asked.now.config.now asked.now.workers (V.may_come entering.entry.incoming)) }
    ensures keeper { IfOk result.0 (λ account.
        K.keeps result.1 (map (λ link. Some (Whole link)) account.links.items)) }
    ensures rest { IsLeft (W.follows routing.course) W.leaves result.2 (AreOpenStepsOf result.0) }
{
    let workers = asked.workers;
    if workers == 0 || workers > MOST_WORKERS {
        return not_begun(RunFault::BadWorkers, entering, routing);
    }
    let Ok(stage) = Stage::new(alloc, asked.config.numbers.stage as usize) else {
        return not_begun(RunFault::NoMemory, entering, routing);
    };
    let unopened = Unopened::new(PARTS);
    run_open_in::<Brand, C, W, V, K, G, A, R>(rt, alloc, unopened, stage, asked, entering, routing)
}

/// What such a run answers that didn't begin.
fn not_begun<
    C: RouterCore<A> + Drop,
    W: Course<C, A> + Drop,
    V: Incoming,
    K: Drop,
    A: Allocator + Copy,
>(
    fault: RunFault,
    entering: Entering<'_, V, K>,
    routing: Routing<C, W>,
) -> (
    Result<OpenAccount<V::Reader, V::Writer, A>, Halted<A>>,
    K,
    W::Rest,
)
    ensures answer { result.0 ≡ Err (record { fault = fault; history = None; links = None }) }
    ensures rest { (ran : W.Followed) × W.follows routing.course ran × W.leaves ran [] result.2 }
{
    let Entering { keeper, .. } = entering;
    (Err(Halted::before(fault)), keeper, routing.course.give_up())
}

/// Such a run with its ledger, its stage and its limits, which `B` names.
fn run_open_in<
    B: Site + Ledger + Limited + Named + Send + Sync,
    C: RouterCore<A> + Drop + Send,
    W: Course<C, A> + Send + Drop,
    V: Incoming,
    K: Keeping<V::Reader, V::Writer, A>,
    G: Gate + Sync,
    A: Allocator + Copy + Send + Sync,
    R: Threads + Wait + Sync,
>(
    rt: &R,
    alloc: A,
    unopened: Unopened<A>,
    stage: Stage<A>,
    asked: &Asked<'_, G>,
    entering: Entering<'_, V, K>,
    routing: Routing<C, W>,
) -> (
    Result<OpenAccount<V::Reader, V::Writer, A>, Halted<A>>,
    K,
    W::Rest,
)
where
    V::Reader: Send,
    V::Writer: Send,
    W::Followed: Send + Drop,
    requires names { (unopened.blank.name ≡ B.name) × (unopened.steps.name ≡ B.growing) × (stage ≡ B.stage) }
    requires parts { (unopened.blank.parts ≡ B.parts) × (2 ^ 33 ≤ B.parts) }
    requires turns { B.turns ≡ most_reads asked.now.config.now.numbers.steps }
    requires batch { B.batch ≡ asked.now.batch }
    requires few { IsCrew asked.now.workers }
    requires slots { (0 < entering.slots) × (entering.slots ≤ most_links) }
    requires unknown { V.is_known ≡ false }
    requires keeper { K.keeps entering.keeper [] }
    requires empty { C.steps routing.core ≡ [] }
    ensures answer { IsKeptAnswer asked.now.config.now asked.now.workers (IsOpenFault V.has_peers asked.now.workers)
        (λ _. ⊤) (λ _. ⊤) known_report halted_views result.0 }
    ensures account { V.recalls entering.entry.incoming ≡ false
        → IfOk result.0 (IsOpenAnswer (V.originates entering.entry.incoming)
        (views_of V.Reader.state V.Writer.state V.Reader.gives V.Reader.made_of V.Writer.made_of) V.foreknown
        B.batch asked.now.config.now asked.now.workers (V.may_come entering.entry.incoming)) }
    ensures recalled { IfOk result.0 (IsRecalledAnswer
        (views_of V.Reader.state V.Writer.state V.Reader.gives V.Reader.made_of V.Writer.made_of) V.foreknown
        asked.now.config.now asked.now.workers (V.may_come entering.entry.incoming)) }
    ensures keeper { IfOk result.0 (λ account.
        K.keeps result.1 (map (λ link. Some (Whole link)) account.links.items)) }
    ensures rest { IsLeft (W.follows routing.course) W.leaves result.2 (AreOpenStepsOf result.0) }
{
    let (config, workers) = (asked.config, asked.workers);
    let Entering {
        incoming,
        keeper,
        slots,
        signal,
    } = entering;
    let Routing { core, course } = routing;
    let numbering = Numbering::Open { workers };
    let room = course.room();
    let Ok(opening) = open_run::<B, C, A>(
        alloc, unopened, stage, core, room, numbering, workers, slots,
    ) else {
        return (
            Err(Halted::before(RunFault::NoMemory)),
            keeper,
            course.give_up(),
        );
    };
    let Opening { service, opened } = opening;
    let limits = Limits::of(config, asked.batch);
    let floor = Floor {
        rt,
        alloc,
        service: &service,
        gate: asked.gate,
        limits: &limits,
        signal,
    };
    let begun = Begun::new(opened, incoming, keeper);
    let (left, ran) = run_bodies(&floor, begun, course);
    let mut hub = service.into_hub();
    let (answer, keeper) = conclude_open::<V, K, B, C, A>(alloc, config, &mut hub, left, workers);
    let rest = W::end(ran, hub.into_router());
    (answer, keeper, rest)
}
