//! A run whose history is full before all its links have come.

ghost use Rattle.std.specs.Prelude.{◌≡◌, []};

use gn_fixtures::{PING, usual};
use gn_hub::Batch;
use gn_links::{Gate, Link, Made, MemoryLink, MemoryReader, MemoryWriter, Place};
use gn_rules::{Config, FreshRouter, Historian};
use gn_shake::Role;
use gn_table_router::TableRouter;
use gn_threads::{
    Arrivals, Asked, Coming, InMemory, Routing, RunFault, run_arriving, run_arriving_by,
};
use std::alloc::{AllocError, Allocator, Global};
use std::process::Abort;
use std::sync::Wait;
use std::sync::atomic::{AtomicBool, AtomicU32, Ordering};
use std::test::Fail;
use std::thread::{self, Threads};
use std::vec::IntoIter;

/// The roles of the three links of a run.
const ROLES: [Role; 3] = [Role::Plain, Role::Accepting, Role::Accepting];

/// How often one looks at most whether a run has failed, or its second link is waited for.
const MOST_LOOKS: u32 = 100_000_000;

/// Whether a run has failed, and how many links it has waited for.
#[derive(Drop)]
struct News {
    has_failed: AtomicBool,
    asked: AtomicU32,
}

impl Gate for News {
    fn enter<R: Wait>(&self, _rt: &R, _worker: u32, _ticket: u32) {}

    /// The first link's reader goes on from its only step once the second link is waited for.
    fn made(&self, _place: Place, _step: Made) {
        for _ in 0..MOST_LOOKS {
            if self.asked.load(Ordering::SeqCst) > 1 {
                return;
            }
            thread::yield_now();
        }
    }

    fn failed(&self) {
        self.has_failed.store(true, Ordering::SeqCst);
    }
}

impl News {
    /// A link is waited for. Each but the first comes only once the run has failed.
    fn ask(&self) {
        if self.asked.fetch_add(1, Ordering::SeqCst) == 0 {
            return;
        }
        for _ in 0..MOST_LOOKS {
            if self.has_failed.load(Ordering::SeqCst) {
                return;
            }
            thread::yield_now();
        }
    }
}

/// Links of which each but the first comes late.
#[derive(Drop)]
struct Late<'a> {
    links: IntoIter<MemoryLink>,
    news: &'a News,
}

impl<'a> Arrivals for Late<'a> {
    ghost use Rattle.std.specs.Prelude.{false};
    ghost use Rattle.std.specs.Vec.Iter.{into_iter_items};

    type Origin = MemoryLink;

    type Foreknown = MemoryLink;

    /// The half of a link that is read.
    type Reader = MemoryReader;

    /// The half of a link that is written.
    type Writer = MemoryWriter;

    ghost has_peers = { false };

    ghost foreknown = { λ origin. origin };

    ghost coming = { λ late. into_iter_items late.links };

    /// A link that is missing is one that there is no memory for.
    fn next(&mut self, link: u32, _role: Role) -> Result<(MemoryReader, MemoryWriter), RunFault> {
        self.news.ask();
        let Some(next) = self.links.next() else {
            return Err(RunFault::NoMemory);
        };
        match next.split() {
            Ok(halves) => Ok(halves),
            Err(_) => Err(RunFault::Audit(link)),
        }
    }
}

/// A greeted link that ends within its greeting.
fn greeted(alloc: Global) -> MemoryLink {
    MemoryLink::new(Role::Accepting, Vec::new(alloc), 4096)
}

/// The first so many of a plain link of one Ping and two greeted ones.
fn links_of(alloc: Global, count: usize) -> Result<IntoIter<MemoryLink>, AllocError> {
    let first = MemoryLink::new(Role::Plain, PING.to_vec(alloc)?, 4096);
    let mut links = vec![in alloc; first, greeted(alloc), greeted(alloc)]?;
    links.truncate(count);
    Ok(links.into_iter())
}

/// What is told while no link has been asked for.
fn no_news() -> News {
    News {
        has_failed: AtomicBool::new(false),
        asked: AtomicU32::new(0),
    }
}

/// The fault of a run over these links, and how many were asked for.
fn fault_and_asked<A: Allocator + Copy + Send + Sync, R: Threads + Wait + Sync>(
    rt: &R,
    alloc: A,
    config: &Config,
    links: IntoIter<MemoryLink>,
) -> (Option<RunFault>, u32) {
    let news = no_news();
    let late = Late { links, news: &news };
    let served = run_arriving::<TableRouter<A>, Late<'_>, News, A, R>(
        rt, alloc, config, &ROLES, late, 1, &news,
    );
    (served.err(), news.asked.load(Ordering::SeqCst))
}

/// The fault of a run over these links, and of how many it is known what they did.
fn fault_and_known<
    A: Allocator + Copy + Send + Sync,
    C: Historian<A> + Drop + Send,
    R: Threads + Wait + Sync,
>(
    rt: &R,
    alloc: A,
    config: &Config,
    core: C,
    links: IntoIter<MemoryLink>,
) -> Option<(RunFault, usize)>
    requires { C.steps core ≡ [] }
{
    let news = no_news();
    let asked = Asked {
        config,
        workers: 1,
        gate: &news,
        batch: Batch::one(),
    };
    let arrivals = Late { links, news: &news };
    let coming = Coming {
        roles: &ROLES,
        arrivals,
    };
    let routing = Routing {
        core,
        course: InMemory,
    };
    let (answer, _core) = run_arriving_by::<C, InMemory, Late<'_>, News, A, R>(
        rt, alloc, &asked, coming, routing,
    );
    let Err(halted) = &answer else {
        return None;
    };
    let known = match &halted.links {
        Some(links) => links.len(),
        None => 0,
    };
    Some((halted.fault, known))
}

/// The same of a run of at most one step over the table router.
fn fault_of_one_step<A: Allocator + Copy + Send + Sync, R: Threads + Wait + Sync>(
    rt: &R,
    alloc: A,
    links: IntoIter<MemoryLink>,
) -> Result<Option<(RunFault, usize)>, Fail> {
    let config = usual(1)?;
    let core = TableRouter::<A>::make(alloc, &config)?;
    Ok(fault_and_known(rt, alloc, &config, core, links))
}

/// Fails unless a full history is named, and all three links are asked for, of which the last doesn't come.
fn name_full<R: Threads + Wait + Sync + Abort>(rt: &R, alloc: Global) -> Result<(), Fail> {
    let config = usual(1)?;
    let found = fault_and_asked(rt, alloc, &config, links_of(alloc, 2)?);
    assert_eq!(rt; found, (Some(RunFault::HistoryFull), 3));
    Ok(())
}

/// The first link's reader alone finds the history full, while the second link is waited for. That comes then; the third is asked for, too,
/// and there is no memory for it.
#[test]
fn a_full_history_is_named_by_any_thread(rt: HostRuntime) -> Result<(), Fail> {
    name_full(&rt, rt.alloc())
}

/// Fails unless a full history leaves what each of three links did.
fn leave_all<R: Threads + Wait + Sync + Abort>(rt: &R, alloc: Global) -> Result<(), Fail> {
    let found = fault_of_one_step(rt, alloc, links_of(alloc, 3)?)?;
    assert_eq!(rt; found, Some((RunFault::HistoryFull, 3)));
    Ok(())
}

/// The same where the third link comes, too: it is known what each of them did.
#[test]
fn a_full_history_leaves_what_each_link_did(rt: HostRuntime) -> Result<(), Fail> {
    leave_all(&rt, rt.alloc())
}
