//! The account of a run whose steps nobody keeps.

ghost use Rattle.std.specs.Prelude.{◌≡◌, ◌≤◌, [], length};
ghost use Rattle.gn_rules.specs.Limits.{most_links};

use gn_fixtures::usual;
use gn_hub::Batch;
use gn_links::{MemoryLink, MemoryReader, MemoryWriter, NoGate};
use gn_report::Account;
use gn_room::{Following, Room};
use gn_rules::{Config, Counter, FreshRouter, RouterCore, Stats};
use gn_run_fixtures::pings;
use gn_shake::Role;
use gn_table_router::TableRouter;
use gn_tables::Forgetful;
use gn_threads::{Asked, Course, Routing, run_by};
use std::alloc::{Allocator, Global};
use std::sync::Wait;
use std::test::Fail;
use std::thread::Threads;

/// Nobody has the steps of a run.
#[derive(Drop)]
struct Nobody;

impl Following for Nobody {
    ghost use Rattle.std.specs.Prelude.{⊤};

    type Followed = ();

    ghost follows = { λ _ _. ⊤ };

    fn follow<R: Wait>(self, _rt: &R, _room: &Room) {}
}

impl<C: RouterCore<A> + Drop, A: Allocator + Copy> Course<C, A> for Nobody {
    ghost use Rattle.std.specs.Prelude.{⊤};

    const IS_BESIDE: bool = false;

    type Rest = ();

    ghost leaves = { λ _ _ _. ⊤ };

    fn room(&self) -> Room {
        Room::endless()
    }

    fn end(_ran: (), core: C) {
        drop(core);
    }

    fn give_up(self) {}
}

/// Four links of 250 Pings each, as far as there is memory.
fn four_links(alloc: Global) -> Vec<MemoryLink>
    ensures { length result.items ≤ most_links }
{
    let mut links = Vec::new(alloc);
    for number in 0..4 {
        if let Ok(bytes) = pings(alloc, number, 250) {
            let _ = links.push(MemoryLink::new(Role::Plain, bytes, 4096));
        }
    }
    // It shows that they are few.
    links.truncate(4);
    links
}

/// How many descriptors the links of a run offered, how many of them were refused, and how many packets were taken.
type Counts = (u64, u64, u64);

/// What a run did over links in memory.
type Done = Account<MemoryReader, MemoryWriter>;

/// The counts by the tallies.
fn counted(account: &Done) -> Counts {
    let (mut offered, mut busy, mut taken) = (0u64, 0u64, 0u64);
    for link in &account.links {
        offered = offered.saturating_add(link.read.offered);
        busy = busy.saturating_add(link.read.busy);
        taken = taken.saturating_add(link.written.taken);
    }
    (offered, busy, taken)
}

/// The same by the counters.
fn counted_by(stats: &Stats) -> Counts {
    let busy = u64::from(stats.get(Counter::Busy));
    let offered = u64::from(stats.get(Counter::Admitted)).saturating_add(busy);
    (offered, busy, u64::from(stats.get(Counter::Taken)))
}

/// What the tallies and the counters say of a run of this router over four links.
fn counts_by<C: RouterCore<Global> + Drop + Send, R: Threads + Wait + Sync>(
    rt: &R,
    alloc: Global,
    config: &Config,
    core: C,
) -> Option<(Counts, Counts)>
    requires { C.steps core ≡ [] }
{
    let asked = Asked {
        config,
        workers: 1,
        gate: &NoGate,
        batch: Batch::one(),
    };
    let routing = Routing {
        core,
        course: Nobody,
    };
    let links = four_links(alloc);
    let (answer, ()) = run_by::<C, Nobody, _, _, _, R>(rt, alloc, &asked, links, routing);
    match answer {
        Ok(account) => Some((counted(&account), counted_by(&account.stats))),
        Err(halted) => {
            drop(halted);
            None
        }
    }
}

/// What they say of a new router of the usual configuration.
fn counts_of_four<C: FreshRouter<Global> + Drop + Send, R: Threads + Wait + Sync>(
    rt: &R,
    alloc: Global,
) -> Option<(Counts, Counts)> {
    let Ok(config) = usual(100_000) else {
        return None;
    };
    let Ok(core) = C::make(alloc, &config) else {
        return None;
    };
    counts_by(rt, alloc, &config, core)
}

/// Whether a thousand Pings are offered to a router that only counts its steps, and the counters say what the tallies
/// say. Fewer links wouldn't offer as many.
fn are_counted<R: Threads + Wait + Sync>(rt: &R, alloc: Global) -> bool {
    match counts_of_four::<TableRouter<Global, Forgetful<Global>>, R>(rt, alloc) {
        Some((tallied, counted)) => tallied == counted && tallied.0 == 1_000,
        None => false,
    }
}

/// A thousand Pings are offered, and each packet that is taken is counted at its link, though the router keeps no step.
#[test]
fn an_account_counts_what_nobody_keeps(rt: HostRuntime) -> Result<(), Fail> {
    assert!(rt; are_counted(&rt, rt.alloc()));
    Ok(())
}
