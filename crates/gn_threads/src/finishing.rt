//! The account of a run that is over.

ghost use Rattle.std.specs.Prelude.{◌≡◌, ◌+◌, ◌<◌, ◌≤◌, Bool, false, None, ℕ, length, map, reverse, true, vec_len, IfErr, IfOk, IfSome};
ghost use Rattle.gn_rules.specs.Answer.{IsLegal};
ghost use Rattle.gn_rules.specs.Limits.{most_links, most_reads, most_workers};
ghost use Rattle.gn_report.specs.Accounts.{is_routing, report_of};
ghost use Rattle.gn_report.specs.declared.account.LinkEnd.TheVariants.{Whole};
ghost use Rattle.gn_start.specs.Faults.{IsArrivingFault, IsFaultOf};
ghost use Rattle.gn_start.specs.Over.{AllEnded, views_of};
ghost use Rattle.gn_start.specs.declared.fault.RunFault.TheVariants.{HistoryFull};
ghost use Rattle.gn_threads.specs.Courses.{AreStepsOf, AreTallies};
ghost use Rattle.gn_threads.specs.Headline.{Holds};
ghost use Rattle.gn_threads.specs.Left.{IsCalm, IsGathered, IsOverWith};

use crate::halted::Halted;
use crate::homecoming::{Homed, come_home};
use crate::settling::Left;
use gn_actors::Named;
use gn_hub::{Actor, Hub};
use gn_report::{
    Account, Kept, LinkAccount, LinkTally, Looks, Unkept, ended_is_seen, unkept_steps,
};
use gn_rules::{Config, Receipt, RouterCore, Step, is_same_config};
use gn_start::{Incoming, Limited, Over, RunFault};
use std::alloc::{Allocator, Global};
use std::sync::ledger::Ledger;

/// Whether the history of a run that stopped at this fault stands: where its router has the configuration of the call, nothing of it is
/// unconfirmed, and it is full where the fault says so.
fn is_standing<C: RouterCore<A>, A: Allocator + Copy>(
    config: &Config,
    fault: RunFault,
    core: &C,
) -> bool
    ensures configured { result ≡ true → C.settings core.now ≡ config.now }
    ensures full { result ≡ true → fault ≡ HistoryFull → length (C.steps core.now) ≡ config.now.numbers.steps }
{
    let is_kept = match fault {
        RunFault::HistoryFull => core.step_count() == config.numbers.steps,
        RunFault::Audit(_) => false,
        _ => true,
    };
    is_kept && is_same_config(core.config(), config)
}

/// What stands of the history of a run that stopped at this fault.
fn standing<C: RouterCore<A>, A: Allocator + Copy>(
    config: &Config,
    fault: RunFault,
    core: &C,
) -> Option<Unkept<Step<A>>>
    ensures legal { IfSome result (λ history. IsLegal config.now (reverse history.items)) }
    ensures own { IfSome result (λ history. history.items ≡ C.steps core.now) }
    ensures full { fault ≡ HistoryFull → IfSome result (λ history.
        length history.items ≡ config.now.numbers.steps) }
{
    if !is_standing(config, fault, core) {
        return None;
    }
    core.is_legal();
    Some(unkept_steps(core))
}

/// The accounts of all links of a run that had no fault, and the receipts of its workers and its house.
#[derive(Drop)]
pub(crate) struct Gathered<Rd, W, A: Allocator = Global> {
    pub links: Vec<LinkAccount<Rd, W, A>, A>,
    pub workers: Vec<Unkept<Receipt<A>>, A>,
    pub house: Unkept<Receipt<A>>,
    pub looks: Looks,
}

/// All that is left of a run that had no fault, once its actors are home.
fn gather<V: Incoming, L: Ledger + Limited + Named, C: RouterCore<A>, A: Allocator + Copy>(
    alloc: A,
    hub: &mut Hub<C, L, A>,
    over: Over<V::Reader, V::Writer, Kept<V::Reader, V::Writer, A>, L, A>,
    house: Actor<L, A>,
) -> Result<Gathered<V::Reader, V::Writer, A>, RunFault>
    requires left { IsOverWith (views_of V.Reader.state V.Writer.state V.Reader.gives V.Reader.made_of V.Writer.made_of)
        L.turns L.batch (length over.links.items) (vec_len over.workers) over house }
    requires well { over.fault ≡ None }
    ensures fault { IfErr result (λ fault. (links workers : ℕ)
        → house.number < links + links + workers + 1 → IsFaultOf links workers fault) }
    ensures same { hub.new ≡ hub.old }
    ensures gathered { IfOk result (λ all. IsGathered
        (views_of V.Reader.state V.Writer.state V.Reader.gives V.Reader.made_of V.Writer.made_of)
        L.turns L.batch hub.new.steps all.links.items all.workers.items all.house all.looks) }
    ensures house { IfOk result (λ all. is_routing all.house.items ≡ true) }
    ensures links { IfOk result (λ all. over.links.items ≡ map (λ link. Whole link) all.links.items) }
    ensures workers { IfOk result (λ all. vec_len all.workers ≡ vec_len over.workers) }
{
    let Over {
        keeper,
        registry,
        workers,
        looks,
        ..
    } = over;
    let Homed { workers, house, .. } = come_home(alloc, hub, registry, house, workers)?;
    let links = keeper.into_accounts(alloc)?;
    Ok(Gathered {
        links,
        workers,
        house,
        looks,
    })
}

/// Whether a run is as it must be all of whose actors are home: nothing is in flight, its router has the configuration of the call, and what
/// was counted of its links is right.
pub(crate) fn is_calm<C: RouterCore<A>, A: Allocator + Copy>(
    config: &Config,
    core: &C,
    looks: &Looks,
) -> bool
    ensures { result ≡ true → IsCalm config.now (C.settings core.now) (C.steps core.now) looks.now }
{
    if core.flights() == 0 && is_same_config(core.config(), config) {
        return looks.are_right();
    }
    false
}

/// The account of a run that is as it must be.
fn account_of<V: Incoming, L: Limited, C: RouterCore<A>, A: Allocator + Copy>(
    config: &Config,
    core: &C,
    all: Gathered<V::Reader, V::Writer, A>,
) -> Account<V::Reader, V::Writer, A>
    requires gathered { IsGathered
        (views_of V.Reader.state V.Writer.state V.Reader.gives V.Reader.made_of V.Writer.made_of)
        (most_reads config.now.numbers.steps) L.batch (C.steps core.now) all.links.items all.workers.items all.house
        all.looks }
    requires house { is_routing all.house.items ≡ true }
    requires calm { IsCalm config.now (C.settings core.now) (C.steps core.now) all.looks }
    requires few { (vec_len all.links ≤ most_links) × (vec_len all.workers ≤ most_workers) }
    ensures holds { Holds L.batch V.Reader.state V.Writer.state config.now
        (map (λ link. link.role) all.links.items) (vec_len all.workers) (report_of result) }
    ensures links { result.links ≡ all.links }
    ensures steps { result.history.items ≡ C.steps core.now }
{
    core.is_legal();
    ended_is_seen::<V::Reader, V::Writer, A, V::Origin>();
    let Gathered {
        links,
        workers,
        house,
        ..
    } = all;
    Account {
        history: unkept_steps(core),
        links,
        workers,
        house,
        stats: core.stats(),
    }
}

/// The account of a run that had no fault, if it is as it must be.
fn confirm<V: Incoming, L: Ledger + Limited + Named, C: RouterCore<A>, A: Allocator + Copy>(
    alloc: A,
    config: &Config,
    hub: &mut Hub<C, L, A>,
    over: Over<V::Reader, V::Writer, Kept<V::Reader, V::Writer, A>, L, A>,
    house: Actor<L, A>,
) -> Result<Account<V::Reader, V::Writer, A>, RunFault>
    requires left { IsOverWith (views_of V.Reader.state V.Writer.state V.Reader.gives V.Reader.made_of V.Writer.made_of)
        L.turns L.batch (length over.links.items) (vec_len over.workers) over house }
    requires well { over.fault ≡ None }
    requires turns { L.turns ≡ most_reads config.now.numbers.steps }
    requires few { (length over.links.items ≤ most_links) × (vec_len over.workers ≤ most_workers) }
    ensures fault { IfErr result (λ fault. (links workers : ℕ)
        → house.number < links + links + workers + 1 → IsFaultOf links workers fault) }
    ensures same { hub.new ≡ hub.old }
    ensures holds { IfOk result (λ account. Holds L.batch V.Reader.state V.Writer.state config.now
        (map (λ link. link.role) account.links.items) (vec_len over.workers) (report_of account)) }
    ensures ended { IfOk result (λ account. AllEnded L.turns L.batch
        (views_of V.Reader.state V.Writer.state V.Reader.gives V.Reader.made_of V.Writer.made_of)
        account.history.items account.links.items) }
    ensures links { IfOk result (λ account. over.links.items ≡ map (λ link. Whole link) account.links.items) }
    ensures steps { IfOk result (λ account. account.history.items ≡ hub.new.steps) }
{
    let number = house.number();
    let all = gather::<V, L, C, A>(alloc, hub, over, house)?;
    if !is_calm(config, hub.router(), &all.looks) {
        return Err(RunFault::Audit(number));
    }
    Ok(account_of::<V, L, C, A>(config, hub.router(), all))
}

/// What the links of a run did that had a fault. `None` is out of memory, an actor that isn't home, or where not all links came.
fn tallies_of<V: Incoming, L: Ledger + Limited + Named, C: RouterCore<A>, A: Allocator + Copy>(
    alloc: A,
    hub: &mut Hub<C, L, A>,
    over: Over<V::Reader, V::Writer, Kept<V::Reader, V::Writer, A>, L, A>,
    house: Actor<L, A>,
    links: u32,
    crew: u32,
) -> Option<Vec<LinkTally, A>>
    requires left { IsOverWith (views_of V.Reader.state V.Writer.state V.Reader.gives V.Reader.made_of V.Writer.made_of)
        L.turns L.batch links crew over house }
    ensures same { hub.new ≡ hub.old }
    ensures tallied { IfSome result (λ tallies. AreTallies hub.new.steps links tallies.items) }
{
    if over.is_lost {
        return None;
    }
    let Over {
        keeper,
        registry,
        workers,
        ..
    } = over;
    let Ok(homed) = come_home(alloc, hub, registry, house, workers) else {
        return None;
    };
    drop(homed);
    match keeper.tallies(alloc) {
        Ok(tallies) if tallies.len() == links as usize => Some(tallies),
        _ => None,
    }
}

/// What is known of a run that stopped at this fault, of which this is left.
fn halt<V: Incoming, L: Ledger + Limited + Named, C: RouterCore<A>, A: Allocator + Copy>(
    alloc: A,
    config: &Config,
    hub: &mut Hub<C, L, A>,
    left: Left<V::Reader, V::Writer, Kept<V::Reader, V::Writer, A>, L, A>,
    fault: RunFault,
    links: u32,
    workers: u32,
) -> Halted<A>
    requires left { IsOverWith (views_of V.Reader.state V.Writer.state V.Reader.gives V.Reader.made_of V.Writer.made_of)
        L.turns L.batch links workers left.over left.house }
    ensures fault { result.fault ≡ fault }
    ensures same { hub.new ≡ hub.old }
    ensures kept { IfSome result.history (λ history. IsLegal config.now (reverse history.items)) }
    ensures own { IfSome result.history (λ history. history.items ≡ hub.new.steps) }
    ensures full { fault ≡ HistoryFull → IfSome result.history (λ history.
        length history.items ≡ config.now.numbers.steps) }
    ensures tallied { IfSome result.links (λ tallies. AreTallies hub.new.steps links tallies.items) }
{
    let Left { over, house, .. } = left;
    let tallies = tallies_of::<V, L, C, A>(alloc, hub, over, house, links, workers);
    Halted {
        fault,
        history: standing(config, fault, hub.router()),
        links: tallies,
    }
}

/// What is known of a run that stopped at this fault, of which nothing else is left.
pub(crate) fn halt_alone<L: Ledger + Named, C: RouterCore<A>, A: Allocator + Copy>(
    config: &Config,
    hub: &Hub<C, L, A>,
    fault: RunFault,
) -> Halted<A>
    ensures fault { (result.fault ≡ fault) × (result.links ≡ None) }
    ensures kept { IfSome result.history (λ history. IsLegal config.now (reverse history.items)) }
    ensures own { IfSome result.history (λ history. history.items ≡ hub.now.steps) }
    ensures full { fault ≡ HistoryFull → IfSome result.history (λ history.
        length history.items ≡ config.now.numbers.steps) }
{
    Halted {
        fault,
        history: standing(config, fault, hub.router()),
        links: None,
    }
}

/// The account of a run of so many links and workers that is over, of which this is left, or what is known of it where it stopped.
pub(crate) fn conclude<
    V: Incoming,
    L: Ledger + Limited + Named,
    C: RouterCore<A>,
    A: Allocator + Copy,
>(
    alloc: A,
    config: &Config,
    hub: &mut Hub<C, L, A>,
    left: Left<V::Reader, V::Writer, Kept<V::Reader, V::Writer, A>, L, A>,
    links: u32,
    workers: u32,
) -> Result<Account<V::Reader, V::Writer, A>, Halted<A>>
    requires left { IsOverWith (views_of V.Reader.state V.Writer.state V.Reader.gives V.Reader.made_of V.Writer.made_of)
        L.turns L.batch links workers left.over left.house }
    requires well { left.fault ≡ None → (left.over.fault ≡ None) × (length left.over.links.items ≡ links) }
    requires turns { L.turns ≡ most_reads config.now.numbers.steps }
    requires few { (links ≤ most_links) × (workers ≤ most_workers) }
    ensures same { hub.new ≡ hub.old }
    ensures fault { IfErr result (λ halted. (has_peers : Bool)
        → IfSome left.fault (λ fault. IsArrivingFault has_peers links workers fault)
        → IsArrivingFault has_peers links workers halted.fault) }
    ensures kept { IfErr result (λ halted. IfSome halted.history (λ history.
        IsLegal config.now (reverse history.items))) }
    ensures full { IfErr result (λ halted. halted.fault ≡ HistoryFull → IfSome halted.history (λ history.
        length history.items ≡ config.now.numbers.steps)) }
    ensures tallied { IfErr result (λ halted. IfSome halted.links (λ tallies.
        AreTallies hub.new.steps links tallies.items)) }
    ensures holds { IfOk result (λ account. Holds L.batch V.Reader.state V.Writer.state config.now
        (map (λ link. link.role) account.links.items) workers (report_of account)) }
    ensures ended { IfOk result (λ account. AllEnded L.turns L.batch
        (views_of V.Reader.state V.Writer.state V.Reader.gives V.Reader.made_of V.Writer.made_of)
        account.history.items account.links.items) }
    ensures links { IfOk result (λ account. (left.fault ≡ None)
        × (left.over.links.items ≡ map (λ link. Whole link) account.links.items)) }
    ensures steps { AreStepsOf result hub.new.steps }
{
    if let Some(fault) = left.fault {
        return Err(halt::<V, L, C, A>(alloc, config, hub, left, fault, links, workers));
    }
    let Left { over, house, .. } = left;
    match confirm::<V, L, C, A>(alloc, config, hub, over, house) {
        Ok(account) => Ok(account),
        Err(fault) => Err(halt_alone(config, hub, fault)),
    }
}
