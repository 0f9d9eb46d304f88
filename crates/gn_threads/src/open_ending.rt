//! The account of a run that is over whose links came one after another.

ghost use Rattle.std.specs.Prelude.{◌≡◌, ◌+◌, ◌<◌, ◌^◌, ◌∷◌, Bool, None, ℕ, length, map, reverse, true, vec_len, IfErr, IfOk, IfSome};
ghost use Rattle.gn_rules.specs.Answer.{IsLegal};
ghost use Rattle.gn_rules.specs.Limits.{most_reads};
ghost use Rattle.gn_actors.specs.Registry.{AreWhole};
ghost use Rattle.gn_actors.specs.declared.who.Numbering.TheVariants.{Open};
ghost use Rattle.gn_report.specs.Accounts.{are_houses, unkept_list};
ghost use Rattle.gn_report.specs.declared.account.LinkEnd.TheVariants.{Whole};
ghost use Rattle.gn_start.specs.Faults.{IsFaultOf};
ghost use Rattle.gn_start.specs.Over.{IsOver, views_of};
ghost use Rattle.gn_start.specs.declared.fault.RunFault.TheVariants.{HistoryFull};
ghost use Rattle.gn_threads.specs.Homecoming.{AreAllOut, receipts_in, with_all_home};
ghost use Rattle.gn_threads.specs.Left.{IsCalm};
ghost use Rattle.gn_threads.specs.OpenAccounts.{accounts_of};
ghost use Rattle.gn_threads.specs.OpenRuns.{AreOpenStepsOf, IsOpenEnded, IsOpenFault, IsOpenGathered, IsOpenHistory};
ghost use mathlib.Core.List.{IsPrefix};

use crate::finishing::{halt_alone, is_calm};
use crate::halted::Halted;
use crate::homecoming::{Homed, come_home};
use crate::open_account::{OpenAccount, accounts_in};
use crate::settling::Left;
use gn_actors::{Named, Registry};
use gn_hub::{Actor, Hub};
use gn_renumber::{moved_is_alike, moved_is_legal, renumbered_is_only, renumbered_is_own};
use gn_report::{
    Keeping, LinkAccount, LinkEnd, Looks, Unkept, ended_is_seen, unkept_steps, unkept_trail,
};
use gn_rules::{Config, Receipt, RouterCore};
use gn_start::{Incoming, Limited, Over, RunFault};
use gn_trail::Trail;
use std::alloc::{Allocator, Global};
use std::sync::ledger::Ledger;

/// The accounts of all links of such a run that had no fault, and the receipts of its workers and its house.
#[derive(Drop)]
pub(crate) struct OpenGathered<Rd, W, A: Allocator = Global> {
    pub links: Unkept<LinkAccount<Rd, W, A>>,
    pub workers: Vec<Unkept<Receipt<A>>, A>,
    pub house: Unkept<Receipt<A>>,
}

/// All that is left of such a run that had no fault, once its actors are home.
fn gather_open<Rd, W, L: Ledger + Named, C: RouterCore<A>, A: Allocator + Copy>(
    alloc: A,
    hub: &mut Hub<C, L, A>,
    ends: &Trail<LinkEnd<Rd, W, A>>,
    registry: Registry<L, A>,
    house: Actor<L, A>,
    workers: Vec<Actor<L, A>, A>,
) -> Result<OpenGathered<Rd, W, A>, RunFault>
    requires out { AreAllOut registry.lists (house ∷ workers.items) }
    requires many { length registry.lists ≡ length ends.now.items + length ends.now.items + vec_len workers + 1 }
    ensures fault { IfErr result (λ fault. (links workers : ℕ)
        → house.number < links + links + workers + 1 → IsFaultOf links workers fault) }
    ensures same { hub.new ≡ hub.old }
    ensures began { IsPrefix registry.seen hub.new.steps }
    ensures whole { IfOk result (λ _. AreWhole hub.new.steps (with_all_home registry.lists (house ∷ workers.items))) }
    ensures links { IfOk result (λ all. all.links.items ≡ accounts_of ends.now.items) }
    ensures workers { IfOk result (λ all. map unkept_list all.workers.items ≡ map receipts_in workers.items) }
    ensures house { IfOk result (λ all. all.house.items ≡ house.receipts) }
    ensures numbered { IfOk result (λ _. length registry.lists < 2 ^ 32) }
{
    // Its contract says that each actor has a number.
    let _many = registry.many();
    let links = unkept_trail(&accounts_in(ends));
    let Homed { workers, house, .. } = come_home(alloc, hub, registry, house, workers)?;
    Ok(OpenGathered {
        links,
        workers,
        house,
    })
}

/// The account of such a run that is as it must be.
fn make_account<V: Incoming, L: Limited, C: RouterCore<A>, A: Allocator + Copy>(
    config: &Config,
    core: &C,
    all: OpenGathered<V::Reader, V::Writer, A>,
    looks: &Looks,
) -> OpenAccount<V::Reader, V::Writer, A>
    requires gathered { IsOpenGathered
        (views_of V.Reader.state V.Writer.state V.Reader.gives V.Reader.made_of V.Writer.made_of)
        (most_reads config.now.numbers.steps) L.batch (C.steps core.now) all looks.now }
    requires calm { IsCalm config.now (C.settings core.now) (C.steps core.now) looks.now }
    requires numbered { length all.links.items + length all.links.items + length all.workers.items + 1 < 2 ^ 32 }
    ensures ended { (originates : Bool) → are_houses originates all.house.items ≡ true → IsOpenEnded originates
        (views_of V.Reader.state V.Writer.state V.Reader.gives V.Reader.made_of V.Writer.made_of)
        L.batch config.now (vec_len all.workers) result }
    ensures recalled { IsOpenHistory
        (views_of V.Reader.state V.Writer.state V.Reader.gives V.Reader.made_of V.Writer.made_of)
        config.now (vec_len all.workers) result }
    ensures links { result.links ≡ all.links }
    ensures steps { result.history.items ≡ C.steps core.now }
{
    core.is_legal();
    ended_is_seen::<V::Reader, V::Writer, A, V::Origin>();
    moved_is_legal::<A>();
    moved_is_alike::<A>();
    let OpenGathered {
        links,
        workers,
        house,
    } = all;
    OpenAccount {
        history: unkept_steps(core),
        links,
        workers,
        house,
        stats: core.stats(),
    }
}

/// The account of such a run that is over and had no fault, if it is as it must be.
fn confirm_open<V: Incoming, K, L: Ledger + Limited + Named, C: RouterCore<A>, A: Allocator + Copy>(
    alloc: A,
    config: &Config,
    hub: &mut Hub<C, L, A>,
    over: Over<V::Reader, V::Writer, K, L, A>,
    house: Actor<L, A>,
) -> (Result<OpenAccount<V::Reader, V::Writer, A>, RunFault>, K)
where
    K: Keeping<V::Reader, V::Writer, A>,
    requires over { IsOver (views_of V.Reader.state V.Writer.state V.Reader.gives V.Reader.made_of V.Writer.made_of)
        K.keeps L.turns L.batch (Open (vec_len over.workers)) (vec_len over.workers) over }
    requires well { over.fault ≡ None }
    requires house { house.number ≡ 0 }
    requires turns { L.turns ≡ most_reads config.now.numbers.steps }
    ensures fault { IfErr result.0 (λ fault. (links workers : ℕ)
        → house.number < links + links + workers + 1 → IsFaultOf links workers fault) }
    ensures same { hub.new ≡ hub.old }
    ensures keeper { result.1 ≡ over.keeper }
    ensures ended { IfOk result.0 (λ account. (originates : Bool) → are_houses originates house.receipts ≡ true
        → IsOpenEnded originates
        (views_of V.Reader.state V.Writer.state V.Reader.gives V.Reader.made_of V.Writer.made_of)
        L.batch config.now (vec_len over.workers) account) }
    ensures recalled { IfOk result.0 (IsOpenHistory
        (views_of V.Reader.state V.Writer.state V.Reader.gives V.Reader.made_of V.Writer.made_of)
        config.now (vec_len over.workers)) }
    ensures links { IfOk result.0 (λ account. over.links.items ≡ map (λ link. Whole link) account.links.items) }
    ensures steps { IfOk result.0 (λ account. account.history.items ≡ hub.new.steps) }
{
    let Over {
        keeper,
        links,
        registry,
        workers,
        looks,
        ..
    } = over;
    let number = house.number();
    let all = match gather_open(alloc, hub, &links, registry, house, workers) {
        Ok(all) => all,
        Err(fault) => return (Err(fault), keeper),
    };
    if !is_calm(config, hub.router(), &looks) {
        return (Err(RunFault::Audit(number)), keeper);
    }
    renumbered_is_own::<A>();
    renumbered_is_only::<A>();
    moved_is_alike::<A>();
    let account = make_account::<V, L, C, A>(config, hub.router(), all, &looks);
    (Ok(account), keeper)
}

/// The account of such a run that is over, of which this is left, or what is known of it where it stopped; and who keeps what its links did.
pub(crate) fn conclude_open<
    V: Incoming,
    K,
    L: Ledger + Limited + Named,
    C: RouterCore<A>,
    A: Allocator + Copy,
>(
    alloc: A,
    config: &Config,
    hub: &mut Hub<C, L, A>,
    left: Left<V::Reader, V::Writer, K, L, A>,
    workers: u32,
) -> (Result<OpenAccount<V::Reader, V::Writer, A>, Halted<A>>, K)
where
    K: Keeping<V::Reader, V::Writer, A>,
    requires over { IsOver (views_of V.Reader.state V.Writer.state V.Reader.gives V.Reader.made_of V.Writer.made_of)
        K.keeps L.turns L.batch (Open workers) workers left.over }
    requires stopped { left.fault ≡ None → left.over.fault ≡ None }
    requires house { left.house.number ≡ 0 }
    requires turns { L.turns ≡ most_reads config.now.numbers.steps }
    ensures same { hub.new ≡ hub.old }
    ensures fault { IfErr result.0 (λ halted. (has_peers : Bool)
        → IfSome left.fault (IsOpenFault has_peers workers) → IsOpenFault has_peers workers halted.fault) }
    ensures kept { IfErr result.0 (λ halted. IfSome halted.history (λ history.
        IsLegal config.now (reverse history.items))) }
    ensures full { IfErr result.0 (λ halted. halted.fault ≡ HistoryFull → IfSome halted.history (λ history.
        length history.items ≡ config.now.numbers.steps)) }
    ensures ended { IfOk result.0 (λ account. (originates : Bool)
        → are_houses originates left.house.receipts ≡ true → IsOpenEnded originates
        (views_of V.Reader.state V.Writer.state V.Reader.gives V.Reader.made_of V.Writer.made_of)
        L.batch config.now workers account) }
    ensures recalled { IfOk result.0 (IsOpenHistory
        (views_of V.Reader.state V.Writer.state V.Reader.gives V.Reader.made_of V.Writer.made_of)
        config.now workers) }
    ensures links { IfOk result.0 (λ account. (left.fault ≡ None)
        × (left.over.links.items ≡ map (λ link. Whole link) account.links.items)) }
    ensures keeper { result.1 ≡ left.over.keeper }
    ensures steps { AreOpenStepsOf result.0 hub.new.steps }
{
    let Left { over, house, fault } = left;
    if let Some(fault) = fault {
        let Over { keeper, .. } = over;
        return (Err(halt_alone(config, hub, fault)), keeper);
    }
    let (answer, keeper) = confirm_open::<V, K, L, C, A>(alloc, config, hub, over, house);
    match answer {
        Ok(account) => (Ok(account), keeper),
        Err(fault) => (Err(halt_alone(config, hub, fault)), keeper),
    }
}
