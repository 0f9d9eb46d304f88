//! How a run over TCP fails for a peer that can't be called.

ghost use Rattle.std.specs.Prelude.{◌≡◌, ◌≢◌, ◌⊎◌, ◌≤◌, ℕ, true, IfSome, MatchResult, Some};
ghost use Rattle.gn_service.specs.Tallies.{tallies_of};
ghost use Rattle.gn_start.specs.declared.fault.RunFault.TheVariants.{BadWorkers, HistoryFull};
ghost use Rattle.gn_start.specs.Faults.{IsArrivingFault};

use crate::stops::Stops;
use crate::tallies::tallies_of;
use gn_report::Account;
use gn_tcp::{TcpReader, TcpWriter};
use gn_threads::{Halted, OpenAccount, RunFault};
use std::alloc::Allocator;

/// Why the threads that call so many peers end the run, if they do.
pub(crate) fn call_fault<A: Allocator>(stops: &Stops<'_, A>, calls: usize) -> Option<RunFault>
    ensures crew { IfSome result (λ fault. fault ≢ BadWorkers) }
    ensures full { IfSome result (λ fault. fault ≢ HistoryFull) }
    ensures fault { IfSome result (λ fault. (links workers : ℕ) → calls ≤ links
        → IsArrivingFault true links workers fault) }
{
    match stops.uncalled() {
        Some(link) if (link as usize) < calls => Some(RunFault::Call(link)),
        _ if stops.lacks_memory() => Some(RunFault::NoMemory),
        _ => None,
    }
}

/// The run of this account, which has failed.
fn failed_at<'s, A: Allocator + Copy>(
    alloc: A,
    account: Account<TcpReader<'s>, TcpWriter, A>,
    fault: RunFault,
) -> Halted<A>
    ensures fault { result.fault ≡ fault }
    ensures history { result.history ≡ Some account.entry.history }
    ensures tallies { IfSome result.links (λ tallies. tallies.items ≡ tallies_of account.entry.links.items) }
{
    let tallies = tallies_of(alloc, &account.links);
    let Account {
        history,
        links: _,
        workers: _,
        house: _,
        stats: _,
    } = account;
    Halted {
        fault,
        history: Some(history),
        links: tallies,
    }
}

/// The run of this account of links that came one after another, which has failed.
fn cut_at<'s, A: Allocator + Copy>(
    account: OpenAccount<TcpReader<'s>, TcpWriter, A>,
    fault: RunFault,
) -> Halted<A>
    ensures { (result.fault ≡ fault) × (result.history ≡ Some account.entry.history) }
{
    let OpenAccount {
        history,
        links: _,
        workers: _,
        house: _,
        stats: _,
    } = account;
    Halted {
        fault,
        history: Some(history),
        links: None,
    }
}

/// The first of two faults of a run, of which the later is one of its calls.
fn first_of(found: RunFault, later: RunFault) -> RunFault
    ensures { (result ≡ found) ⊎ ((result ≡ later) × (found ≢ BadWorkers)) }
{
    match (found, later) {
        (RunFault::BadWorkers | RunFault::Listen, _) => found,
        (_, RunFault::Call(_)) => later,
        (RunFault::Stage(_) | RunFault::Audit(_), _) => later,
        _ => found,
    }
}

/// The run that stopped so, and has failed for this, too.
fn failed_too<A: Allocator>(halted: Halted<A>, fault: RunFault) -> Halted<A>
    ensures fault { (result.fault ≡ halted.fault) ⊎ ((result.fault ≡ fault) × (halted.fault ≢ BadWorkers)) }
    ensures same { (result.history ≡ halted.history) × (result.links ≡ halted.links) }
{
    Halted {
        fault: first_of(halted.fault, fault),
        history: halted.history,
        links: halted.links,
    }
}

/// The run that answered so, and has failed for this.
pub(crate) fn failed_for<'s, A: Allocator + Copy>(
    alloc: A,
    answer: Result<Account<TcpReader<'s>, TcpWriter, A>, Halted<A>>,
    fault: RunFault,
) -> Halted<A>
    ensures fault { MatchResult answer.entry (λ _. result.fault ≡ fault)
        (λ halted. (result.fault ≡ halted.fault) ⊎ ((result.fault ≡ fault) × (halted.fault ≢ BadWorkers))) }
    ensures history { MatchResult answer.entry (λ account. result.history ≡ Some account.history)
        (λ halted. result.history ≡ halted.history) }
    ensures tallies { MatchResult answer.entry
        (λ account. IfSome result.links (λ tallies. tallies.items ≡ tallies_of account.links.items))
        (λ halted. result.links ≡ halted.links) }
{
    match answer {
        Ok(account) => failed_at(alloc, account, fault),
        Err(halted) => failed_too(halted, fault),
    }
}

/// The run of links that came one after another that answered so, and has failed for this.
pub(crate) fn cut_for<'s, A: Allocator + Copy>(
    answer: Result<OpenAccount<TcpReader<'s>, TcpWriter, A>, Halted<A>>,
    fault: RunFault,
) -> Halted<A>
    ensures fault { MatchResult answer.entry (λ _. result.fault ≡ fault)
        (λ halted. (result.fault ≡ halted.fault) ⊎ ((result.fault ≡ fault) × (halted.fault ≢ BadWorkers))) }
    ensures history { MatchResult answer.entry (λ account. result.history ≡ Some account.history)
        (λ halted. result.history ≡ halted.history) }
{
    match answer {
        Ok(account) => cut_at(account, fault),
        Err(halted) => failed_too(halted, fault),
    }
}
