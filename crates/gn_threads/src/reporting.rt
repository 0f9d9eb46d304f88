//! The report of a run whose router keeps its steps.

ghost use Rattle.std.specs.Prelude.{◌≡◌, ◌<◌, ◌^◌, length, IfErr, IfOk, IfSome};
ghost use Rattle.std.specs.Option.{IsSomeAnd};
ghost use Rattle.gn_report.specs.Accounts.{report_of};
ghost use Rattle.gn_report.specs.Actors.{AreOwn};
ghost use Rattle.gn_report.specs.Told.{Tells};
ghost use Rattle.gn_threads.specs.Courses.{AreStepsOf, steps_left};
ghost use Rattle.gn_threads.specs.Told.{IsStoppedOf, IsToldOf};
ghost use Rattle.gn_start.specs.declared.fault.RunFault.TheVariants.{NoMemory};

use crate::halted::Halted;
use crate::stopped::Stopped;
use gn_report::{Account, Report};
use gn_rules::{Historian, Step};
use gn_start::RunFault;
use std::alloc::Allocator;

/// The steps that a router keeps: none, where there is no router.
fn kept_steps<C: Historian<A> + Drop, A: Allocator + Copy>(
    alloc: A,
    core: Option<C>,
) -> Vec<Step<A>, A>
    ensures items { result.items ≡ steps_left C.steps core }
    ensures few { length result.items < 2 ^ 32 }
{
    match core {
        Some(core) => {
            let count = core.step_count();
            let history = core.into_history();
            prove!(history.len() == count as usize);
            history
        }
        None => Vec::new(alloc),
    }
}

/// The report that an account tells, whose lists are made of what the router keeps. A fault is out of memory, and what the router kept
/// stands with it.
pub fn tell<Rd: Drop, W: Drop, C: Historian<A> + Drop, A: Allocator + Copy>(
    alloc: A,
    account: Account<Rd, W, A>,
    core: Option<C>,
) -> Result<Report<Rd, W, A>, Stopped<A>>
    requires steps { account.history.items ≡ steps_left C.steps core }
    requires own { AreOwn (report_of account) }
    ensures told { IfOk result (λ report. Tells account report) }
    ensures fault { IfErr result (λ stopped. (stopped.fault ≡ NoMemory)
        × IfSome stopped.history (λ history. history.items ≡ account.history.items)) }
{
    let history = kept_steps(alloc, core);
    match gn_report::tell(alloc, account, history) {
        Ok(report) => Ok(report),
        Err(history) => Err(Stopped {
            fault: RunFault::NoMemory,
            history: Some(history),
        }),
    }
}

/// A run that stopped, with what its router keeps of it.
pub fn stopped_by<C: Historian<A> + Drop, A: Allocator + Copy>(
    alloc: A,
    halted: Halted<A>,
    core: Option<C>,
) -> Stopped<A>
    requires { IfSome halted.history (λ history. history.items ≡ steps_left C.steps core) }
    ensures fault { result.fault ≡ halted.fault }
    ensures history { IfSome result.history (λ steps. IsSomeAnd halted.history (λ history.
        history.items ≡ steps.items)) }
{
    let Halted { fault, history, .. } = halted;
    let history = match history {
        Some(_) => Some(kept_steps(alloc, core)),
        None => None,
    };
    Stopped { fault, history }
}

/// The report of a run whose router kept its steps, or what stands of one that stopped.
pub(crate) fn told_by<Rd: Drop, W: Drop, C: Historian<A> + Drop, A: Allocator + Copy>(
    alloc: A,
    answer: Result<Account<Rd, W, A>, Halted<A>>,
    core: Option<C>,
) -> Result<Report<Rd, W, A>, Stopped<A>>
    requires steps { AreStepsOf answer (steps_left C.steps core) }
    requires own { IfOk answer (λ account. AreOwn (report_of account)) }
    ensures told { IfOk result (λ report. IsToldOf answer report) }
    ensures stopped { IfErr result (λ stopped. IsStoppedOf answer stopped) }
{
    match answer {
        Ok(account) => tell(alloc, account, core),
        Err(halted) => Err(stopped_by(alloc, halted, core)),
    }
}
