//! Who closed a connection. Receipts say where to look first, so that a confirmed report's history isn't walked over.

ghost use Rattle.std.specs.Prelude.{◌≡◌, ◌&&◌, true};
ghost use Rattle.gn_rules.specs.History.{is_close};
ghost use Rattle.gn_report.specs.BodyEnds as closes;

use gn_rules::{ConnId, Receipt, Step};
use std::alloc::Allocator;

/// Whose Close of a connection is looked for.
#[derive(Clone, Copy)]
pub enum Closer {
    /// Any actor's.
    Anyone,
    /// This actor's.
    Actor(u32),
    /// That of any actor except this one.
    Except(u32),
}

/// Whether an actor is one of those that are looked for.
fn is_closer(closer: Closer, actor: u32) -> bool
    ensures { result ≡ closes.is_closer closer actor }
{
    match closer {
        Closer::Anyone => true,
        Closer::Actor(a) => actor == a,
        Closer::Except(a) => actor != a,
    }
}

/// Whether a step is a Close of the connection, by one of those.
fn is_close_by<A: Allocator>(closer: Closer, c: ConnId, step: &Step<A>) -> bool
    ensures { result ≡ (closes.is_closer closer step.now.actor && is_close c step.now.event) }
{
    is_closer(closer, step.actor) && step.event.closes(c)
}

/// Whether the step at this index is.
fn is_close_at<A: Allocator>(closer: Closer, c: ConnId, steps: &[Step<A>], index: u32) -> bool
    ensures { result ≡ true → closes.has_close closer steps.now c ≡ true }
{
    let place = index as usize;
    place < steps.len() && is_close_by(closer, c, &steps[place])
}

/// Whether a step at one of the receipts' indices is.
fn is_close_known<A: Allocator>(
    closer: Closer,
    c: ConnId,
    steps: &[Step<A>],
    receipts: &[Receipt<A>],
) -> bool
    ensures { result ≡ true → closes.has_close closer steps.now c ≡ true }
{
    for receipt in receipts {
        if is_close_at(closer, c, steps, receipt.index) {
            return true;
        }
    }
    false
}

/// Whether a step is a Close of the connection, by one of those: it looks first where receipts say, and walks over the
/// history where none of them does.
pub fn has_close<A: Allocator>(
    closer: Closer,
    c: ConnId,
    steps: &[Step<A>],
    first: &[Receipt<A>],
    then: &[Receipt<A>],
) -> bool
    ensures { result ≡ closes.has_close closer steps.now c }
{
    is_close_known(closer, c, steps, first)
        || is_close_known(closer, c, steps, then)
        || steps.iter().any(|step| is_close_by(closer, c, step))
}
