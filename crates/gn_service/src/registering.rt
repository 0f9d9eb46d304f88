//! How a link that has come is registered, so that it ends with its run.

ghost use Rattle.std.specs.Prelude.{◌≡◌, ℕ, true, IfErr, IfOk};
ghost use Rattle.gn_start.specs.Faults.{IsArrivingFault};

use crate::stops::Stops;
use gn_tcp::{TcpLink, TcpStopper};
use gn_threads::RunFault;
use std::alloc::Allocator;
use std::sync::Wait;
use std::thread;
use std::thread::Threads;
use std::time::{Clock, Duration};

/// Milliseconds that are waited before a peer is called again, or the system asked for a handle or a thread.
const PAUSE: u64 = 50;

/// How long a moment is, after which a call, a handle or a thread may be had.
pub(crate) fn moment() -> Duration {
    Duration::from_millis(PAUSE)
}

/// Waits a moment.
pub(crate) fn pause<N: Clock>(net: &N) {
    thread::sleep(net, moment());
}

/// Waits until the link has all handles that it needs, and takes the one that ends it. None where the run is stopped meanwhile.
pub(crate) fn stopper_of<N: Clock, A: Allocator>(
    net: &N,
    stops: &Stops<'_, A>,
    found: &mut TcpLink<'static>,
) -> Option<TcpStopper>
    ensures { found.new ≡ found.old }
{
    for _ in 0..u64::MAX {
        if found.has_handles() {
            if let Ok(stopper) = found.stopper() {
                return Some(stopper);
            }
        }
        if stops.is_stopped() {
            return None;
        }
        pause(net);
    }
    None
}

/// Whether the system gives the two threads that a link needs: two that do nothing are started at once, and joined. Another program may
/// take them before the run does.
fn has_threads<N: Threads>(net: &N) -> bool {
    let Ok(reader) = thread::spawn(net, || ()) else {
        return false;
    };
    let writer = thread::spawn(net, || ());
    reader.join(net);
    match writer {
        Ok(writer) => {
            writer.join(net);
            true
        }
        Err(_) => false,
    }
}

/// Waits until the system gives the threads that a link needs. False where the run is stopped meanwhile.
pub(crate) fn threads_come<N: Threads + Clock, A: Allocator>(
    net: &N,
    stops: &Stops<'_, A>,
) -> bool {
    for _ in 0..u64::MAX {
        if has_threads(net) {
            return true;
        }
        if stops.is_stopped() {
            return false;
        }
        pause(net);
    }
    false
}

/// Has the link ended by this stopper when the run ends. Where there is no memory to note that, all links that have come are let
/// go at once.
pub(crate) fn ended_by<N: Wait, A: Allocator>(
    net: &N,
    stops: &Stops<'_, A>,
    link: u32,
    found: TcpLink<'static>,
    stopper: TcpStopper,
) -> Result<TcpLink<'static>, RunFault>
    ensures same { IfOk result (λ same. (same.role ≡ found.entry.role) × (same.origin ≡ found.entry.origin)) }
    ensures fault { IfErr result (λ fault. (links workers : ℕ) → IsArrivingFault true links workers fault) }
{
    match stops.add(net, link, found.peer(), stopper) {
        Ok(()) => Ok(found),
        Err(_) => {
            stops.fail();
            Err(RunFault::NoMemory)
        }
    }
}

/// Has the link end with the run. Its peer is let go where the run is stopped before. Where there is no memory to note that, all links
/// that have come are let go at once.
pub(crate) fn registered<N: Wait + Clock, A: Allocator>(
    net: &N,
    stops: &Stops<'_, A>,
    link: u32,
    found: TcpLink<'static>,
) -> Result<TcpLink<'static>, RunFault>
    ensures same { IfOk result (λ same. (same.role ≡ found.entry.role) × (same.origin ≡ found.entry.origin)) }
    ensures fault { IfErr result (λ fault. (links workers : ℕ) → IsArrivingFault true links workers fault) }
{
    if found.is_missing() {
        return Ok(found);
    }
    let mut found = found;
    match stopper_of(net, stops, &mut found) {
        Some(stopper) => ended_by(net, stops, link, found, stopper),
        None => Ok(found.without_peer()),
    }
}
