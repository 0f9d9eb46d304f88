//! The signal by which who joins the threads of a run learns that they have ended.

use gn_room::Signal;
use std::sync::Wait;
use std::test::Fail;
use std::thread;
use std::thread::Threads;

/// A call on a signal, with the answer that is wanted.
#[derive(Clone, Copy)]
enum Call {
    Ends(u32),
    HaveEnded(u32, bool),
}

/// What is said of two slots, and of one that there isn't: it is said once that both bodies of a link have ended.
const CALLS: [Call; 14] = [
    Call::HaveEnded(0, false),
    Call::Ends(0),
    Call::HaveEnded(0, false),
    Call::Ends(255),
    Call::HaveEnded(0, false),
    Call::Ends(0),
    Call::HaveEnded(255, false),
    Call::HaveEnded(0, true),
    Call::HaveEnded(0, false),
    Call::Ends(255),
    Call::HaveEnded(255, true),
    Call::Ends(256),
    Call::Ends(256),
    Call::HaveEnded(256, false),
];

/// Whether each call is answered as it must.
fn are_answered<R: Wait>(rt: &R, signal: &Signal, calls: &[Call]) -> bool {
    for call in calls {
        match *call {
            Call::Ends(slot) => signal.ended(rt, slot),
            Call::HaveEnded(slot, wanted) => {
                if signal.have_ended(slot) != wanted {
                    return false;
                }
            }
        }
    }
    true
}

#[test]
fn a_link_has_ended_once_both_bodies_have(rt: HostRuntime) -> Result<(), Fail> {
    assert!(rt; are_answered(&rt, &Signal::new(), &CALLS));
    Ok(())
}

/// Whether a wait ends that began before something happened, though only the second body that ends is said to who waits.
fn is_woken<R: Threads + Wait + Sync>(rt: &R, signal: &Signal) -> bool {
    let waiting = signal.waiting(rt);
    signal.ended(rt, 3);
    thread::join(rt, move || waiting.wait(rt), move || signal.ended(rt, 3));
    signal.have_ended(3)
}

#[test]
fn who_waits_is_woken(rt: HostRuntime) -> Result<(), Fail> {
    let signal = Signal::new();
    signal.raise(&rt);
    assert!(rt; is_woken(&rt, &signal));
    Ok(())
}
