//! What the tests of several crates share: the own servent, the usual configuration, and a Ping with its answer; an allocator
//! which counts the growths that it is asked for and refuses those that a test names; the test of a call that can be out of
//! memory, where each of its growths is refused in turn.
#![tactic(auto)]

mod same;
mod samples;
mod sweep;
mod turn;

pub use same::{are_same, is_same_step};
pub use samples::{FIRST_PING, OWN, OWN_PONG, PING, ping, usual};
use std::alloc::{AllocError, Allocator};
use std::sync::atomic::{AtomicU64, Ordering};
pub use sweep::{growths_of_calls, has_answered, refused_at};
pub use turn::{Call, Failure, Heap, Refused, Turn, Turns, growths, growths_of_call};

/// Growths count from 0. Those from `first` on, but not from `end` on, are refused.
#[derive(Drop)]
struct Plan {
    asked: AtomicU64,
    first: AtomicU64,
    end: AtomicU64,
}

/// Counts a growth, and says whether it is refused.
fn refuses(plan: &Plan) -> bool {
    let number = plan.asked.fetch_add(1, Ordering::SeqCst);
    plan.first.load(Ordering::SeqCst) <= number && number < plan.end.load(Ordering::SeqCst)
}

/// An allocator that passes on to another each growth that it doesn't refuse. Collections hold a `&` to it, on any thread.
/// No clause says which growths are refused, since the count is an atomic: so a test asserts how many its call met.
#[derive(Drop)]
pub struct Refusing<B: Allocator> {
    inner: B,
    plan: Plan,
}

impl<B: Allocator> Refusing<B> {
    /// Refuses nothing yet.
    pub fn new(inner: B) -> Self {
        Refusing {
            inner,
            plan: Plan {
                asked: AtomicU64::new(0),
                first: AtomicU64::new(u64::MAX),
                end: AtomicU64::new(u64::MAX),
            },
        }
    }

    /// Counts from 0 again, and refuses these growths.
    fn plan(&self, first: u64, end: u64) {
        self.plan.first.store(first, Ordering::SeqCst);
        self.plan.end.store(end, Ordering::SeqCst);
        self.plan.asked.store(0, Ordering::SeqCst);
    }

    /// From now on refuses the growth of this number alone. Growths count from 0, beginning now.
    pub fn refuse_only(&self, number: u64) {
        self.plan(number, number.saturating_add(1));
    }

    /// From now on refuses the growth of this number and each later one. Growths count from 0, beginning now.
    pub fn refuse_from(&self, number: u64) {
        self.plan(number, u64::MAX);
    }

    /// From now on refuses nothing.
    pub fn refuse_none(&self) {
        self.plan(u64::MAX, u64::MAX);
    }

    /// How many growths it was asked for since a `refuse_..` was called last, the refused ones among them.
    pub fn asked(&self) -> u64 {
        self.plan.asked.load(Ordering::SeqCst)
    }

    /// Whether it has refused one of these.
    pub fn has_refused(&self) -> bool {
        self.asked() > self.plan.first.load(Ordering::SeqCst)
    }
}

unsafe impl<B: Allocator> Allocator for Refusing<B> {
    ghost dealloc_token = { λ heap ty ptr. B.dealloc_token heap.inner ty ptr };

    fn allocate(&self, size: usize, align: usize) -> Result<*mut u8, AllocError> {
        if refuses(&self.plan) {
            return Err(AllocError);
        }
        self.inner.allocate(size, align)
    }

    unsafe fn deallocate(&self, ptr: *mut u8, size: usize, align: usize) {
        self.inner.deallocate(ptr, size, align);
    }
}
