//! Who takes the steps of a run beside it.

use crate::room::Room;
use std::snapshot::Snapshot;
use std::sync::Wait;
use std::thread;
use std::thread::{Promise, Scope, Threads};

/// Takes the steps of a run as they come, in a thread of its own.
pub trait Following {
    /// What it becomes.
    type Followed;

    /// What it may have become once no more steps come.
    ghost follows: { Self → Self.Followed → Type 0 };

    /// Takes steps as they come, and tells the room so, until no more will come. Where it can't go on it shuts the room.
    fn follow<R: Wait>(self, rt: &R, room: &Room) -> Self::Followed
        ensures { follows self result };
}

/// The promise of the thread that takes the steps: what it becomes, from this start.
#[derive(Drop)]
struct Follows<D> {
    start: Snapshot<D>,
}

impl<E, D: Following<Followed = E>> Promise<E> for Follows<D> {
    ghost kept_by = { λ p r. D.follows p.start.value r };
}

/// Runs the bodies of a run, and who takes their steps in a thread of its own. Where none can be made nobody waits for room, as there is
/// none: a body is out of memory at its first step.
pub fn run_beside<
    D: Following<Followed = E> + Send + Drop,
    E: Send + Drop,
    R: Threads + Wait + Sync,
    T,
    F: FnOnce() -> T,
>(rt: &R, room: &Room, following: D, bodies: F) -> (T, E)
    requires { F.pre bodies }
    ensures bodies { F.post bodies result.0 }
    ensures follows { D.follows following result.1 }
{
    thread::scope(
        thread::scope_env(),
        rt,
        |scope| -> (T, E)
            requires { F.pre bodies }
            ensures { F.post bodies result.0 × D.follows following result.1 }
        { run_within(rt, scope, room, following, bodies) },
    )
}

/// The same, with a thread of this scope.
fn run_within<
    's,
    X: 's,
    D: Following<Followed = E> + Send + Drop + 's,
    E: Send + Drop + 's,
    R: Threads + Wait + Sync + 's,
    T,
    F: FnOnce() -> T,
>(rt: &'s R, scope: &Scope<'s, X>, room: &'s Room, following: D, bodies: F) -> (T, E)
    requires { F.pre bodies }
    ensures bodies { F.post bodies result.0 }
    ensures follows { D.follows following result.1 }
{
    let promise = Follows {
        start: Snapshot::of(&following),
    };
    match scope.spawn_with(promise, move || following.follow(rt, room)) {
        Ok(thread) => {
            let done = bodies();
            room.end(rt);
            (done, thread.join(rt))
        }
        Err(refused) => {
            room.shut(rt);
            let done = bodies();
            room.end(rt);
            (done, (refused.value)())
        }
    }
}
