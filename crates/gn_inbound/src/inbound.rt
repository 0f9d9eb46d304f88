//! The bytes that come on a link, from its greeting on.

ghost use Rattle.std.specs.Prelude.{◌≡◌, ◌++◌, [], ℕ, List, None, false, IfOk};
ghost use Rattle.gn_shake.specs.declared.role.Role.{Role};
ghost use Rattle.gn_shake.specs.Greeting.{greeting_of, greeting_state};
ghost use Rattle.gn_shake.specs.declared.shake.ShakeState.TheVariants as state;
ghost use Rattle.gn_inbound.specs.declared.inbound.Inbound.TheVariants as inbound;
ghost use Rattle.gn_inbound.specs.Inbound.{IsAt, IsGiven};

use gn_frames::{Fed, FeedRefusal, Reassembler};
use gn_shake::{Role, Shake, ShakeState};
use gn_wire::{Descriptor, FrameFault};
use std::alloc::{AllocError, Allocator, Global};

/// Where the bytes of a link stand. However many come, what is kept of them is part of a greeting or of one descriptor.
#[derive(Debug, Drop)]
pub enum Inbound<A: Allocator = Global> {
    /// The greeting is awaited.
    Greeting(Shake),
    /// Descriptors come.
    Open(Reassembler<A>),
    /// Something else came in place of the greeting.
    Refused,
}

/// What a piece of a link's bytes gave.
#[derive(Debug, Drop)]
pub struct Given<A: Allocator = Global> {
    /// Whether the greeting is whole since this piece.
    pub opened: bool,
    /// The descriptors that are whole since this piece, in the order of the stream.
    pub descriptors: Vec<Descriptor<A>, A>,
    /// The length after them that is invalid, where one is. The stream ends there.
    pub fault: Option<FrameFault>,
}

impl<A: Allocator + Copy> Inbound<A> {
    /// A link that has no bytes yet: a plain one is open, any other awaits its greeting. An `Err` is out of memory.
    pub fn new(alloc: A, role: Role) -> Result<Self, AllocError>
        ensures { IfOk result (λ new. IsAt role [] new) }
    {
        match role {
            Role::Accepting => Ok(Inbound::Greeting(Shake::accepting())),
            Role::Calling => Ok(Inbound::Greeting(Shake::calling())),
            Role::Plain => Ok(Inbound::Open(Reassembler::new(alloc)?)),
        }
    }

    /// Takes the next piece, of any size. After a refused greeting or a fault no piece gives anything. An `Err` is out of
    /// memory.
    #[tactic(auto, using(crate::proofs::InboundLemmas::stays_refused))]
    pub fn feed(self, alloc: A, piece: &[u8]) -> Result<(Self, Given<A>), AllocError>
        ensures { IfOk result (λ r. (role : Role) (b : List ℕ) → IsAt role b self
            → IsGiven role b piece.now r.0 r.1.opened r.1.descriptors.items r.1.fault) }
    {
        gn_shake::pieces_are_one_stream();
        match self {
            Inbound::Greeting(shake) => greet(alloc, shake, piece),
            Inbound::Open(frames) => deliver(alloc, frames, piece),
            Inbound::Refused => Ok((Inbound::Refused, Given::none(alloc))),
        }
    }
}

impl<A: Allocator + Copy> Given<A> {
    /// Nothing.
    fn none(alloc: A) -> Self
        ensures opened { result.opened ≡ false }
        ensures descriptors { result.descriptors.items ≡ [] }
        ensures fault { result.fault ≡ None }
    {
        Given {
            opened: false,
            descriptors: Vec::new(alloc),
            fault: None,
        }
    }
}

/// A piece of a link that awaits its greeting.
#[tactic(auto, using(crate::proofs::InboundLemmas::greeted, crate::proofs::InboundLemmas::waited, crate::proofs::InboundLemmas::turned))]
fn greet<A: Allocator + Copy>(
    alloc: A,
    mut shake: Shake,
    piece: &[u8],
) -> Result<(Inbound<A>, Given<A>), AllocError>
    ensures { IfOk result (λ r. (role : Role) (b : List ℕ) → IsAt {A = A} role b (inbound.Greeting shake)
        → IsGiven role b piece.now r.0 r.1.opened r.1.descriptors.items r.1.fault) }
{
    gn_shake::pieces_are_one_stream();
    gn_shake::greeting_is_known();
    let shaken = shake.feed(piece);
    match shaken.state {
        ShakeState::More => Ok((Inbound::Greeting(shake), Given::none(alloc))),
        ShakeState::Refused => Ok((Inbound::Refused, Given::none(alloc))),
        ShakeState::Done => open(alloc, shaken.rest_of(piece)),
    }
}

/// The bytes after a greeting that is whole.
#[tactic(auto, using(crate::proofs::InboundLemmas::opened))]
fn open<A: Allocator + Copy>(alloc: A, rest: &[u8]) -> Result<(Inbound<A>, Given<A>), AllocError>
    ensures { IfOk result (λ r. (role : Role) (b piece : List ℕ) → greeting_state (greeting_of role) b ≡ state.More
        → b ++ piece ≡ greeting_of role ++ rest.now
        → IsGiven role b piece r.0 r.1.opened r.1.descriptors.items r.1.fault) }
{
    gn_frames::pieces_are_one_stream();
    gn_shake::greeting_is_known();
    let mut frames = Reassembler::new(alloc)?;
    let Ok(Fed { descriptors, fault }) = frames.feed(rest) else {
        return Err(AllocError);
    };
    let given = Given {
        opened: true,
        descriptors,
        fault,
    };
    Ok((Inbound::Open(frames), given))
}

/// A piece of an open link.
fn deliver<A: Allocator + Copy>(
    alloc: A,
    mut frames: Reassembler<A>,
    piece: &[u8],
) -> Result<(Inbound<A>, Given<A>), AllocError>
    ensures { IfOk result (λ r. (role : Role) (b : List ℕ) → IsAt {A = A} role b (inbound.Open frames)
        → IsGiven role b piece.now r.0 r.1.opened r.1.descriptors.items r.1.fault) }
{
    gn_frames::frames_are_cut();
    gn_frames::pieces_are_one_stream();
    gn_shake::greeting_is_known();
    match frames.feed(piece) {
        Ok(Fed { descriptors, fault }) => {
            let given = Given {
                opened: false,
                descriptors,
                fault,
            };
            Ok((Inbound::Open(frames), given))
        }
        Err(FeedRefusal::Ended) => Ok((Inbound::Open(frames), Given::none(alloc))),
        Err(FeedRefusal::NoMemory) => Err(AllocError),
    }
}
