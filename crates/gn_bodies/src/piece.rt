//! What a reader keeps of its link, and what a piece of its bytes did.

use crate::ends::{BodyFault, ReaderEnd};
use gn_frames::Reassembler;
use gn_rules::ConnId;
use gn_shake::Shake;
use gn_wire::FrameFault;
use std::alloc::{Allocator, Global};

/// What a reader keeps of its link. However much a peer sends, it is one greeting or one descriptor at most.
#[derive(Drop)]
pub(crate) enum Reading<A: Allocator = Global> {
    /// It awaits the greeting.
    Greeting(Shake),
    /// It is connected.
    Joined {
        connection: ConnId,
        frames: Reassembler<A>,
    },
}

/// Why no more descriptors are admitted.
#[derive(Clone, Copy)]
pub(crate) enum Halt {
    /// The connection was found closed.
    NotLive,
    /// The body stops.
    Stop(BodyFault),
}

impl Halt {
    ghost use Rattle.std.specs.Prelude.{◌≡◌, IfErr};
    ghost use Rattle.gn_bodies.specs.declared.piece.Halt.TheVariants as halt;

    /// Why no more are admitted after this fault: it stops the body, unless the body goes on to its end.
    pub(crate) fn at_stop(fault: BodyFault) -> Result<(), Halt>
        ensures { IfErr result (λ why. why ≡ halt.NotLive → ⊥) }
    {
        if fault.is_stop() {
            return Err(Halt::Stop(fault));
        }
        Ok(())
    }
}

/// What a piece did.
#[derive(Drop)]
pub(crate) enum Piece<A: Allocator = Global> {
    /// The reader goes on.
    More(Reading<A>),
    /// It is at its end, except for what it closes.
    End {
        connection: Option<ConnId>,
        end: ReaderEnd,
    },
    /// The body stops.
    Stop(BodyFault),
}

impl<A: Allocator> Reading<A> {
    ghost use Rattle.std.specs.Prelude.{◌≡◌};
    ghost use Rattle.gn_bodies.specs.Reading.{end_of_bytes, reading_connection};

    /// The connection, where there is one.
    pub(crate) fn into_connection(self) -> Option<ConnId>
        ensures { result ≡ reading_connection self }
    {
        match self {
            Reading::Greeting(_) => None,
            Reading::Joined { connection, .. } => Some(connection),
        }
    }

    /// How a reader ends where its bytes do.
    pub(crate) fn end_of_bytes(&self) -> ReaderEnd
        ensures { result ≡ end_of_bytes self.now }
    {
        match self {
            Reading::Greeting(_) => ReaderEnd::GreetingCut,
            Reading::Joined { .. } => ReaderEnd::Bytes,
        }
    }
}

impl<A: Allocator> Piece<A> {
    ghost use Rattle.std.specs.Prelude.{◌≡◌};
    ghost use Rattle.gn_bodies.specs.Reading.{end_of_turns, piece_of};

    /// What a piece of a connected link did, by how its descriptors were admitted and the fault that comes after them.
    pub(crate) fn of_admitted(
        connection: ConnId,
        frames: Reassembler<A>,
        admitted: Result<(), Halt>,
        fault: Option<FrameFault>,
    ) -> Piece<A>
        ensures { result ≡ piece_of connection frames admitted fault }
    {
        match admitted {
            Ok(()) => match fault {
                None => Piece::More(Reading::Joined { connection, frames }),
                Some(fault) => Piece::End {
                    connection: Some(connection),
                    end: ReaderEnd::Fault(fault),
                },
            },
            Err(Halt::NotLive) => Piece::End {
                connection: Some(connection),
                end: ReaderEnd::NotLive,
            },
            Err(Halt::Stop(why)) => Piece::Stop(why),
        }
    }

    /// How a reader ends that reads no more: as the piece ended it, or because as many reads gave bytes as may be.
    pub(crate) fn into_end(self) -> Result<(Option<ConnId>, ReaderEnd), BodyFault>
        ensures { result ≡ end_of_turns self }
    {
        match self {
            Piece::More(reading) => Ok((reading.into_connection(), ReaderEnd::Turns)),
            Piece::End { connection, end } => Ok((connection, end)),
            Piece::Stop(why) => Err(why),
        }
    }
}
