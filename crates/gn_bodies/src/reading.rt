//! How a reader takes the bytes of its link.

ghost use Rattle.std.specs.Prelude.{◌≡◌, ◌+◌, ◌^◌, ◌<◌, ◌++◌, [], ℕ, List, Some};
ghost use Rattle.gn_shake.specs.declared.role.Role.{Role};
ghost use Rattle.gn_shake.specs.Greeting.{greeting_of};
ghost use Rattle.gn_links.specs.Halves.{IsReadFrom};
ghost use Rattle.gn_bodies.specs.declared.piece.Reading.TheVariants as reading;
ghost use Rattle.gn_bodies.specs.Admitting.{HasSameNumbers, StaysSettled};
ghost use Rattle.gn_bodies.specs.Reading.{HasConnection, HasReadOn, HasReadPieces, HasTakenPiece, IsOffering, IsOpen, IsReading, IsTaken};

use crate::ends::{BodyFault, ReaderEnd};
use crate::handler::ReaderHandler;
use crate::piece::{Piece, Reading};
use gn_actors::Named;
use gn_frames::{Fed, Reassembler};
use gn_links::{Gate, LinkReader};
use gn_rules::{ConnId, RouterCore};
use gn_shake::{Shake, ShakeState};
use gn_stage::Site;
use std::alloc::Allocator;
use std::sync::Wait;
use std::sync::ledger::Ledger;

impl<
    's,
    G: Gate,
    B: Site + Ledger + Named,
    C: RouterCore<A> + Drop,
    R: Wait,
    A: Allocator + Copy,
> ReaderHandler<'s, G, B, C, R, A> {
    /// Reads once, and takes the piece that was read.
    pub(crate) fn read_piece<Rd: LinkReader>(
        &mut self,
        reader: &mut Rd,
        reading: Reading<A>,
        buffer: &mut [u8; 4096],
    ) -> Piece<A>
        requires connection { HasConnection reading self.old.actor }
        ensures same { HasSameNumbers self.old self.new × StaysSettled self.old self.new }
        ensures own { (Rd.made_of reader.new ≡ Rd.made_of reader.old)
            × IsReadFrom (Rd.gives (Rd.made_of reader.new)) (Rd.state reader.new) }
        ensures read { (turns : ℕ) (role : Role) (count : ℕ) → count < 2 ^ 32
            → HasReadOn role reading self.old.actor (Rd.state reader.old) count
            → HasReadPieces turns role result self.new.actor (Rd.state reader.new)
            (Rd.gives (Rd.made_of reader.new)).may_fail (count + 1) }
    {
        gn_shake::greeting_is_known();
        match reader.read(self.caller.rt(), buffer) {
            Err(_) => Piece::End {
                connection: reading.into_connection(),
                end: ReaderEnd::ReadFailed,
            },
            Ok(0) => {
                let end = reading.end_of_bytes();
                Piece::End {
                    connection: reading.into_connection(),
                    end,
                }
            }
            Ok(n) => {
                let piece = &buffer[..n];
                match reading {
                    Reading::Greeting(shake) => self.greet(shake, piece),
                    Reading::Joined { connection, frames } => {
                        self.deliver_on(connection, frames, piece)
                    }
                }
            }
        }
    }

    /// Takes a piece of a link that awaits its greeting.
    fn greet(&mut self, shake: Shake, piece: &[u8]) -> Piece<A>
        requires none { self.old.actor.receipts ≡ [] }
        ensures piece { HasTakenPiece result self.old self.new }
        ensures taken { (role : Role) (b : List ℕ) → IsReading {A = A} role (reading.Greeting shake) b self.old.actor
            → IsTaken role result (b ++ piece.now) self.new.actor }
    {
        gn_shake::pieces_are_one_stream();
        gn_shake::greeting_is_known();
        let mut shake = shake;
        let shaken = shake.feed(piece);
        match shaken.state {
            ShakeState::More => Piece::More(Reading::Greeting(shake)),
            ShakeState::Refused => Piece::End {
                connection: None,
                end: ReaderEnd::GreetingRefused,
            },
            ShakeState::Done => self.connect_and_take(shaken.rest_of(piece)),
        }
    }

    /// Connects a link whose greeting is done, and takes the bytes after it.
    pub(crate) fn connect_and_take(&mut self, piece: &[u8]) -> Piece<A>
        requires none { self.old.actor.receipts ≡ [] }
        ensures piece { HasTakenPiece result self.old self.new }
        ensures taken { (role : Role) (b : List ℕ) → b ≡ greeting_of role ++ piece.now
            → IsTaken role result b self.new.actor }
    {
        gn_shake::greeting_is_known();
        match self.caller.connect() {
            Err(why) => Piece::Stop(why),
            Ok(None) => Piece::End {
                connection: None,
                end: ReaderEnd::TooMany,
            },
            Ok(Some(c)) => match Reassembler::new(self.caller.alloc) {
                Err(_) => Piece::Stop(BodyFault::NoMemory),
                Ok(frames) => self.deliver_on(c, frames, piece),
            },
        }
    }

    /// Takes a piece of a connected link, of which the frames are kept.
    fn deliver_on(&mut self, c: ConnId, frames: Reassembler<A>, piece: &[u8]) -> Piece<A>
        requires connection { IsOpen c self.old.actor }
        ensures piece { HasTakenPiece result self.old self.new }
        ensures taken { (role : Role) (b s : List ℕ) → b ≡ greeting_of role ++ s → IsOffering s c frames self.old.actor
            → IsTaken role result (b ++ piece.now) self.new.actor }
    {
        gn_shake::greeting_is_known();
        gn_frames::pieces_are_one_stream();
        let mut frames = frames;
        let Ok(fed) = frames.feed(piece) else {
            return Piece::Stop(BodyFault::NoMemory);
        };
        let Fed { descriptors, fault } = fed;
        let admitted = self.admit_all(c, descriptors);
        Piece::of_admitted(c, frames, admitted, fault)
    }
}
