//! A stream's reassembler: it holds the bytes of the descriptor that isn't whole yet.

ghost use Rattle.std.specs.Prelude.{◌≡◌, [], Some, IfOk, IfErr, OnErr};

use crate::pieces::take_piece;
use bytes::BytesMut;
use gn_wire::{Descriptor, FrameFault};
use std::alloc::{AllocError, Allocator, Global};
use std::marker::Model;

/// What one piece of a stream gave.
#[derive(Debug, Drop)]
pub struct Fed<A: Allocator = Global> {
    /// The descriptors that are whole now, in the order of the stream.
    pub descriptors: Vec<Descriptor<A>, A>,
    /// The length after them that is invalid, where one is. The stream ends there.
    pub fault: Option<FrameFault>,
}

/// Why a piece wasn't taken.
#[derive(Clone, Copy, Debug, PartialEq, Eq)]
pub enum FeedRefusal {
    /// A fault was answered before.
    Ended,
    NoMemory,
}

/// Takes the pieces of a stream, and gives its descriptors.
#[derive(Debug)]
pub struct Reassembler<A: Allocator = Global> {
    alloc: A,
    held: BytesMut<A>,
    ended: bool,
}

impl<A: Allocator> Drop for Reassembler<A> {
    fn drop(self) {
        let Reassembler {
            alloc: _,
            held: _,
            ended: _,
        } = self;
    }
}

impl<A: Allocator> Model for Reassembler<A> {
    ghost use Rattle.std.specs.Prelude.{List, ℕ, Option};
    ghost use Rattle.gn_frames.specs.Held.{IsHeld, held_view};

    ghost Value = { Option (List ℕ) };

    ghost view = { λ r. held_view r.ended r.held.items };

    ghost invariant = { λ r. IsHeld r.ended r.held.items };
}

impl<A: Allocator + Copy> Reassembler<A> {
    ghost use Rattle.gn_frames.specs.Reassembly.{IsAnswer, IsFeedRefusal, pending_of};

    /// Holds nothing yet. An `Err` is out of memory.
    pub fn new(alloc: A) -> Result<Self, AllocError>
        ensures { IfOk result (λ r. r ≡ Some []) }
    {
        Ok(Reassembler {
            alloc,
            held: BytesMut::new(alloc),
            ended: false,
        })
    }

    /// Takes the next piece, of any size. Descriptors that came before a fault are given with it. A refusal changes
    /// nothing.
    pub fn feed(&mut self, piece: &[u8]) -> Result<Fed<A>, FeedRefusal>
        ensures ok { IfOk result (λ fed. IsAnswer self.old piece.now fed.descriptors.items fed.fault self.new) }
        ensures refusal { IfErr result (λ refusal. IsFeedRefusal self.old refusal) }
        ensures unchanged { OnErr result (self.new ≡ self.old) }
    {
        if self.ended {
            return Err(FeedRefusal::Ended);
        }
        let before = self.held.len();
        match take_piece(self.alloc, &mut self.held, piece) {
            Ok(fed) => {
                if fed.fault.is_some() {
                    self.held = BytesMut::new(self.alloc);
                    self.ended = true;
                }
                Ok(fed)
            }
            Err(_) => {
                self.held.truncate(before);
                Err(FeedRefusal::NoMemory)
            }
        }
    }

    /// How many bytes of an unfinished descriptor are held; 0 after a fault.
    pub fn pending(&self) -> usize
        ensures { result ≡ pending_of self.now }
    {
        self.held.len()
    }
}
