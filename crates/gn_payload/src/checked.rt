//! A descriptor whose payload has been checked.

ghost use Rattle.std.specs.Prelude.{◌≡◌};
ghost use Rattle.gn_payload.specs.Reading.{verdict_of};

use crate::payload::is_readable;
use gn_wire::{Descriptor, Kind};
use std::alloc::{Allocator, Global};
use std::marker::Model;

/// What a check says of a descriptor.
#[derive(Clone, Copy, Debug, PartialEq, Eq)]
pub enum Verdict {
    /// Its kind is known and its payload has a reading.
    Sound,
    /// Version 0.4 doesn't name its kind.
    UnknownKind,
    /// Its kind is known and its payload has no reading.
    Malformed,
}

/// A descriptor with its verdict. Checking takes no memory.
#[derive(Debug)]
pub struct Checked<A: Allocator = Global> {
    descriptor: Descriptor<A>,
    verdict: Verdict,
}

impl<A: Allocator> Drop for Checked<A> {
    fn drop(self) {
        let Checked {
            descriptor: _,
            verdict: _,
        } = self;
    }
}

impl<A: Allocator> Model for Checked<A> {
    ghost use Rattle.std.specs.Prelude.{◌≡◌};
    ghost use Rattle.gn_wire.specs.Packet.{Packet};
    ghost use Rattle.gn_payload.specs.Reading.{verdict_of};

    ghost Value = { Packet };

    ghost view = { λ c. c.descriptor };

    ghost invariant = { λ c. c.verdict ≡ verdict_of c.descriptor };
}

/// What a check says of a descriptor that is only lent.
pub fn verdict_on<A: Allocator>(descriptor: &Descriptor<A>) -> Verdict
    ensures { result ≡ verdict_of descriptor.now }
{
    match descriptor.kind() {
        Kind::Unknown(_) => Verdict::UnknownKind,
        kind if is_readable(kind, descriptor.payload().as_slice()) => Verdict::Sound,
        _ => Verdict::Malformed,
    }
}

impl<A: Allocator> Checked<A> {
    /// Checks a descriptor.
    pub fn new(descriptor: Descriptor<A>) -> Checked<A>
        ensures { result ≡ descriptor }
    {
        let verdict = verdict_on(&descriptor);
        Checked {
            descriptor,
            verdict,
        }
    }

    /// The descriptor that was checked.
    pub fn descriptor(&self) -> &Descriptor<A>
        ensures { result.now ≡ self.now }
    {
        &self.descriptor
    }

    /// What the check says of it.
    pub fn verdict(&self) -> Verdict
        ensures { result ≡ verdict_of self.now }
    {
        self.verdict
    }

    /// The descriptor, given back.
    pub fn into_descriptor(self) -> Descriptor<A>
        ensures { result ≡ self }
    {
        let Checked {
            descriptor,
            verdict: _,
        } = self;
        descriptor
    }
}
