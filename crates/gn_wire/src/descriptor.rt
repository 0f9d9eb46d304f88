//! A descriptor: its header's fields and its payload, of a valid length.

ghost use Rattle.std.specs.Prelude.{◌≡◌, ◌<◌, ◌+◌, ◌++◌, length, take, None, IsTrue, ◌↔◌, MatchOption, Ok, Err, true, false, IfOk, OnOk, OnErr, vec_len, vec_capacity};
ghost use Rattle.std.specs.Option.{option_map_or};

use crate::append::whole_or_none;
use crate::header::{FrameFault, Header, length_fault, write_header};
use crate::key::Key;
use crate::kind::{Guid, Kind};
use bytes::Bytes;
use std::alloc::{AllocError, Allocator, Global};
use std::marker::Model;

/// A descriptor, whose payload has a length that its kind allows (Gnutella v0.4, "Descriptor header").
#[derive(Debug)]
pub struct Descriptor<A: Allocator = Global> {
    id: Guid,
    kind: Kind,
    ttl: u8,
    hops: u8,
    payload: Bytes<A>,
}

impl<A: Allocator> Drop for Descriptor<A> {
    fn drop(self) {
        let Descriptor {
            id: _,
            kind: _,
            ttl: _,
            hops: _,
            payload: _,
        } = self;
    }
}

impl<A: Allocator> Model for Descriptor<A> {
    ghost use Rattle.gn_wire.specs.Packet.{IsDescriptor, Packet};

    ghost Value = { Packet };

    ghost view = { λ d. record { id = d.id; kind = d.kind; ttl = d.ttl; hops = d.hops; payload = d.payload } };

    ghost invariant = { λ d.
        IsDescriptor (record { id = d.id; kind = d.kind; ttl = d.ttl; hops = d.hops; payload = d.payload }) };
}

impl<A: Allocator> Descriptor<A> {
    ghost use Rattle.gn_wire.specs.Packet.{IsDescriptor, IsStored, Packet, code_of, fault_of, forward_of, is_expired, kind_of, life_left, packet_fault};
    ghost use Rattle.gn_wire.specs.Keys.{is_same_packet, key_of};
    ghost use Rattle.gn_wire.specs.Encoding.{bytes_of, header_of, packet_from};

    /// A descriptor of these parts, where the payload's length is valid; else the fault. The kind is kept as the one
    /// that its code names. A payload longer than a u32 holds is given as 4,294,967,295 bytes.
    pub fn new(
        id: Guid,
        kind: Kind,
        ttl: u8,
        hops: u8,
        payload: Bytes<A>,
    ) -> Result<Self, FrameFault>
        ensures { let kind = kind_of (code_of kind) in
            let d : Packet = record { id = id; kind = kind; ttl = ttl; hops = hops; payload = payload } in
            result ≡ option_map_or Err (packet_fault d) (Ok d) }
    {
        let kind = Kind::of(kind.code());
        let length = u32::try_from(payload.len()).unwrap_or(u32::MAX);
        match length_fault(kind, length) {
            Some(fault) => Err(fault),
            None => Ok(Descriptor {
                id,
                kind,
                ttl,
                hops,
                payload,
            }),
        }
    }

    /// The descriptor of a header's fields and a payload, where the payload's length is valid; else the fault. The length that
    /// the header says isn't looked at.
    pub fn from_header(header: Header, payload: Bytes<A>) -> Result<Self, FrameFault>
        ensures { let d = packet_from (record header { kind = kind_of (code_of header.kind) }) payload in
            result ≡ option_map_or Err (packet_fault d) (Ok d) }
    {
        Descriptor::new(header.id, header.kind, header.ttl, header.hops, payload)
    }

    /// As `from_header`, where the payload's length is known to be valid, and the kind is the one that its code names.
    pub fn whole(header: Header, payload: Bytes<A>) -> Self
        requires valid { fault_of header.kind (length payload) ≡ None }
        requires stored { IsStored header.kind }
        ensures { result ≡ packet_from header payload }
    {
        Descriptor {
            id: header.id,
            kind: header.kind,
            ttl: header.ttl,
            hops: header.hops,
            payload,
        }
    }

    /// The ID that its sender gave it.
    pub fn id(&self) -> Guid
        ensures { result ≡ self.now.id }
    {
        self.id
    }

    /// What it is.
    pub fn kind(&self) -> Kind
        ensures { result ≡ self.now.kind }
    {
        self.kind
    }

    /// How many times it may still be forwarded.
    pub fn ttl(&self) -> u8
        ensures { result ≡ self.now.ttl }
    {
        self.ttl
    }

    /// How many times it has been forwarded.
    pub fn hops(&self) -> u8
        ensures { result ≡ self.now.hops }
    {
        self.hops
    }

    /// The bytes after its header. What every descriptor keeps is stated here too.
    pub fn payload(&self) -> &Bytes<A>
        ensures value { result.now ≡ self.now.payload }
        ensures kept { IsDescriptor self.now }
    {
        &self.payload
    }

    /// What a router remembers it by.
    pub fn key(&self) -> Key
        ensures { result ≡ key_of self.now }
    {
        Key {
            kind: self.kind(),
            id: self.id(),
        }
    }

    /// Whether both are the same in every field.
    #[tactic(auto, using(crate::proofs::KeyLemmas::same_key))]
    pub fn is_same(&self, other: &Self) -> bool
        ensures value { result ≡ is_same_packet self.now other.now }
        ensures equal { IsTrue result ↔ (self.now ≡ other.now) }
    {
        self.key() == other.key()
            && self.ttl == other.ttl
            && self.hops == other.hops
            && self.payload.as_slice() == other.payload.as_slice()
    }

    /// The header that its encoding begins with.
    pub fn header(&self) -> Header
        ensures { result ≡ header_of self.now }
    {
        Header {
            id: self.id,
            kind: self.kind,
            ttl: self.ttl,
            hops: self.hops,
            length: self.payload.len() as u32,
        }
    }

    /// Appends the encoding, 23 bytes and the payload. An `Err` is out of memory: it comes only where the vector has no
    /// room for the encoding, and changes nothing.
    pub fn write_to<B: Allocator>(&self, out: &mut Vec<u8, B>) -> Result<(), AllocError>
        ensures ok { OnOk result (out.new.items ≡ out.old.items ++ bytes_of self.now) }
        ensures err { OnErr result (out.new.items ≡ out.old.items) }
        ensures full { OnErr result (vec_capacity out.old < vec_len out.old + length (bytes_of self.now)) }
    {
        let start = out.len();
        let appended = self.append_to(out);
        whole_or_none(out, start, appended)
    }

    /// Appends the header and then the payload. An `Err` is out of memory, and leaves what stood there before as it was.
    fn append_to<B: Allocator>(&self, out: &mut Vec<u8, B>) -> Result<(), AllocError>
        ensures ok { OnOk result (out.new.items ≡ out.old.items ++ bytes_of self.now) }
        ensures err { OnErr result (take (length out.old.items) out.new.items ≡ out.old.items) }
        ensures full { OnErr result (vec_capacity out.old < vec_len out.old + length (bytes_of self.now)) }
    {
        out.extend_from_slice(&write_header(&self.header()))?;
        out.extend_from_slice(self.payload.as_slice())
    }

    /// An equal descriptor. An `Err` is out of memory.
    pub fn copy(&self) -> Result<Self, AllocError>
        ensures { IfOk result (λ d. d ≡ self.now) }
    {
        Ok(Descriptor {
            id: self.id,
            kind: self.kind,
            ttl: self.ttl,
            hops: self.hops,
            payload: self.payload.clone()?,
        })
    }

    /// How many times it may still be forwarded, where TTL and Hops together are to be at most `life`; 0 is no limit.
    pub fn life_left(&self, life: u8) -> u8
        ensures { result ≡ life_left life self.now }
    {
        if life == 0 {
            return self.ttl;
        }
        self.ttl.min(life.saturating_sub(self.hops))
    }

    /// The header under which it is forwarded: TTL one less than what is left of its life, Hops one more. `None` where it
    /// is expired (Gnutella v0.4, "Descriptor routing"; the limit on its life is this project's own).
    pub fn forwarded(&self, life: u8) -> Option<Header>
        ensures { MatchOption result (is_expired life self.now ≡ true)
            (λ h. (is_expired life self.now ≡ false) × (h ≡ header_of (forward_of life self.now))) }
    {
        let left = self.life_left(life);
        if left <= 1 || self.hops == 255 {
            return None;
        }
        Some(Header {
            ttl: left - 1,
            hops: self.hops + 1,
            ..self.header()
        })
    }
}
