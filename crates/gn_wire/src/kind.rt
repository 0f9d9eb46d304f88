//! What a descriptor is, and the ID that its sender gave it.

ghost use Rattle.std.specs.Prelude.{◌≡◌};
ghost use Rattle.gn_wire.specs.Packet.{code_of, kind_of};

/// The 16 bytes of an ID: a descriptor's, or a servent's.
#[derive(Clone, Copy, Debug, PartialEq, Eq, Hash)]
pub struct Guid(pub [u8; 16]);

/// The kind of a descriptor (Gnutella v0.4, "Descriptor header").
#[derive(Clone, Copy, Debug, PartialEq, Eq, Hash)]
pub enum Kind {
    Ping,
    Pong,
    Push,
    Query,
    QueryHit,
    /// A payload descriptor that version 0.4 doesn't name, as it was received.
    Unknown(u8),
}

impl Kind {
    /// The kind that a payload descriptor names.
    pub fn of(code: u8) -> Kind
        ensures { result ≡ kind_of code }
    {
        match code {
            0x00 => Kind::Ping,
            0x01 => Kind::Pong,
            0x40 => Kind::Push,
            0x80 => Kind::Query,
            0x81 => Kind::QueryHit,
            other => Kind::Unknown(other),
        }
    }

    /// The payload descriptor of the kind.
    pub fn code(&self) -> u8
        ensures { result ≡ code_of self.now }
    {
        match self {
            Kind::Ping => 0x00,
            Kind::Pong => 0x01,
            Kind::Push => 0x40,
            Kind::Query => 0x80,
            Kind::QueryHit => 0x81,
            Kind::Unknown(code) => *code,
        }
    }
}
