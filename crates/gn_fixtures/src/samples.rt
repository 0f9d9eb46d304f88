//! The own servent, the usual configuration, a Ping with its answer, and the history of both.

ghost use Rattle.std.specs.Prelude.{◌≡◌, [], IfOk};
ghost use Rattle.gn_rules.specs.Settings.{IsMadeOf};
ghost use Rattle.gn_wire.specs.declared.kind.Kind.TheVariants.{Ping};

use bytes::Bytes;
use gn_rules::{BadConfig, Config, Own};
use gn_wire::{Descriptor, FrameFault, Guid, Kind};
use std::alloc::Allocator;

/// The router's own servent.
pub const OWN: Own = Own {
    servent: Guid([0xee; 16]),
    ip: [127, 0, 0, 1],
    port: 6346,
    files: 5,
    kbytes: 40,
};

/// A Ping's encoding, with TTL 7 and Hops 0.
pub const PING: &[u8] =
    b"\xa1\xa1\xa1\xa1\xa1\xa1\xa1\xa1\xa1\xa1\xa1\xa1\xa1\xa1\xa1\xa1\x00\x07\x00\x00\x00\x00\x00";

/// The encoding of the own Pong that answers it, with TTL 1 and Hops 0.
pub const OWN_PONG: &[u8] =
    b"\xa1\xa1\xa1\xa1\xa1\xa1\xa1\xa1\xa1\xa1\xa1\xa1\xa1\xa1\xa1\xa1\x01\x01\x00\x0e\x00\x00\x00\xca\x18\x7f\x00\x00\x01\x05\x00\x00\x00\x28\x00\x00\x00";

/// A Ping is answered and passed on.
pub const FIRST_PING: &str = "gnutella-history 1\n\
config 4 8 4 8 8 100\n\
own eeeeeeeeeeeeeeeeeeeeeeeeeeeeeeee 127.0.0.1 6346 5 40\n\
0 connect = connected 1\n\
0 connect = connected 2\n\
0 admit 1 a1a1a1a1a1a1a1a1a1a1a1a1a1a1a1a100070000000000 = admitted 0\n\
0 route 0 = routed local 1+a1a1a1a1a1a1a1a1a1a1a1a1a1a1a1a10101000e000000ca187f0000010500000028000000 2+a1a1a1a1a1a1a1a1a1a1a1a1a1a1a1a100060100000000\n\
end\n";

/// The configuration of most runs, but with so many steps.
pub fn usual(steps: u32) -> Result<Config, BadConfig>
    ensures { IfOk result (λ config. IsMadeOf config
        (record { neighbours = 4; seen = 8; servents = 4; stage = 8; out = 8; steps = steps; life = 0; crowd = 0 })
        OWN) }
{
    Config::new(4, 8, 4, 8, 8, steps, 0, 0, OWN)
}

/// A Ping with an ID that repeats this byte.
pub fn ping<A: Allocator>(byte: u8, ttl: u8, hops: u8) -> Result<Descriptor<A>, FrameFault>
    ensures kind { IfOk result (λ ping. (ping.kind ≡ Ping) × (ping.payload ≡ [])) }
    ensures fields { IfOk result (λ ping. (ping.ttl ≡ ttl) × (ping.hops ≡ hops)) }
{
    Descriptor::new(Guid([byte; 16]), Kind::Ping, ttl, hops, Bytes::new())
}
