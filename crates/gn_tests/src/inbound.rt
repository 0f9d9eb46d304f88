//! What the pieces of a link's bytes give, from the greeting on.

use crate::shake::{CONNECT, OK};
use gn_fixtures::PING;
use gn_inbound::{Given, Inbound};
use gn_shake::Role;
use gn_wire::{FrameFault, Kind};
use std::alloc::{AllocError, Global};
use std::test::Fail;

/// The header of a Ping of one byte, which no Ping has: an ID of zeros, the kind 0, TTL 7, Hops 0, and the length.
const LONG_PING: &[u8] = b"\0\0\0\0\0\0\0\0\0\0\0\0\0\0\0\0\0\x07\0\x01\0\0\0";

/// What a piece gave: whether the link opened, how many descriptors came, and the fault.
type Gave = (bool, usize, Option<FrameFault>);

/// What a piece gives that opens nothing and completes nothing.
const NOTHING: Gave = (false, 0, None);

/// A link's name, its role, and its pieces with what each gives.
type Row = (&'static str, Role, &'static [(&'static [u8], Gave)]);

/// A link that asks and ends at a fault, one that is refused, and one whose Ping comes in two pieces.
static ROWS: [Row; 3] = [
    (
        "opened and ended",
        Role::Accepting,
        &[
            (b"GNUTELLA C", NOTHING),
            (b"ONNECT/0.4\n\n", (true, 0, None)),
            (PING, (false, 1, None)),
            (
                LONG_PING,
                (false, 0, Some(FrameFault::FixedLength(Kind::Ping, 1))),
            ),
            (PING, NOTHING),
        ],
    ),
    (
        "refused",
        Role::Calling,
        &[(CONNECT, NOTHING), (OK, NOTHING)],
    ),
    (
        "a Ping in two pieces",
        Role::Plain,
        &[
            (
                b"\xa1\xa1\xa1\xa1\xa1\xa1\xa1\xa1\xa1\xa1\xa1\xa1\xa1\xa1\xa1\xa1\0\x07\0\0\0\0",
                NOTHING,
            ),
            (b"\0", (false, 1, None)),
        ],
    ),
];

/// What a piece gave.
fn gave(given: &Given) -> Gave {
    (given.opened, given.descriptors.len(), given.fault)
}

/// Whether a link gives that for each of these pieces.
fn gives(alloc: Global, role: Role, pieces: &[(&[u8], Gave)]) -> Result<bool, AllocError> {
    let mut link = Inbound::new(alloc, role)?;
    let mut are_given = true;
    for (piece, wanted) in pieces {
        let (after, given) = link.feed(alloc, piece)?;
        link = after;
        are_given = gave(&given) == *wanted && are_given;
    }
    Ok(are_given)
}

/// Fails at the first row that isn't as it says.
fn all_give(alloc: Global) -> Result<(), Fail> {
    for (name, role, pieces) in &ROWS {
        if !gives(alloc, *role, *pieces)? {
            return Err(Fail::from(*name));
        }
    }
    Ok(())
}

#[test]
fn links_open_and_end(rt: HostRuntime) -> Result<(), Fail> {
    all_give(rt.alloc())
}
