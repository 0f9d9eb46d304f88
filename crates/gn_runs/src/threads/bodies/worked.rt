//! The worked runs of one link.

ghost use Rattle.std.specs.Prelude.{◌<◌, ◌≤◌};

use super::{Ran, Setting, Told, USUAL, WORKER, run_link, run_plain};
use gn_bodies::{ReaderEnd, WriterEnd};
use gn_fixtures::{OWN_PONG, PING};
use gn_hub::Door;
use gn_links::MemoryLink;
use gn_shake::{Role, consent, request};
use std::alloc::{AllocError, Allocator, Global};
use std::process::Abort;
use std::sync::Wait;
use std::test::Fail;

/// The steps of a link that sends one Ping.
pub(super) const ONE_PING: &str = "\
0 connect = connected 1
0 admit 1 a1a1a1a1a1a1a1a1a1a1a1a1a1a1a1a100070000000000 = admitted 0
2 route 0 = routed local 1+a1a1a1a1a1a1a1a1a1a1a1a1a1a1a1a10101000e000000ca187f0000010500000028000000
1 take 1 = taken a1a1a1a1a1a1a1a1a1a1a1a1a1a1a1a10101000e000000ca187f0000010500000028000000
1 close 1 = closed 0
";

/// Whether the bodies ended so, and wrote what they were to.
fn has_written(ran: &Ran, read: ReaderEnd, wrote: WriterEnd) -> bool {
    ran.ends == (Ok(read), Ok(()), Ok(wrote)) && ran.is_closing && !ran.has_failed && ran.is_written
}

/// Whether this link never opens, ends so, and writes this.
pub(super) fn never_opens<R: Wait>(
    rt: &R,
    alloc: Global,
    link: MemoryLink,
    read: ReaderEnd,
    written: &[u8],
) -> Result<bool, Fail> {
    let setting = Setting {
        written: (written, b""),
        ..USUAL
    };
    let ran = run_link(rt, alloc, setting, link)?;
    Ok(
        has_written(&ran, read, WriterEnd::NeverOpened)
            && ran.length == 0
            && ran.door == Door::Shut
            && ran.passed.is_none()
            && ran.told == [""; 8]
            && ran.ended == (true, true),
    )
}

/// What the peer of a link in this role says first, and what it is told first.
fn openings(role: Role) -> (&'static [u8], &'static [u8]) {
    match role {
        Role::Plain => (b"", b""),
        Role::Calling => (consent(), request()),
        Role::Accepting => (request(), consent()),
    }
}

/// A link in this role whose peer sends one Ping, of which a read gives so many bytes at most.
pub(crate) fn link_of_one_ping<A: Allocator + Copy>(
    alloc: A,
    role: Role,
    piece: usize,
) -> Result<MemoryLink<A>, AllocError>
    requires { (0 < piece) × (piece ≤ 4096) }
{
    let bytes = [openings(role).0, PING].concat(alloc)?;
    Ok(MemoryLink::new(role, bytes, piece))
}

/// What a gate is told of such a link.
const TOLD: Told = [
    "connected",
    "admitted",
    "passed",
    "taken",
    "closed",
    "",
    "",
    "",
];

/// Whether such a link runs as it must, and the gate learns of it.
fn runs_as_it_must<R: Wait>(rt: &R, alloc: Global, role: Role) -> Result<bool, Fail> {
    let setting = Setting {
        written: (openings(role).1, OWN_PONG),
        lines: ONE_PING,
        ..USUAL
    };
    let ran = run_link(rt, alloc, setting, link_of_one_ping(alloc, role, 5)?)?;
    Ok(
        has_written(&ran, ReaderEnd::Bytes, WriterEnd::Drained)
            && ran.has_lines
            && ran.passed == Some((WORKER, 0))
            && ran.ended == (true, true)
            && ran.told == TOLD,
    )
}

/// Fails where a link of one Ping in some role doesn't run as it must.
fn run_each<R: Wait + Abort>(rt: &R, alloc: Global) -> Result<(), Fail> {
    for role in [Role::Plain, Role::Calling, Role::Accepting] {
        assert!(rt; runs_as_it_must(rt, alloc, role)?, "{role:?}");
    }
    Ok(())
}

#[test]
fn a_link_of_one_ping(rt: HostRuntime) -> Result<(), Fail> {
    run_each(&rt, rt.alloc())
}

/// Whether a link in this role whose peer sends these bytes never opens, ends so, and writes this.
fn is_shut<R: Wait>(
    rt: &R,
    alloc: Global,
    role: Role,
    bytes: &[u8],
    read: ReaderEnd,
    written: &[u8],
) -> Result<bool, Fail> {
    let link = MemoryLink::new(role, bytes.to_vec(alloc)?, 4096);
    never_opens(rt, alloc, link, read, written)
}

/// Fails unless a link that is refused never opens, nor one whose greeting is cut.
fn shut_both<R: Wait + Abort>(rt: &R, alloc: Global) -> Result<(), Fail> {
    let refused = ReaderEnd::GreetingRefused;
    let answer = b"HTTP/1.0 200 OK\r\n";
    assert!(rt; is_shut(rt, alloc, Role::Calling, answer, refused, request())?);
    let cut = &request()[..21];
    assert!(rt; is_shut(rt, alloc, Role::Accepting, cut, ReaderEnd::GreetingCut, b"")?);
    Ok(())
}

#[test]
fn a_link_that_never_opens(rt: HostRuntime) -> Result<(), Fail> {
    shut_both(&rt, rt.alloc())
}

/// Whether a plain link of one Ping ends so in this setting, in five steps, and the gate is told these.
fn tells<R: Wait>(
    rt: &R,
    alloc: Global,
    setting: Setting<'_>,
    ends: (ReaderEnd, WriterEnd),
    told: &Told,
) -> Result<bool, Fail> {
    let ran = run_plain(rt, alloc, setting, PING)?;
    let (reader, writer) = ends;
    Ok(ran.ends == (Ok(reader), Ok(()), Ok(writer)) && ran.told == *told && ran.length == 5)
}

/// What a gate is told of a link without a worker.
const ROUTED: Told = [
    "connected",
    "admitted",
    "routed",
    "taken",
    "closed",
    "",
    "",
    "",
];

/// What it is told of a link that is one too many.
const TOO_MANY: Told = ["too many", "", "", "", "", "", "", ""];

/// Fails unless the gate is told of the steps of both.
fn tell_both<R: Wait + Abort>(rt: &R, alloc: Global) -> Result<(), Fail> {
    let alone = Setting {
        is_alone: true,
        ..USUAL
    };
    let drained = (ReaderEnd::Bytes, WriterEnd::Drained);
    assert!(rt; tells(rt, alloc, alone, drained, &ROUTED)?);
    let fifth = Setting {
        connected: 4,
        ..USUAL
    };
    let turned_away = (ReaderEnd::TooMany, WriterEnd::NeverOpened);
    assert!(rt; tells(rt, alloc, fifth, turned_away, &TOO_MANY)?);
    Ok(())
}

/// Without a worker the reader routes its Ping itself; and a fifth connection is one too many.
#[test]
fn a_gate_is_told_of_each_step(rt: HostRuntime) -> Result<(), Fail> {
    tell_both(&rt, rt.alloc())
}
