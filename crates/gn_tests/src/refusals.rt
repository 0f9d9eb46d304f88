//! What only calls can be refused: payloads that aren't written, and a feed after a fault.

use crate::compare::wrong_at;
use gn_fixtures::PING;
use gn_frames::{FeedRefusal, Reassembler};
use gn_payload::{HitResult, WriteRefusal, write_hit, write_query};
use gn_wire::{FrameFault, Guid, Kind};
use std::alloc::Global;
use std::test::Fail;

/// A result of 12 bytes: an index and a size of 4 bytes each, and two texts with a zero byte after each.
const RESULT: HitResult<'static> = HitResult {
    file: 1,
    size: 10,
    name: b"a",
    extra: b"z",
};

/// A result whose name has a zero byte, which would end it early.
const ZERO_IN_NAME: HitResult<'static> = HitResult {
    name: b"a\0",
    ..RESULT
};

/// A result whose extra bytes have a zero byte.
const ZERO_IN_EXTRA: HitResult<'static> = HitResult {
    extra: b"\0",
    ..RESULT
};

/// How many bytes a Query of this text has, without a tail.
fn query_of(alloc: Global, text: &[u8]) -> Result<usize, WriteRefusal> {
    let mut out = Vec::new(alloc);
    let written = write_query(0, text, b"", &mut out);
    let size = out.len();
    drop(out);
    match written {
        Ok(()) => Ok(size),
        Err(refusal) => Err(refusal),
    }
}

/// How many bytes a Query Hit of these results has, without a trailer.
fn hit_of(alloc: Global, results: &[HitResult<'_>]) -> Result<usize, WriteRefusal> {
    let mut out = Vec::new(alloc);
    let written = write_hit(
        6346,
        [127, 0, 0, 1],
        0,
        results,
        b"",
        Guid([0; 16]),
        &mut out,
    );
    let size = out.len();
    drop(out);
    match written {
        Ok(()) => Ok(size),
        Err(refusal) => Err(refusal),
    }
}

/// Whether that is so of a text with a zero byte, of one of 65,534 bytes, and of one of 65,533. A payload has at most
/// 65,536 bytes: a Query's speed has two, and a zero byte ends its text.
fn are_queries_refused(alloc: Global) -> Result<bool, Fail> {
    let text = vec![in alloc; b'a'; 65_534]?;
    let zero = query_of(alloc, b"a\0");
    let long = query_of(alloc, &text[..65_534]);
    let longest = query_of(alloc, &text[..65_533]);
    drop(text);
    Ok(
        [zero, long, longest]
            == [
                Err(WriteRefusal::ZeroInText),
                Err(WriteRefusal::TooLong),
                Ok(65_536),
            ],
    )
}

/// Fails at the first Query Hit that isn't written or refused as its row says. It has 11 bytes before its results, and
/// 16 behind them.
fn are_hits_refused(alloc: Global) -> Result<(), Fail> {
    let results = [RESULT; 256];
    let hits = [
        (&results[..255], Ok(11 + 255 * 12 + 16)),
        (&results[..256], Err(WriteRefusal::TooManyHits)),
        ([ZERO_IN_NAME].as_slice(), Err(WriteRefusal::ZeroInText)),
        ([ZERO_IN_EXTRA].as_slice(), Err(WriteRefusal::ZeroInText)),
    ];
    for (number, (results, answer)) in hits.iter().enumerate() {
        if hit_of(alloc, *results) != *answer {
            return Err(wrong_at(number));
        }
    }
    Ok(())
}

#[test]
fn payloads_that_are_not_written(rt: HostRuntime) -> Result<(), Fail> {
    if are_queries_refused(rt.alloc())? {
        are_hits_refused(rt.alloc())
    } else {
        Err(Fail::from("a Query"))
    }
}

/// A Ping of length 1.
const BROKEN: &[u8] =
    b"\xa1\xa1\xa1\xa1\xa1\xa1\xa1\xa1\xa1\xa1\xa1\xa1\xa1\xa1\xa1\xa1\x00\x07\x00\x01\x00\x00\x00";

/// Whether that Ping is a fault, and gives no descriptor.
fn is_at_fault(frames: &mut Reassembler) -> bool {
    match frames.feed(BROKEN) {
        Ok(fed) => {
            let fault = Some(FrameFault::FixedLength(Kind::Ping, 1));
            (fed.descriptors.len(), fed.fault) == (0, fault)
        }
        Err(_) => false,
    }
}

/// Whether a reassembler takes no more of this piece.
fn has_ended(frames: &mut Reassembler, piece: &[u8]) -> bool {
    frames.feed(piece).err() == Some(FeedRefusal::Ended)
}

/// Fails where a piece is taken after that fault, be it whole or empty.
fn ends_at_a_fault(alloc: Global) -> Result<(), Fail> {
    let mut frames = Reassembler::new(alloc)?;
    let is_at_fault = is_at_fault(&mut frames);
    let whole = has_ended(&mut frames, PING);
    let empty = has_ended(&mut frames, b"");
    if is_at_fault && whole && empty {
        Ok(())
    } else {
        Err(Fail::from("a fault, and no more"))
    }
}

#[test]
fn a_feed_after_a_fault(rt: HostRuntime) -> Result<(), Fail> {
    ends_at_a_fault(rt.alloc())
}
