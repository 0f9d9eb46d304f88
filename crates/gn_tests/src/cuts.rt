//! Bytes of links that come in pieces: however they are cut, the same is printed.

use crate::encoding::encoded;
use crate::replays::exit_of;
use crate::run::capture_text;
use std::alloc::{AllocError, Global};
use std::test::Fail;

/// A capture in which one piece is cut.
struct Cut {
    name: &'static str,
    numbers: &'static str,
    /// Its lines. The piece stands between bars.
    capture: &'static str,
    /// What stands between two parts of the piece.
    again: &'static str,
    printed: &'static str,
}

/// A Query Hit, and a greeting with the Ping behind it.
static CUTS: [Cut; 2] = [
    Cut {
        name: "query_hit_push",
        numbers: "4 8 4 8 8 100",
        capture: "join; join; data 1 <b1>800500070000000000616263001c; route 0; \
            data 2 |<TWO b1 5e 04 00>|; \
            route 1; data 1 <PUSH c1 5e 05 00>; route 2",
        again: "\ndata 2 ",
        printed: "0 connect = connected 1; \
            0 connect = connected 2; \
            0 admit 1 <b1>800500070000000000616263001c = admitted 0; \
            0 route 0 = routed local 2+<b1>800401070000000000616263001c; \
            0 admit 2 <TWO b1 5e 04 00> = admitted 1; \
            0 route 1 = routed away 1+<TWO b1 5e 03 01>; \
            0 admit 1 <PUSH c1 5e 05 00> = admitted 2; \
            0 route 2 = routed away 2+<PUSH c1 5e 04 01>",
    },
    Cut {
        name: "greetings",
        numbers: "1 8 4 8 8 100",
        capture: "open; \
            data 1 |474e5554454c4c4120434f4e4e4543542f302e340a0a<PING a1 07 00>|; \
            route 0",
        again: "\ndata 1 ",
        printed: "0 connect = connected 1; \
            0 admit 1 <PING a1 07 00> = admitted 0; \
            0 route 0 = routed local 1+<OWN a1 01>",
    },
];

/// A capture's text: what stands before the piece, the piece, and what stands after it.
type Parts<'a> = (&'a str, &'a str, &'a str);

/// The parts of a text with two bars.
fn parts_of(text: &str) -> Parts<'_> {
    let (before, rest) = text.split_once('|').unwrap_or((text, ""));
    let (piece, after) = rest.split_once('|').unwrap_or((rest, ""));
    (before, piece, after)
}

/// The piece, cut before one byte, or with none named before each.
fn push_pieces(
    text: &mut Vec<u8>,
    again: &str,
    digits: &str,
    at: Option<usize>,
) -> Result<(), AllocError> {
    for (i, byte) in digits.as_bytes().chunks(2).enumerate() {
        if i > 0 && i == at.unwrap_or(i) {
            text.extend_from_slice(again.as_bytes())?;
        }
        text.extend_from_slice(byte)?;
    }
    Ok(())
}

/// The capture, its piece cut there.
fn cut_text(
    alloc: Global,
    again: &str,
    parts: Parts<'_>,
    at: Option<usize>,
) -> Result<Vec<u8>, AllocError> {
    let (before, piece, after) = parts;
    let mut text = Vec::from_slice(alloc, before.as_bytes())?;
    push_pieces(&mut text, again, piece, at)?;
    text.extend_from_slice(after.as_bytes())?;
    Ok(text)
}

/// Whether a replay of the capture, its piece cut there, prints this.
fn prints(
    alloc: Global,
    again: &str,
    parts: Parts<'_>,
    at: Option<usize>,
    wanted: &[u8],
) -> Result<bool, AllocError> {
    let text = cut_text(alloc, again, parts, at)?;
    Ok(exit_of(alloc, text.as_slice(), wanted).is_some())
}

/// Whether a replay prints this wherever the piece is cut.
fn always_prints(
    alloc: Global,
    again: &str,
    parts: Parts<'_>,
    wanted: &[u8],
) -> Result<bool, AllocError> {
    let mut all_print = prints(alloc, again, parts, None, wanted)?;
    for at in 0..parts.1.len() / 2 {
        all_print = prints(alloc, again, parts, Some(at), wanted)? && all_print;
    }
    Ok(all_print)
}

/// Fails where that isn't the same wherever the piece is cut.
fn is_the_same(alloc: Global, cut: &Cut) -> Result<(), Fail> {
    let capture = capture_text(alloc, cut.numbers, cut.capture)?;
    let wanted = encoded(alloc, cut.printed)?;
    if always_prints(alloc, cut.again, parts_of(&capture), wanted.as_bytes())? {
        Ok(())
    } else {
        Err(Fail::from(cut.name))
    }
}

#[test]
fn at_each_byte(rt: HostRuntime) -> Result<(), Fail> {
    for cut in &CUTS {
        is_the_same(rt.alloc(), cut)?;
    }
    Ok(())
}
