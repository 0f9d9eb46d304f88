//! A history written and read, and texts that are none.

use crate::compare::wrong_at;
use gn_capture::{read_history, read_is_encoded, write_history, written_is_read};
use gn_text::{CaptureRefusal, Cause};
use std::alloc::{AllocError, Global};
use std::test::Fail;

/// A text by its beginning and the rest.
type Text = (&'static str, &'static str);

/// The first lines of a history.
const HEAD: &str = "gnutella-history 1\nconfig 4 8 4 8 8 100\n\
    own eeeeeeeeeeeeeeeeeeeeeeeeeeeeeeee 127.0.0.1 6346 5 40\n";

/// The last lines of one without steps.
const EMPTY: &str = "own eeeeeeeeeeeeeeeeeeeeeeeeeeeeeeee 127.0.0.1 6346 5 40\nend\n";

/// A text of two parts.
fn joined(alloc: Global, text: Text) -> Result<String, AllocError> {
    let (head, rest) = text;
    format!(in alloc; "{head}{rest}")
}

/// Whether this is what is written of a history that is read.
pub(crate) fn is_written_as(alloc: Global, read: &[u8], wanted: &[u8]) -> bool {
    let Ok((config, steps)) = read_history(alloc, read) else {
        return false;
    };
    let mut out = Vec::new(alloc);
    let written = write_history(&config, steps.as_slice(), &mut out);
    written_is_read(&config, steps.as_slice());
    let is_same = out.as_slice() == wanted;
    drop(steps);
    drop(out);
    written.is_ok() && is_same
}

/// The same of texts of two parts.
fn are_written_as(alloc: Global, read: Text, wanted: Text) -> Result<bool, AllocError> {
    let read = joined(alloc, read)?;
    let wanted = joined(alloc, wanted)?;
    Ok(is_written_as(alloc, read.as_bytes(), wanted.as_bytes()))
}

/// Fails at the first row of which the second text isn't what is written of the first.
fn all_are_written(alloc: Global, rows: &[(Text, Text)]) -> Result<(), Fail> {
    for (number, (read, wanted)) in rows.iter().enumerate() {
        if !are_written_as(alloc, *read, *wanted)? {
            return Err(wrong_at(number));
        }
    }
    Ok(())
}

/// The first steps of a router.
const FIRST_PING: &str = "0 connect = connected 1\n0 connect = connected 2\n\
    0 admit 1 a1a1a1a1a1a1a1a1a1a1a1a1a1a1a1a100070000000000 = admitted 0\n\
    0 route 0 = routed local \
    1+a1a1a1a1a1a1a1a1a1a1a1a1a1a1a1a10101000e000000ca187f0000010500000028000000 \
    2+a1a1a1a1a1a1a1a1a1a1a1a1a1a1a1a100060100000000\nend\n";

/// Steps with each event, and each reply.
const EACH_KIND: &str = "1 connect = toomany\n2 close 1 = closed 4294967295\n3 connect = busy\n\
    4 admit 9 b2b2b2b2b2b2b2b2b2b2b2b2b2b2b2b231070002000000abcd = busy\n5 route 1 = routed away\n\
    6 route 2 = dropped unknownkind\n7 route 3 = dropped malformed\n8 route 4 = dropped duplicate\n\
    9 route 5 = dropped noroute\n10 route 6 = dropped routegone\n11 route 7 = dropped backtosender\n\
    12 route 8 = dropped expired\n\
    13 take 2 = taken a1a1a1a1a1a1a1a1a1a1a1a1a1a1a1a100060100000000\n\
    14 originate d1d1d1d1d1d1d1d1d1d1d1d1d1d1d1d100050000000000 = sent \
    1-d1d1d1d1d1d1d1d1d1d1d1d1d1d1d1d100050000000000\n\
    15 admit 1 a1a1a1a1a1a1a1a1a1a1a1a1a1a1a1a100070000000000 = crowded\nend\n";

/// Histories with what is written of them.
static WRITTEN: [(Text, Text); 4] = [
    ((HEAD, FIRST_PING), (HEAD, FIRST_PING)),
    ((HEAD, EACH_KIND), (HEAD, EACH_KIND)),
    ((HEAD, "end\n"), (HEAD, "end\n")),
    (
        (HEAD, "#\n\n00 connect = connected 01\nend\n# the end\n\n#"),
        (HEAD, "0 connect = connected 1\nend\n"),
    ),
];

#[test]
fn written_as_read(rt: HostRuntime) -> Result<(), Fail> {
    all_are_written(rt.alloc(), &WRITTEN)
}

/// Histories without steps, with what is written of them.
static VERSIONS: [(Text, Text); 5] = [
    (
        ("gnutella-history 2\nconfig 4 8 4 8 8 100 0\n", EMPTY),
        ("gnutella-history 1\nconfig 4 8 4 8 8 100\n", EMPTY),
    ),
    (
        ("gnutella-history 2\nconfig 4 8 4 8 8 100 255\n", EMPTY),
        ("gnutella-history 2\nconfig 4 8 4 8 8 100 255\n", EMPTY),
    ),
    (
        ("gnutella-history 3\nconfig 4 8 4 8 8 100 0 0\n", EMPTY),
        ("gnutella-history 1\nconfig 4 8 4 8 8 100\n", EMPTY),
    ),
    (
        ("gnutella-history 3\nconfig 4 8 4 8 8 100 4 0\n", EMPTY),
        ("gnutella-history 2\nconfig 4 8 4 8 8 100 4\n", EMPTY),
    ),
    (
        ("gnutella-history 3\nconfig 4 8 4 8 8 100 0 1\n", EMPTY),
        ("gnutella-history 3\nconfig 4 8 4 8 8 100 0 1\n", EMPTY),
    ),
];

#[test]
fn in_the_least_version(rt: HostRuntime) -> Result<(), Fail> {
    all_are_written(rt.alloc(), &VERSIONS)
}

/// Texts, and the line and the cause of the fault of each.
static FAULTS: [(Text, (u64, Cause)); 16] = [
    ((HEAD, ""), (4, Cause::End)),
    ((HEAD, "0 connect = connected 1\n#\n"), (6, Cause::End)),
    (
        (HEAD, "end\n#\n0 connect = toomany\nend\n"),
        (6, Cause::End),
    ),
    ((HEAD, "end \n"), (4, Cause::Field)),
    ((HEAD, "join\nend\n"), (4, Cause::Field)),
    ((HEAD, "0 connect = toomany \nend\n"), (4, Cause::Field)),
    ((HEAD, "0 connect connected 1\nend\n"), (4, Cause::Field)),
    ((HEAD, "0 connect  = toomany\nend\n"), (4, Cause::Field)),
    (
        (HEAD, "0 connect = connected 4294967296\nend\n"),
        (4, Cause::Field),
    ),
    ((HEAD, "0 route 0 = routed here\nend\n"), (4, Cause::Field)),
    ((HEAD, "0 route 0 = dropped busy\nend\n"), (4, Cause::Field)),
    ((HEAD, "0 take 1 = taken -\nend\n"), (4, Cause::Field)),
    (
        (
            HEAD,
            "0 take 1 = taken a1a1a1a1a1a1a1a1a1a1a1a1a1a1a1a10007000100000000\nend\n",
        ),
        (4, Cause::Field),
    ),
    (
        (
            HEAD,
            "0 take 1 = taken a1a1a1a1a1a1a1a1a1a1a1a1a1a1a1a10007000000000000\nend\n",
        ),
        (4, Cause::Field),
    ),
    (
        (
            HEAD,
            "0 route 0 = routed away 1a1a1a1a1a1a1a1a1a1a1a1a1a1a1a1a100060100000000\nend\n",
        ),
        (4, Cause::Field),
    ),
    (("gnutella-capture 1\n", ""), (1, Cause::Header)),
];

/// The line and the cause of the fault of a text.
fn fault(alloc: Global, text: Text) -> Result<Option<(u64, Cause)>, AllocError> {
    let text = joined(alloc, text)?;
    let refusal = read_history(alloc, text.as_bytes()).err();
    drop(text);
    Ok(match refusal {
        Some(CaptureRefusal::Fault(fault)) => Some((fault.line, fault.cause)),
        _ => None,
    })
}

/// Fails at the first row that isn't as it says.
fn are_faults(alloc: Global) -> Result<(), Fail> {
    for (number, (text, wanted)) in FAULTS.iter().enumerate() {
        if fault(alloc, *text)? != Some(*wanted) {
            return Err(wrong_at(number));
        }
    }
    Ok(())
}

#[test]
fn faults(rt: HostRuntime) -> Result<(), Fail> {
    read_is_encoded();
    are_faults(rt.alloc())
}
