//! Texts compared, and rows that are not as they say.

use std::process::Abort;
use std::test::Fail;

/// Ends the test where two texts differ, and says the one that was found.
pub(crate) fn same<R: Abort>(rt: &R, name: &str, found: &[u8], wanted: &[u8]) {
    let known = str::from_utf8(found).unwrap_or("no text");
    assert!(rt; found == wanted, "{name}: {known}");
}

/// What a test fails with whose row of this number, from 0, or whose number isn't as it says.
pub(crate) fn wrong_at(number: usize) -> Fail {
    Fail::new(format_args!("wrong at {number}"))
}
