//! Texts of runs, written out in full.
//!
//! A run's text is short for the text of a file: lines stand apart by `; `, and what stands between `<` and `>` is the hex
//! of a descriptor or an ID: `<PING a1 07 00>` is a Ping whose ID is 16 times a1, its TTL 07 and its Hops 00, and `<a1>` is
//! that ID.

use std::alloc::{AllocError, Global};

/// What each kind of descriptor is written as, and first an ID alone. `P` stands for 16 times the first field after the
/// kind, `Q` for 16 times the second, `q`, `r` and `s` for the second, the third and the fourth, and each digit for
/// itself.
static FORMS: [(&str, &str); 8] = [
    ("", "P"),
    ("PING", "P00qr00000000"),
    ("PONG", "P01qr0e00000001007f0000020100000002000000"),
    ("OWN", "P01q000e000000ca187f0000010500000028000000"),
    ("QUERY", "P80qr0400000000007800"),
    ("HIT", "P81rs1b00000000ca187f0000021c000000Q"),
    (
        "TWO",
        "P81rs3600000002ca187f0000021c000000\
        010000000a000000610000\
        020000001400000062007a00\
        4c494d45Q",
    ),
    ("PUSH", "P40rs1a000000Q010000007f000001ca18"),
];

/// What a kind is written as. No kind is that of an ID alone.
fn form_of(kind: &str) -> &'static str {
    for (name, form) in &FORMS {
        if *name == kind {
            return *form;
        }
    }
    ""
}

/// Appends the hex of a letter of a form, of these fields of two digits each, a space apart.
fn push_part(text: &mut String, fields: &str, letter: char) -> Result<(), AllocError> {
    let (times, start) = match letter {
        'P' => (16, 0),
        'Q' => (16, 3),
        'q' => (1, 3),
        'r' => (1, 6),
        's' => (1, 9),
        digit => return text.push(digit),
    };
    let field = fields.get(start..start + 2).unwrap_or("");
    for _ in 0..times {
        text.push_str(field)?;
    }
    Ok(())
}

/// The hex of what short words stand for: an ID, or a descriptor by its kind, its ID and more fields.
fn push_encoded(text: &mut String, words: &str) -> Result<(), AllocError> {
    let (kind, fields) = words.split_once(' ').unwrap_or(("", words));
    for letter in form_of(kind).chars() {
        push_part(text, fields, letter)?;
    }
    Ok(())
}

/// Appends a line of a run, with what stands in angle brackets encoded.
fn push_line(text: &mut String, line: &str) -> Result<(), AllocError> {
    let mut is_short = false;
    for piece in line.split(['<', '>']) {
        let pushed = if is_short {
            push_encoded(text, piece)
        } else {
            text.push_str(piece)
        };
        pushed?;
        is_short = !is_short;
    }
    text.push('\n')
}

/// The text that a short one stands for.
pub(crate) fn encoded(alloc: Global, short: &str) -> Result<String, AllocError> {
    let mut text = String::new(alloc);
    for line in short.split_terminator("; ") {
        push_line(&mut text, line)?;
    }
    Ok(text)
}
