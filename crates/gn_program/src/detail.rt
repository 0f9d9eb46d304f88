//! What is wrong with the first lines of a text, on the line below the fault's.

use crate::head::Head;
use crate::text::write_text;
use gn_io::Sink;
use gn_rules::Numbers;
use gn_text::{NumberedLines, Text, fields, is_word, number};
use std::alloc::Global;
use std::fmt::{Display, Formatter, Write};
use std::{fmt, str};

/// As many bytes of a field are shown at most.
const SHOWN: usize = 20;

/// What a command reads.
#[derive(Clone, Copy)]
pub(crate) struct Reading {
    pub command: &'static str,
    pub text: Text,
}

/// A number of a text's first lines, and what it may be.
#[derive(Clone, Copy)]
struct Bound {
    name: &'static str,
    least: u32,
    most: u32,
}

impl Bound {
    /// Whether the field says a number within the bounds.
    fn holds(&self, field: &[u8]) -> bool {
        match number(field) {
            Some(number) => self.least <= number && number <= self.most,
            None => false,
        }
    }
}

/// What is wrong. Its text is its line, with the line feed.
#[derive(Clone, Copy)]
enum Detail<'t> {
    /// Nothing more than the fault says.
    Nothing,
    /// The text is the other one of the two.
    Other(Reading),
    /// A line of this word has to have so many of these after it.
    Many {
        word: &'static str,
        wanted: usize,
        these: &'static str,
        got: usize,
    },
    /// The number at this place, counted from 1, of so many of these isn't within its bound.
    Out {
        at: usize,
        of: usize,
        these: &'static str,
        bound: Bound,
        got: &'t [u8],
    },
}

/// A number with a comma before each three digits.
#[derive(Clone, Copy)]
struct Grouped(u32);

impl Display for Grouped {
    fn fmt<W: Write>(&self, f: &mut Formatter<W>) -> fmt::Result {
        let (thousands, ones) = (self.0 / 1_000, self.0 % 1_000);
        let (millions, thousands) = (thousands / 1_000, thousands % 1_000);
        let (billions, millions) = (millions / 1_000, millions % 1_000);
        match (billions, millions, thousands) {
            (0, 0, 0) => write!(f, "{ones}"),
            (0, 0, _) => write!(f, "{thousands},{ones:03}"),
            (0, _, _) => write!(f, "{millions},{thousands:03},{ones:03}"),
            _ => write!(f, "{billions},{millions:03},{thousands:03},{ones:03}"),
        }
    }
}

impl Display for Bound {
    fn fmt<W: Write>(&self, f: &mut Formatter<W>) -> fmt::Result {
        let (least, most) = (Grouped(self.least), Grouped(self.most));
        write!(f, "{} is {least} to {most}", self.name)
    }
}

/// A field as an operator may see it: none, where it is long or has other bytes than letters, digits and signs.
fn shown(field: &[u8]) -> Option<&str> {
    if field.is_empty()
        || field.len() > SHOWN
        || !field.iter().all(|byte| byte.is_ascii_graphic())
    {
        return None;
    }
    str::from_utf8(field).ok()
}

/// The command that reads the other text, and what the two are.
fn other_of(text: Text) -> (&'static str, &'static str, &'static str) {
    match text {
        Text::Capture => ("a history", "a capture", "audit"),
        Text::History => ("a capture", "a history", "replay"),
    }
}

impl Display for Detail<'_> {
    fn fmt<W: Write>(&self, f: &mut Formatter<W>) -> fmt::Result {
        match self {
            Detail::Nothing => Ok(()),
            Detail::Other(Reading { command, text }) => {
                let (found, read, other) = other_of(*text);
                writeln!(
                    f,
                    "this is {found}; gn {command} reads {read}: see gn {other}"
                )
            }
            Detail::Many {
                word,
                wanted,
                these,
                got,
            } => writeln!(f, "{word} has {wanted} {these}, got {got}"),
            Detail::Out {
                at,
                of,
                these,
                bound,
                got,
            } => {
                write!(f, "at {at} of {of} {these}: {bound}")?;
                match shown(got) {
                    Some(got) => writeln!(f, ", got {got}"),
                    None => f.write_str("\n"),
                }
            }
        }
    }
}

/// The numbers of a `config` line of the last version, in their order.
static CONFIG_BOUNDS: [Bound; 8] = [
    Bound {
        name: "NEIGHBOURS",
        least: 1,
        most: Numbers::MOST.neighbours,
    },
    Bound {
        name: "SEEN",
        least: 1,
        most: Numbers::MOST.seen,
    },
    Bound {
        name: "SERVENTS",
        least: 1,
        most: Numbers::MOST.servents,
    },
    Bound {
        name: "STAGE",
        least: 1,
        most: Numbers::MOST.stage,
    },
    Bound {
        name: "OUT",
        least: 1,
        most: Numbers::MOST.out,
    },
    Bound {
        name: "STEPS",
        least: 1,
        most: Numbers::MOST.steps,
    },
    Bound {
        name: "LIFE",
        least: 0,
        most: Numbers::MOST.life as u32,
    },
    Bound {
        name: "CROWD",
        least: 0,
        most: Numbers::MOST.crowd,
    },
];

/// The numbers of an `own` line, in their order.
static OWN_BOUNDS: [Bound; 3] = [
    Bound {
        name: "PORT",
        least: 0,
        most: 65_535,
    },
    Bound {
        name: "FILES",
        least: 0,
        most: u32::MAX,
    },
    Bound {
        name: "KBYTES",
        least: 0,
        most: u32::MAX,
    },
];

/// The first of these fields that isn't within its bound; so many stand before them.
fn first_out<'t>(
    found: &[&'t [u8]],
    bounds: &[Bound],
    before: usize,
    these: &'static str,
) -> Option<Detail<'t>> {
    let of = before.saturating_add(found.len());
    for (at, (field, bound)) in found.iter().zip(bounds).enumerate() {
        if !bound.holds(field) {
            return Some(Detail::Out {
                at: before.saturating_add(at).saturating_add(1),
                of,
                these,
                bound: *bound,
                got: field,
            });
        }
    }
    None
}

/// How many numbers a `config` line has below this title of a text; `None`: it is no title of it.
fn numbers_below(text: Text, title: &[u8]) -> Option<usize> {
    let name = match text {
        Text::Capture => b"gnutella-capture ",
        Text::History => b"gnutella-history ",
    };
    match title.strip_prefix(name) {
        Some(b"1") => Some(6),
        Some(b"2") => Some(7),
        Some(b"3") => Some(8),
        Some(b"5") if text == Text::Capture => Some(8),
        _ => None,
    }
}

/// What is wrong with a `config` line that has to have so many numbers.
fn of_config<'t>(wanted: usize, found: &[&'t [u8]]) -> Option<Detail<'t>> {
    let [word, numbers @ ..] = found else {
        return Some(Detail::Nothing);
    };
    if !is_word(word, b"config") {
        return Some(Detail::Nothing);
    }
    if numbers.len() != wanted {
        return Some(Detail::Many {
            word: "config",
            wanted,
            these: "numbers",
            got: numbers.len(),
        });
    }
    first_out(numbers, &CONFIG_BOUNDS, 0, "numbers")
}

/// What is wrong with an `own` line.
fn of_own<'t>(found: &[&'t [u8]]) -> Option<Detail<'t>> {
    match found {
        [word, known @ ..] if is_word(word, b"own") => match known {
            [_, _, numbers @ ..] if numbers.len() == 3 => {
                first_out(numbers, &OWN_BOUNDS, 2, "fields")
            }
            _ => Some(Detail::Many {
                word: "own",
                wanted: 5,
                these: "fields",
                got: known.len(),
            }),
        },
        _ => None,
    }
}

/// The text that isn't this one.
fn other(text: Text) -> Text {
    match text {
        Text::Capture => Text::History,
        Text::History => Text::Capture,
    }
}

/// What is wrong with a text that begins with these lines: the first thing of which more is known.
fn detail_of<'t>(alloc: Global, reading: Reading, lines: &'t [u8]) -> Option<Detail<'t>> {
    let mut lines = NumberedLines::of(lines);
    let (_, title) = lines.next_line().ok()?;
    if numbers_below(other(reading.text), title).is_some() {
        return Some(Detail::Other(reading));
    }
    let wanted = numbers_below(reading.text, title)?;
    let (_, config) = lines.next_line().ok()?;
    let found = fields(alloc, config).ok()?;
    let wrong = of_config(wanted, &found);
    drop(found);
    if wrong.is_some() {
        return wrong;
    }
    let (_, own) = lines.next_line().ok()?;
    let found = fields(alloc, own).ok()?;
    of_own(&found)
}

/// Writes what is wrong with the first lines of what a command read that ended so, where more is known of it than the fault says.
pub(crate) fn write_detail<F: Sink>(
    faults: &mut F,
    alloc: Global,
    reading: Option<Reading>,
    head: &Head,
    status: u8,
) {
    let (Some(reading), 1) = (reading, status) else {
        return;
    };
    let (bytes, whole) = head.lines();
    if let Some(lines) = bytes.get(..whole)
        && let Some(detail) = detail_of(alloc, reading, lines)
    {
        let _ = write_text(faults, detail);
    }
}
