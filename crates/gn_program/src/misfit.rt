//! Why a serve can't go on with a history.

use crate::fault::Fault;
use std::fmt;
use std::fmt::{Display, Formatter, Write};

/// Why a serve can't go on with a history. Its text is its lines, each with its line feed.
#[derive(Clone, Copy)]
pub(crate) enum Misfit {
    /// It can't be read.
    Unread(Fault),
    /// The line of this number has no line feed; those before it have so many bytes.
    Cut { line: u64, whole: u64 },
    /// It has its line `end`.
    Ended,
    /// It is the history of a router of other options.
    OtherOptions,
    /// The rules give another reply than the line of this number.
    Wrong(u64),
}

impl Display for Misfit {
    fn fmt<W: Write>(&self, f: &mut Formatter<W>) -> fmt::Result {
        match self {
            Misfit::Unread(fault) => write!(f, "{fault}"),
            Misfit::Cut { line, whole } => {
                writeln!(
                    f,
                    "fault: line {line}: cut\ninput: the lines before have {whole} bytes"
                )
            }
            Misfit::Ended => f.write_str("fault: history ended\n"),
            Misfit::OtherOptions => f.write_str("fault: other options\n"),
            Misfit::Wrong(line) => writeln!(f, "fault: line {line}: wrong"),
        }
    }
}
