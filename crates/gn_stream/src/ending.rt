//! How the lines of a text end.

ghost use Rattle.std.specs.Prelude.{◌≡◌};
ghost use Rattle.gn_stream.specs.Unfinished.{ending_after};

use gn_text::is_word;

/// How the lines of a text end that are read.
#[derive(Clone, Copy)]
pub(crate) enum Ending {
    /// As they stand.
    Own,
    /// With the line `end`, which wasn't read yet.
    Due,
    /// With the line `end`, which was read.
    Stands,
    /// With the line `end`, which the text lacks.
    Added,
}

impl Ending {
    /// What is due after a line.
    pub(crate) fn after(self, line: &[u8]) -> Ending
        ensures { result ≡ ending_after self line.now }
    {
        match self {
            Ending::Due if is_word(line, b"end") => Ending::Stands,
            other => other,
        }
    }
}
