//! The titles of captures and histories, one for each version: the names of both.

ghost use Rattle.std.specs.Prelude.{◌≡◌};
ghost use Rattle.gn_numbers.specs.Names.{title_of, version_of};

use crate::named::named;
use crate::version::Version;

/// What a text is.
#[derive(Clone, Copy, Debug, PartialEq, Eq)]
pub enum Text {
    Capture,
    History,
}

/// The first line of a text.
pub fn title(text: Text, version: Version) -> &'static str
    ensures { result.now ≡ title_of text version }
{
    match (text, version) {
        (Text::Capture, Version::First) => "gnutella-capture 1",
        (Text::Capture, Version::Second) => "gnutella-capture 2",
        (Text::Capture, Version::Third) => "gnutella-capture 3",
        (Text::History, Version::First) => "gnutella-history 1",
        (Text::History, Version::Second) => "gnutella-history 2",
        (Text::History, Version::Third) => "gnutella-history 3",
    }
}

/// The version whose title the line is.
pub fn read_version(text: Text, line: &[u8]) -> Option<Version>
    ensures { result ≡ version_of text line.now }
{
    named(
        &[
            (title(text, Version::First), Version::First),
            (title(text, Version::Second), Version::Second),
            (title(text, Version::Third), Version::Third),
        ],
        line,
    )
}
