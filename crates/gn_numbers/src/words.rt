//! The words that lines of a capture begin with.

ghost use Rattle.std.specs.Prelude.{◌≡◌};
ghost use Rattle.gn_numbers.specs.Names.{line_word_named};

use crate::named::named;

/// The word that a line of a capture begins with.
#[derive(Clone, Copy, Debug)]
pub enum LineWord {
    Join,
    Open,
    Data,
    Route,
    Take,
    Close,
    Ping,
    Query,
    Stats,
}

/// The word that a field is.
pub fn line_word_named(field: &[u8]) -> Option<LineWord>
    ensures { result ≡ line_word_named field.now }
{
    // those that most lines begin with stand first
    named(
        &[
            ("take", LineWord::Take),
            ("data", LineWord::Data),
            ("route", LineWord::Route),
            ("join", LineWord::Join),
            ("open", LineWord::Open),
            ("close", LineWord::Close),
            ("ping", LineWord::Ping),
            ("query", LineWord::Query),
            ("stats", LineWord::Stats),
        ],
        field,
    )
}
