//! Who a router is.

ghost use Rattle.std.specs.Prelude.{◌≡◌, option_and_then};
ghost use Rattle.clap.specs.Words.{found_of, rows_of};
ghost use Rattle.gn_words.specs.ConfigTexts.{servent_text};
ghost use Rattle.gn_words.specs.Options.{IsReadAs, servent_in, servent_of};

use crate::unread::Unread;
use crate::value::Value;
use clap::ArgMatches;
use gn_text::{guid, push_hex};
use gn_wire::Guid;
use std::alloc::AllocError;

/// Who a router is.
#[derive(Clone, Copy)]
pub enum Servent {
    /// The servent of this ID.
    Given(Guid),
    /// One whose ID is drawn at random at its start.
    Random,
}

/// The servent that a text says: a random one, or one of this ID.
fn servent_in(text: &str) -> Option<Servent>
    ensures { result ≡ servent_in text.now }
{
    match text {
        "random" => Some(Servent::Random),
        _ => Some(Servent::Given(guid(text.as_bytes())?)),
    }
}

/// The servent that a text says, where there is one.
fn servent_named(text: Option<&str>) -> Option<Servent>
    ensures { result ≡ option_and_then (λ s. servent_in s.now) text.entry }
{
    servent_in(text?)
}

/// The servent that `--servent` asks for.
pub fn servent_of(options: &ArgMatches<'_>) -> Result<Servent, Unread>
    ensures { IsReadAs (λ servent. servent) (servent_of (rows_of (found_of options.now))) result }
{
    match servent_named(options.get_str("servent")) {
        Some(servent) => Ok(servent),
        None => Err(Unread::Mistake("--servent takes 32 hex digits, or random")),
    }
}

impl Value for Servent {
    ghost text = { servent_text };

    fn push(&self, out: &mut Vec<u8>) -> Result<(), AllocError> {
        match *self {
            Servent::Given(id) => push_hex(out, &id.0),
            Servent::Random => out.extend_from_slice(b"random"),
        }
    }
}
