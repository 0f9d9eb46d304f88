//! How many callers a serve takes.

ghost use Rattle.std.specs.Prelude.{◌≡◌, codes, false};
ghost use Rattle.std.specs.Option.{option_map_or};
ghost use Rattle.std.specs.Str.{bytes_eq};
ghost use Rattle.clap.specs.Words.{found_of, rows_of};
ghost use Rattle.gn_words.specs.ConfigTexts.{callers_text};
ghost use Rattle.gn_words.specs.Options.{IsReadAs, accept_of};

use crate::numbers::{NumberOption, asked};
use crate::unread::Unread;
use crate::value::Value;
use clap::ArgMatches;
use gn_text::push_number;
use std::alloc::AllocError;

/// What `--accept` takes beside `any`.
const ACCEPT: NumberOption = NumberOption {
    name: "accept",
    least: 0,
    most: 128,
    mistake: "--accept takes a number of 0 to 128, or any",
};

/// Whether a text says that any number of callers is taken.
fn is_any(text: Option<&str>) -> bool
    ensures { result ≡ option_map_or (λ s. bytes_eq s.now (codes "any")) text.entry false }
{
    match text {
        Some("any") => true,
        _ => false,
    }
}

/// How many callers `--accept` asks for; `None`: any number of them.
pub fn accept_of(options: &ArgMatches<'_>) -> Result<Option<u32>, Unread>
    ensures { IsReadAs (λ accept. accept) (accept_of (rows_of (found_of options.now))) result }
{
    if is_any(options.get_str("accept")) {
        return Ok(None);
    }
    match asked(options, &ACCEPT) {
        Ok(accept) => Ok(Some(accept)),
        Err(unread) => Err(unread),
    }
}

/// How many callers are taken, as it is printed.
#[derive(Clone, Copy)]
pub(crate) struct Callers(pub(crate) Option<u32>);

impl Value for Callers {
    ghost text = { λ callers. callers_text callers.0 };

    fn push(&self, out: &mut Vec<u8>) -> Result<(), AllocError> {
        match self.0 {
            Some(accept) => push_number(out, accept),
            None => out.extend_from_slice(b"any"),
        }
    }
}
