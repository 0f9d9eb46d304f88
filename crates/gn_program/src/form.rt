//! The form of a command.

ghost use Rattle.std.specs.Prelude.{◌≡◌, ℕ, List, Option, IfOk, false};
ghost use Rattle.std.specs.declared.alloc.Global.{Global as Heap};
ghost use Rattle.clap.specs.Words.{App, Row, app_of, found_of, rows_of};
ghost use Rattle.clap.specs.declared.builder.command.Command.TheViews.{out-Command as fields_of};
ghost use Rattle.gn_io.specs.Streams.{Streams};
ghost use Rattle.gn_service.specs.Ran.{Remembered};
ghost use Rattle.gn_words.specs.Options.{IsReadAs};

use clap::ArgMatches;
use gn_words::Unread;
use std::alloc::{AllocError, Global};

/// A command. The type is what its options ask for. What it does is done by a function `run` of the type, which takes what this command
/// needs alone.
pub(crate) trait Command: Drop {
    /// The rules by which clap reads its options.
    ghost app: { App };

    /// What options ask for.
    ghost asked: { List Row → Option Self };

    /// What is done of it: how the streams and the status are left, and what is remembered of the run of a serve.
    ghost does: { Self → Streams → ℕ → Option (Remembered Heap) → Type 0 };

    /// Its page, as clap takes it.
    fn page<'a>(alloc: Global) -> Result<clap::Command<'a>, AllocError>
        ensures shape { IfOk result (λ command. app_of command ≡ app) }
        ensures globals { IfOk result (λ command. (fields_of command).has_globals ≡ false) };

    /// What these options ask for; a mistake, where a value isn't within its limits, or they aren't taken together.
    fn read(alloc: Global, options: &ArgMatches<'_>) -> Result<Self, Unread>
        ensures { IsReadAs (λ r. r) (asked (rows_of (found_of options.now))) result };
}
