//! The command `show`: its words and help, what they ask for, and what it does.

ghost use Rattle.gn_io.specs.Streams.{streams};
ghost use Rattle.gn_program.specs.Show.{Shows, show_app, show_asked};

use crate::answer::end;
use crate::form::Command;
use clap::ArgMatches;
use gn_io::{Sink, Source};
use gn_show::{Form, View};
use gn_words::{Group, OptionRow, Page, Takes, Unread, command_of, is_set};
use std::alloc::{AllocError, Global};

/// A history is shown.
#[derive(Clone, Copy)]
pub struct Show {
    /// What of it: its steps, or its counters.
    pub view: View,
}

/// What it takes.
const OPTIONS: [OptionRow; 3] = [
    OptionRow {
        name: "csv",
        letter: None,
        takes: Takes::Nothing,
        help: "Prints a row of comma-separated fields for each packet, under the columns' names",
    },
    OptionRow {
        name: "json",
        letter: None,
        takes: Takes::Nothing,
        help: "Prints each step as a JSON object on a line of its own",
    },
    OptionRow {
        name: "stats",
        letter: None,
        takes: Takes::Nothing,
        help: "Prints the line of the counters, as `stats` in a capture does",
    },
];

/// What help says of it, and what it takes.
static HELP: Page = Page {
    name: "show",
    about: "Reads a history, and prints each step in plain words or as JSON",
    usage: "gn show [--json | --csv | --stats] < HISTORY   (the history is read from standard input)",
    texts: "\
Standard input is a history, which need not be legal. Standard output is a line for each step: its
index, its actor, its event and its answer, with the payloads read, as soon as the step is read. The
history may have any length. At its first fault, which is a line on standard error, showing ends.

Example: the third and fourth step of examples/first_ping.history, the last one cut.

      2  actor   0  from 1: Ping 7/0 a1a1a1a1..       admitted as #0
      3  actor   0  routes #0                         routed here; to 1: Pong 1/0 a1a1a1a1.. ..",
    groups: &[Group {
        heading: None,
        rows: &OPTIONS,
    }],
};

impl Command for Show {
    ghost app = { show_app };

    ghost asked = { show_asked };

    ghost does = { λ show s status remembered. Shows show s status };

    fn page<'a>(alloc: Global) -> Result<clap::Command<'a>, AllocError> {
        command_of(alloc, &HELP)
    }

    fn read(_alloc: Global, options: &ArgMatches<'_>) -> Result<Self, Unread> {
        let asked = (
            is_set(options, "csv"),
            is_set(options, "json"),
            is_set(options, "stats"),
        );
        let view = match asked {
            (false, false, false) => View::Steps(Form::Plain),
            (true, false, false) => View::Steps(Form::Rows),
            (false, true, false) => View::Steps(Form::Json),
            (false, false, true) => View::Stats,
            (false, true, true) => {
                return Err(Unread::Mistake("--json and --stats aren't taken together"));
            }
            (true, _, _) => {
                return Err(Unread::Mistake("--csv is taken without --json and --stats"));
            }
        };
        Ok(Show { view })
    }
}

impl Show {
    /// Shows a history, and gives the status.
    pub(crate) fn run<S: Source, W: Sink, F: Sink>(
        &self,
        alloc: Global,
        reader: &mut S,
        writer: &mut W,
        faults: &mut F,
    ) -> u8
        ensures { Shows self.now
            (streams (S.state reader.old) (S.state reader.new) (W.state writer.old) (W.state writer.new)) result }
    {
        let answer = gn_show::show(alloc, self.view, reader, writer);
        end(faults, answer)
    }
}
