//! The command `audit`: its words and help, what they ask for, and what it does.

ghost use Rattle.gn_io.specs.Streams.{streams};
ghost use Rattle.gn_program.specs.Audit.{Audits, audit_app, audit_asked};

use crate::answer::end;
use crate::form::Command;
use clap::ArgMatches;
use gn_io::{Sink, Source};
use gn_rules::FreshRouter;
use gn_words::{Group, OptionRow, Page, Takes, Unread, command_of, is_set};
use std::alloc::{AllocError, Global};

/// How a history is audited.
#[derive(Clone, Copy)]
pub enum Audit {
    /// Its verdict is written.
    Verdict,
    /// The same, and its first wrong step is explained.
    Explained,
    /// It may have been cut.
    Unfinished,
}

/// What it takes.
const OPTIONS: [OptionRow; 2] = [
    OptionRow {
        name: "explain",
        letter: None,
        takes: Takes::Nothing,
        help: "Prints also the line of the first wrong step, and what the rules answer there",
    },
    OptionRow {
        name: "unfinished",
        letter: None,
        takes: Takes::Nothing,
        help: "\
Takes a history that was cut, as by a kill: what stands after its last
line feed isn't looked at, and the line `end` may be missing",
    },
];

/// What help says of it, and what it takes.
static HELP: Page = Page {
    name: "audit",
    about: "Reads a history, and says whether each answer in it is right",
    usage: "gn audit [--explain | --unfinished] < HISTORY   (the history is read from standard input)",
    texts: "\
Standard input is a history: a router's configuration, and each event with its answer.
Standard output is `legal` and the number of steps, or `wrong` and the index, counted from 0, of
the first step whose answer isn't the one that the rules give. With `--explain` two lines follow
`wrong`: `line NUMBER: TEXT`, the step's line in the history, and `rules: TEXT`, what the rules
answer there, or `refused` and why. With `--unfinished` the history may have been cut: where it
lacks the line `end`, the verdict is that on its whole lines, with `unfinished` after it.

Example:

  gnutella-history 1
  config 4 8 4 8 8 100
  own eeeeeeeeeeeeeeeeeeeeeeeeeeeeeeee 127.0.0.1 6346 5 40
  0 connect = connected 1
  end

prints

  legal 1",
    groups: &[Group {
        heading: None,
        rows: &OPTIONS,
    }],
};

impl Command for Audit {
    ghost app = { audit_app };

    ghost asked = { audit_asked };

    ghost does = { λ audit s status remembered. Audits audit s status };

    fn page<'a>(alloc: Global) -> Result<clap::Command<'a>, AllocError> {
        command_of(alloc, &HELP)
    }

    fn read(_alloc: Global, options: &ArgMatches<'_>) -> Result<Self, Unread> {
        match (is_set(options, "explain"), is_set(options, "unfinished")) {
            (false, false) => Ok(Audit::Verdict),
            (true, false) => Ok(Audit::Explained),
            (false, true) => Ok(Audit::Unfinished),
            (true, true) => Err(Unread::Mistake(
                "--explain and --unfinished aren't taken together",
            )),
        }
    }
}

impl Audit {
    /// Audits a history, and gives the status.
    pub(crate) fn run<C: FreshRouter<Global> + Drop, S: Source, W: Sink, F: Sink>(
        &self,
        alloc: Global,
        reader: &mut S,
        writer: &mut W,
        faults: &mut F,
    ) -> u8
        ensures { Audits self.now
            (streams (S.state reader.old) (S.state reader.new) (W.state writer.old) (W.state writer.new)) result }
    {
        match self {
            Audit::Verdict => {
                let answer = gn_replay::audit::<Global, C, S, W>(alloc, reader, writer);
                end(faults, answer)
            }
            Audit::Explained => {
                let answer = gn_replay::audit_explained::<Global, C, S, W>(alloc, reader, writer);
                end(faults, answer)
            }
            Audit::Unfinished => {
                let answer = gn_replay::audit_unfinished::<Global, C, S, W>(alloc, reader, writer);
                end(faults, answer)
            }
        }
    }
}
