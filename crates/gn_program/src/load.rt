//! The command `load`: its words and help, what they ask for, and what it does.

ghost use Rattle.gn_io.specs.Streams.{streams};
ghost use Rattle.gn_program.specs.Load.{Loads, load_app, load_asked};

use crate::answer::end;
use crate::form::Command;
use crate::serves::batch_of;
use crate::unwatched::Unwatched;
use crate::workers::{WORKERS, WORKERS_ROW};
use clap::ArgMatches;
use gn_io::{Sink, Source};
use gn_links::Watch;
use gn_load::{Loading, load_journalled};
use gn_words::{Group, OptionRow, Page, Takes, Unread, asked, command_of, is_set};
use std::alloc::{AllocError, Global};
use std::sync::Wait;
use std::thread::Threads;

/// The links of a capture are run, and the history of the router is written.
#[derive(Clone, Copy)]
pub struct Load {
    /// How many workers route, 1 to 64.
    pub workers: u32,
    /// Whether it is said how far the run is, as it goes on.
    pub says_progress: bool,
}

/// How many packets a load writes to a link at once at most.
const BATCH: u32 = 64;

/// What it takes.
const OPTIONS: [OptionRow; 2] = [
    WORKERS_ROW,
    OptionRow {
        name: "progress",
        letter: None,
        takes: Takes::Nothing,
        help: "Says on standard error once a second how many are routed and how many admitted",
    },
];

/// What help says of it, and what it takes.
static HELP: Page = Page {
    name: "load",
    about: "Runs the links of a capture with many threads, and prints the history",
    usage: "gn load --workers V [--progress] < CAPTURE   (the capture is read from standard input)",
    texts: "\
Standard input is a capture of `join`, `open` and `data LINK HEX` lines alone. Each link is read by
a thread of its own and written by another, and V workers route what the readers admitted. Standard
output is the history of the router, which `gn audit` reads. Threads take turns as they come, so
that two runs may have different histories; each is legal.

Example:

  gn load --workers 4 < examples/six_links.capture | gn audit",
    groups: &[Group {
        heading: None,
        rows: &OPTIONS,
    }],
};

impl Command for Load {
    ghost app = { load_app };

    ghost asked = { load_asked };

    ghost does = { λ load s status remembered. Loads load s status };

    fn page<'a>(alloc: Global) -> Result<clap::Command<'a>, AllocError> {
        command_of(alloc, &HELP)
    }

    fn read(_alloc: Global, options: &ArgMatches<'_>) -> Result<Self, Unread> {
        let workers = asked(options, &WORKERS)?;
        Ok(Load {
            workers,
            says_progress: is_set(options, "progress"),
        })
    }
}

impl Load {
    /// Runs the links under this watch, and gives the status.
    fn run_under<R: Threads + Wait + Sync, G: Watch + Sync, S: Source, W: Sink + Send, F: Sink>(
        &self,
        rt: &R,
        alloc: Global,
        watch: &G,
        reader: &mut S,
        writer: &mut W,
        faults: &mut F,
    ) -> u8
        ensures { Loads self.now
            (streams (S.state reader.old) (S.state reader.new) (W.state writer.old) (W.state writer.new)) result }
    {
        let loading = Loading {
            workers: self.workers,
            watch,
            batch: batch_of(BATCH),
        };
        let answer = load_journalled(rt, alloc, &loading, reader, writer);
        end(faults, answer)
    }

    /// Does a load, and gives the status.
    pub(crate) fn run<
        R: Threads + Wait + Sync,
        G: Watch + Sync,
        S: Source,
        W: Sink + Send,
        F: Sink,
    >(&self, rt: &R, alloc: Global, watch: &G, reader: &mut S, writer: &mut W, faults: &mut F) -> u8
        ensures { Loads self.now
            (streams (S.state reader.old) (S.state reader.new) (W.state writer.old) (W.state writer.new)) result }
    {
        if self.says_progress {
            return self.run_under(rt, alloc, watch, reader, writer, faults);
        }
        let unwatched = Unwatched {
            watch,
            tells_floods: false,
        };
        self.run_under(rt, alloc, &unwatched, reader, writer, faults)
    }
}
