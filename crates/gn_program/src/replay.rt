//! The command `replay`: its words and help, what they ask for, and what it does.

ghost use Rattle.gn_io.specs.Streams.{streams};
ghost use Rattle.gn_program.specs.Replay.{Replays, replay_app, replay_asked};

use crate::answer::end;
use crate::form::Command;
use clap::ArgMatches;
use gn_io::{Sink, Source};
use gn_rules::FreshRouter;
use gn_words::{Group, OptionRow, Page, Takes, Unread, command_of, is_set};
use std::alloc::{AllocError, Global};

/// What a replay prints.
#[derive(Clone, Copy)]
pub enum Replay {
    /// A line for each answer.
    Lines,
    /// The history of its router.
    History,
}

/// What it takes.
const OPTIONS: [OptionRow; 1] = [OptionRow {
    name: "history",
    letter: None,
    takes: Takes::Nothing,
    help: "Prints the history of the router instead, which `gn audit` reads",
}];

/// What help says of it, and what it takes.
static HELP: Page = Page {
    name: "replay",
    about: "Reads a capture, and prints what the router answers",
    usage: "gn replay [--history] < CAPTURE   (the capture is read from standard input)",
    texts: "\
Standard input is a capture: what links deliver to a router, and what its servent does. After
its three first lines stand `join`, `open`, `data LINK HEX`, `route TICKET`, `take CONNECTION`,
`close CONNECTION`, `ping ID TTL`, `query ID TTL SPEED HEX` and `stats`, each on a line.
Standard output is a line for each answer, or the history with `--history`. A capture with a fault
prints none, and its first fault is a line on standard error.

Example: two neighbours join, the first sends a Ping, and the Ping is routed.

  gnutella-capture 1
  config 4 8 4 8 8 100
  own eeeeeeeeeeeeeeeeeeeeeeeeeeeeeeee 127.0.0.1 6346 5 40
  join
  join
  data 1 a1a1a1a1a1a1a1a1a1a1a1a1a1a1a1a100070000000000
  route 0

prints, after the two joins and the Ping's admission,

  0 route 0 = routed local 1+.. 2+a1a1a1a1a1a1a1a1a1a1a1a1a1a1a1a100060100000000

where the first packet is the router's own Pong.",
    groups: &[Group {
        heading: None,
        rows: &OPTIONS,
    }],
};

impl Command for Replay {
    ghost app = { replay_app };

    ghost asked = { replay_asked };

    ghost does = { λ replay s status remembered. Replays replay s status };

    fn page<'a>(alloc: Global) -> Result<clap::Command<'a>, AllocError> {
        command_of(alloc, &HELP)
    }

    fn read(_alloc: Global, options: &ArgMatches<'_>) -> Result<Self, Unread> {
        if is_set(options, "history") {
            Ok(Replay::History)
        } else {
            Ok(Replay::Lines)
        }
    }
}

impl Replay {
    /// Replays a capture, and gives the status.
    #[tactic(auto, using(crate::proofs::CommandLemmas::both))]
    pub(crate) fn run<C: FreshRouter<Global> + Drop, S: Source, W: Sink, F: Sink>(
        &self,
        alloc: Global,
        reader: &mut S,
        writer: &mut W,
        faults: &mut F,
    ) -> u8
        ensures { Replays self.now
            (streams (S.state reader.old) (S.state reader.new) (W.state writer.old) (W.state writer.new)) result }
    {
        match self {
            Replay::Lines => {
                let answer = gn_replay::replay::<Global, C, S, W>(alloc, reader, writer);
                end(faults, answer)
            }
            Replay::History => {
                let answer = gn_replay::replay_history::<Global, C, S, W>(alloc, reader, writer);
                end(faults, answer)
            }
        }
    }
}
