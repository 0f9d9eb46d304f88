//! The command `serve`: its words and help, what they ask for, and what it does.

ghost use Rattle.std.specs.Prelude.{◌≡◌, ◌≤◌, IfOk};
ghost use Rattle.clap.specs.Words.{found_of, rows_of};
ghost use Rattle.gn_rules.specs.Limits.{AreWithin};
ghost use Rattle.gn_words.specs.Options.{IsReadAs, limit_of};
ghost use Rattle.gn_program.specs.Serve.{config_text, is_never_crowded, metrics_of, numbers_of, rates_of, serve_app, serving_of, shared_of, times_of};
ghost use Rattle.gn_program.specs.Serves.{HasPrinted, Serves, serve_asked};

use crate::answer::{DONE, write_fault};
use crate::fault::Fault;
use crate::form::Command;
use crate::workers::{WORKERS, WORKERS_ROW};
use clap::ArgMatches;
use gn_io::{Sink, write_all};
use gn_rules::Numbers;
use gn_words::{
    Group, NumberOption, OptionRow, Page, Peer, Retry, Said, Servent, Site, Takes, Unread,
    accept_of, asked, command_of, is_set, limit_asked, peers_of, push_rows, resumes_of, retry_of,
    retry_with, servent_of, site_of,
};
use std::alloc::{AllocError, Global};
use std::marker::Model;

/// A run over TCP, as its options ask for it.
#[derive(Drop)]
pub struct ServeOptions {
    /// The port that the router listens on.
    pub port: u16,
    /// How many peers may call; `None`: any number of them.
    pub accept: Option<u32>,
    /// How many threads route.
    pub workers: u32,
    /// Where the router is.
    pub site: Site,
    /// Who the router is.
    pub servent: Servent,
    /// How many files its own Pongs say that it shares.
    pub files: u32,
    /// How many kilobytes its own Pongs say that it shares.
    pub kilobytes: u32,
    /// The port where its counts are asked for; `None`: nowhere.
    pub metrics: Option<u16>,
    /// The peers that are called, in this order.
    pub peers: Vec<Peer>,
    /// The seconds after which a silent peer is given up; `None`: it never is.
    pub idle: Option<u32>,
    /// For how long a peer that doesn't listen is called again.
    pub retry: Retry,
    /// The seconds between two Pings of the own servent to its neighbours; `None`: it sends none.
    pub ping: Option<u32>,
    /// How many callers of one address are let in within a minute; `None`: as many as come.
    pub callers_a_minute: Option<u32>,
    /// For how many seconds a neighbour may flood the router before it is let go; `None`: for as many as it does.
    pub flood: Option<u32>,
    /// How many packets are written to a neighbour at once at most.
    pub batch: u32,
    /// The numbers of the router's rules.
    pub numbers: Numbers,
    /// The seconds after which the run is stopped; `None`: no time stops it.
    pub seconds: Option<u32>,
    /// The seconds that a run which is stopped has to end.
    pub grace: u32,
    /// Whether the run is stopped once it has made nine tenths of its steps.
    pub early: bool,
    /// Whether the run is stopped at the end of standard input.
    pub until_eof: bool,
    /// Whether it goes on with the history that standard input gives.
    pub resumes: bool,
    /// Whether `--keep-history` is given, which changes nothing.
    pub keeps: bool,
    /// Whether times stand in the history, as comments.
    pub times: bool,
    /// Whether the neighbours of its links stand there, as comments.
    pub links: bool,
    /// Whether it is written what became of each link.
    pub report: bool,
    /// Whether how far the run is is said as it goes on.
    pub progress: bool,
}

impl Model for ServeOptions {
    ghost use Rattle.std.specs.Prelude.{◌+◌, ◌<◌, ◌≤◌, length, unwrap_or};
    ghost use Rattle.gn_rules.specs.Limits.{AreWithin, IsCrew, most_links};
    ghost use Rattle.gn_program.specs.Serve.{AskedServe};

    ghost Value = { AskedServe };

    ghost view = { λ s. record {
      port = s.port;
      accept = s.accept;
      workers = s.workers;
      site = s.site;
      servent = s.servent;
      files = s.files;
      kilobytes = s.kilobytes;
      metrics = s.metrics;
      peers = s.peers.items;
      idle = s.idle;
      retry = s.retry;
      ping = s.ping;
      callers_a_minute = s.callers_a_minute;
      flood = s.flood;
      batch = s.batch;
      numbers = s.numbers;
      seconds = s.seconds;
      grace = s.grace;
      early = s.early;
      until_eof = s.until_eof;
      resumes = s.resumes;
      keeps = s.keeps;
      times = s.times;
      links = s.links;
      report = s.report;
      progress = s.progress;
    } };

    ghost invariant = { λ s. (IsCrew s.workers) × (unwrap_or s.accept 0 + length s.peers.items ≤ most_links)
        × (0 < s.batch) × AreWithin s.numbers };
}

/// What is asked for of a serve.
#[derive(Drop)]
pub enum Serve {
    /// A router is run over TCP, and its history is written.
    Run(ServeOptions),
    /// The options of such a run are written.
    Config(ServeOptions),
}

/// The own servent of a router, where none is given.
const OWN_SERVENT: &str = "47474747474747474747474747474747";

/// What has to be given, where the router is and who, and where it is counted.
const OPTIONS: [OptionRow; 9] = [
    OptionRow {
        name: "port",
        letter: None,
        takes: Takes::Value("P"),
        help: "The port that peers call, 1 to 65535",
    },
    OptionRow {
        name: "accept",
        letter: None,
        takes: Takes::Value("A"),
        help: "\
How many callers are taken in all, 0 to 128, whatever becomes of them;
or any: as many as come until it is stopped, of which as many are
connected at once as --neighbours says",
    },
    WORKERS_ROW,
    OptionRow {
        name: "bind",
        letter: None,
        takes: Takes::Usual("IP", "127.0.0.1"),
        help: "\
The IPv4 address of this machine that it listens on; 0.0.0.0: all.
Unless it begins with 127, other machines can call, --peer may name
them, and whoever calls is let in",
    },
    OptionRow {
        name: "address",
        letter: None,
        takes: Takes::Usual("IP", "0.0.0.0"),
        help: "\
The IPv4 address in its own Pongs, at which neighbours can call it: if
it begins with 127, only those on this machine can; 0.0.0.0: that of
--bind, which then mustn't be 0.0.0.0",
    },
    OptionRow {
        name: "servent",
        letter: None,
        takes: Takes::Unshown("HEX32", OWN_SERVENT),
        help: "\
The router's own servent ID, 32 hex digits, or `random` for one that is
drawn at its start; by default 47 sixteen times",
    },
    OptionRow {
        name: "files",
        letter: None,
        takes: Takes::Usual("N", "0"),
        help: "\
How many files its own Pongs say that it shares,
0 to 4294967295",
    },
    OptionRow {
        name: "kilobytes",
        letter: None,
        takes: Takes::Usual("N", "0"),
        help: "\
How many kilobytes its own Pongs say that it shares,
0 to 4294967295",
    },
    OptionRow {
        name: "metrics",
        letter: None,
        takes: Takes::Usual("PORT", "0"),
        help: "\
The port of 127.0.0.1 where Prometheus can scrape its counters, at
/metrics, 1 to 65535, not that of --port; 0: none",
    },
];

/// Whom it calls, when it gives a peer up, how often one may call, when it lets one go that floods it, and how it writes to one.
const NEIGHBOURS: [OptionRow; 7] = [
    OptionRow {
        name: "peer",
        letter: None,
        takes: Takes::Values("IP:PORT"),
        help: "\
A peer that is called, as 127.0.0.1:6347; at most 64. It has to be on
this machine, unless --bind opens the router to others",
    },
    OptionRow {
        name: "idle",
        letter: None,
        takes: Takes::Usual("SECONDS", "0"),
        help: "\
A peer that is silent, or takes nothing, for so many seconds is given
up, 0 to 86400; 0: never",
    },
    OptionRow {
        name: "retry",
        letter: None,
        takes: Takes::Usual("SECONDS", "0"),
        help: "\
A peer that doesn't listen yet is called again for so many seconds,
while the others are served, 0 to 86400; 0: it is called once; or
always, with --accept any: for as long as the router runs, also once
it has gone, which --ping finds",
    },
    OptionRow {
        name: "ping",
        letter: None,
        takes: Takes::Usual("SECONDS", "0"),
        help: "\
The router sends its neighbours a Ping with TTL 1 every so many
seconds, 0 to 86400; 0: never. One that has gone is found as a write
fails, at the second Ping, and its place is free. Only with
--accept any",
    },
    OptionRow {
        name: "callers-a-minute",
        letter: None,
        takes: Takes::Usual("N", "0"),
        help: "\
How many callers from one IP address are let in within a minute,
0 to 60000; 0: as many as come. Further ones are disconnected at
once. Only with --accept any",
    },
    OptionRow {
        name: "flood",
        letter: None,
        takes: Takes::Usual("SECONDS", "0"),
        help: "\
A peer of which --crowd refused descriptors in each of so many
seconds is disconnected, 0 to 86400; 0: never. Only with a
--crowd of 1 or more that is below --stage",
    },
    OptionRow {
        name: "batch",
        letter: None,
        takes: Takes::Usual("N", "64"),
        help: "\
How many packets are written to a neighbour at once at most, 1 to
1024; as many descriptors are admitted, and routed by a worker, at
once. A larger batch is faster. Where a write fails, up to so many
packets that were taken for that neighbour are lost",
    },
];

/// The numbers of its rules.
const RULES: [OptionRow; 8] = [
    OptionRow {
        name: "neighbours",
        letter: None,
        takes: Takes::Usual("N", "64"),
        help: "How many neighbours it has at once, 1 to 256",
    },
    OptionRow {
        name: "remembered",
        letter: None,
        takes: Takes::Usual("N", "4096"),
        help: "How many descriptors it remembers, 1 to 65536",
    },
    OptionRow {
        name: "servents",
        letter: None,
        takes: Takes::Usual("N", "1024"),
        help: "How many servents it remembers a way to, 1 to 65536",
    },
    OptionRow {
        name: "stage",
        letter: None,
        takes: Takes::Usual("N", "1024"),
        help: "How many descriptors are in flight at most, 1 to 4096",
    },
    OptionRow {
        name: "queue",
        letter: None,
        takes: Takes::Usual("N", "1024"),
        help: "How many packets wait for one neighbour at most, 1 to 4096",
    },
    OptionRow {
        name: "life",
        letter: None,
        takes: Takes::Usual("L", "7"),
        help: "\
What TTL and Hops of a descriptor that is passed on are together at most,
0 to 255; 0: no limit",
    },
    OptionRow {
        name: "crowd",
        letter: None,
        takes: Takes::Usual("Q", "256"),
        help: "\
How many descriptors of one peer may be in flight at once, 0 to 4096;
0: as many as of all",
    },
    OptionRow {
        name: "steps",
        letter: None,
        takes: Takes::Usual("N", "1000000"),
        help: "\
The most steps of the history, 1 to 4294967295; a run that needs more
ends with `fault: history full`",
    },
];

/// What stops it, how long it then has, and what it goes on with.
const END: [OptionRow; 5] = [
    OptionRow {
        name: "for",
        letter: None,
        takes: Takes::Usual("SECONDS", "0"),
        help: "\
The router stops after so many seconds: it reads no more and waits for no
caller, but writes what it owes, 0 to 86400; 0: never",
    },
    OptionRow {
        name: "grace",
        letter: None,
        takes: Takes::Usual("SECONDS", "5"),
        help: "\
How many seconds a router that stops has to write what it owes, and a peer
that is let go to take it, 0 to 3600",
    },
    OptionRow {
        name: "stop-early",
        letter: None,
        takes: Takes::Nothing,
        help: "\
Stops the router as --for does once nine tenths of its most steps are
made, with what is in flight",
    },
    OptionRow {
        name: "until-eof",
        letter: None,
        takes: Takes::Nothing,
        help: "\
Stops the router as --for does at the end of standard input, which is
read and not looked at",
    },
    OptionRow {
        name: "resume",
        letter: None,
        takes: Takes::Nothing,
        help: "\
Goes on with the history of an earlier run of these options, which
standard input gives, and writes what comes behind it. Only with
--accept any, not with --until-eof or --servent random",
    },
];

/// What is printed in and beside its history.
const OUTPUT: [OptionRow; 6] = [
    OptionRow {
        name: "keep-history",
        letter: None,
        takes: Takes::Nothing,
        help: "\
Changes nothing: what stands of the history is always printed, also
where the run stops at a fault",
    },
    OptionRow {
        name: "times",
        letter: None,
        takes: Takes::Nothing,
        help: "\
Writes comments with times into the history, once a millisecond at most: when
what stands below was written",
    },
    OptionRow {
        name: "links",
        letter: None,
        takes: Takes::Nothing,
        help: "\
Writes a comment for each link that comes into the history, with the address
of its neighbour",
    },
    OptionRow {
        name: "report",
        letter: None,
        takes: Takes::Nothing,
        help: "\
Writes on standard error what became of each link, and the counters, once
the run has ended; with --accept any, of each link as it ends",
    },
    OptionRow {
        name: "progress",
        letter: None,
        takes: Takes::Nothing,
        help: "\
Writes on standard error each link that comes or ends, once a second how
far the router is, and at a half and nine tenths of its most steps which
link offered most",
    },
    OptionRow {
        name: "print-config",
        letter: None,
        takes: Takes::Nothing,
        help: "\
Prints these options and runs no router: one a line, each with its value, as
`gn serve $(cat FILE)` takes them again",
    },
];

/// What help says of it, and what it takes.
const HELP: Page = Page {
    name: "serve",
    about: "Routes for peers over TCP, on this machine by default, and prints the history",
    usage: "gn serve --port P --accept A --workers V [--bind IP] [--address IP] [--servent HEX32]
                [--files N] [--kilobytes N] [--metrics PORT] [--peer IP:PORT].. [--idle SECONDS]
                [--retry SECONDS] [--ping SECONDS] [--callers-a-minute N] [--flood SECONDS]
                [--batch N] [--neighbours N] [--remembered N] [--servents N] [--stage N] [--queue N]
                [--life L] [--crowd Q] [--steps N] [--for SECONDS] [--grace SECONDS] [--stop-early]
                [--until-eof] [--resume] [--keep-history] [--times] [--links] [--report]
                [--progress] [--print-config]",
    texts: "\
The peers are called, and beside them A others may call: each that does is one of the A, whatever
becomes of it. No other machine can call, or is called, unless `--bind` says so. Each link is
greeted and read by a thread of its own and written by another, and V workers route what the readers
admitted. `listening PORT` on standard error says that the router can be called. Standard output is
the history of the router, which `gn audit` reads. It is written while the router runs: nothing
waits for long where little is done, and where the output is slow the router waits. A write that
fails ends the run at its next step.

A link ends as its peer closes it. Two routers that call each other and nobody else each wait for
the other's end: `--idle 2` ends a link of which nothing was heard for 2 seconds. A router waits for
its A callers without a limit. With `--accept any` it takes callers until it is stopped. It then has
places for 16 links more than `--neighbours` says, 256 at most; while all are taken, whoever calls
waits. A router whose run has failed, as by a full history, lets its peers go, and calls and waits
for nobody else. A neighbour that has closed its socket keeps its place until something is written
to it, twice: `--ping` does that. `--idle` frees the place of one that is silent.

Ctrl-C and a kill end the program at once. `gn audit --unfinished` reads what was written by then.
Three ways stop it well, with its whole history: `--for`, in so many seconds; `--until-eof`, as
standard input ends, by Ctrl-D or as the writer of a pipe ends; `--stop-early`, before its most
steps. What it owes by then is written, and after the grace it ends, whatever its neighbours do.
examples/gn.service is a unit for a service manager, with a standard input that the manager ends.
`--resume` goes on with a history that was cut: `gn serve .. --resume < FILE >> FILE`.

A run that would make more than its most steps ends there, with the fault `history full`: one
neighbour alone makes a million in a second. With `--stop-early` the router stops before, and is
done: the last tenth of the steps is for what it still has to read and to write, and more of them
where neighbours flood it. An audit and `gn show` have no limit.

Example: two routers of which the second calls the first, in whichever order they start. Both end
after 5 seconds.

  gn serve --port 6347 --accept 0 -w 4 --for 5 --peer 127.0.0.1:6346 --retry 3 > second.history &
  gn serve --port 6346 --accept 1 -w 4 --for 5 > first.history
  wait
  gn audit < first.history
  gn audit < second.history",
    groups: &[
        Group {
            heading: None,
            rows: &OPTIONS,
        },
        Group {
            heading: Some("Neighbours"),
            rows: &NEIGHBOURS,
        },
        Group {
            heading: Some("Rules"),
            rows: &RULES,
        },
        Group {
            heading: Some("End of the run"),
            rows: &END,
        },
        Group {
            heading: Some("Output"),
            rows: &OUTPUT,
        },
    ],
};

/// What `--port` takes.
static PORT: NumberOption = NumberOption {
    name: "port",
    least: 1,
    most: 65_535,
    mistake: "--port takes a number of 1 to 65535",
};

/// What `--files` takes: what four bytes hold.
static FILES: NumberOption = NumberOption {
    name: "files",
    least: 0,
    most: u32::MAX,
    mistake: "--files takes a number of 0 to 4294967295",
};

/// What `--kilobytes` takes: what four bytes hold.
static KILOBYTES: NumberOption = NumberOption {
    name: "kilobytes",
    least: 0,
    most: u32::MAX,
    mistake: "--kilobytes takes a number of 0 to 4294967295",
};

/// What `--metrics` takes.
static METRICS: NumberOption = NumberOption {
    name: "metrics",
    least: 0,
    most: 65_535,
    mistake: "--metrics takes a number of 0 to 65535",
};

/// What `--idle` takes: at most a day.
static IDLE: NumberOption = NumberOption {
    name: "idle",
    least: 0,
    most: 86_400,
    mistake: "--idle takes a number of seconds, 0 to 86400",
};

/// What `--batch` takes.
static BATCH: NumberOption = NumberOption {
    name: "batch",
    least: 1,
    most: 1024,
    mistake: "--batch takes a number of 1 to 1024",
};

/// What `--neighbours` takes.
static NEIGHBOURS_AT_ONCE: NumberOption = NumberOption {
    name: "neighbours",
    least: 1,
    most: Numbers::MOST.neighbours,
    mistake: "--neighbours takes a number of 1 to 256",
};

/// What `--remembered` takes.
static REMEMBERED: NumberOption = NumberOption {
    name: "remembered",
    least: 1,
    most: Numbers::MOST.seen,
    mistake: "--remembered takes a number of 1 to 65536",
};

/// What `--servents` takes.
static SERVENTS: NumberOption = NumberOption {
    name: "servents",
    least: 1,
    most: Numbers::MOST.servents,
    mistake: "--servents takes a number of 1 to 65536",
};

/// What `--stage` takes.
static STAGE: NumberOption = NumberOption {
    name: "stage",
    least: 1,
    most: Numbers::MOST.stage,
    mistake: "--stage takes a number of 1 to 4096",
};

/// What `--queue` takes.
static QUEUE: NumberOption = NumberOption {
    name: "queue",
    least: 1,
    most: Numbers::MOST.out,
    mistake: "--queue takes a number of 1 to 4096",
};

/// What `--life` takes: what a byte holds.
static LIFE: NumberOption = NumberOption {
    name: "life",
    least: 0,
    most: 255,
    mistake: "--life takes a number of 0 to 255",
};

/// What `--crowd` takes: as many as may be in flight.
static CROWD: NumberOption = NumberOption {
    name: "crowd",
    least: 0,
    most: Numbers::MOST.crowd,
    mistake: "--crowd takes a number of 0 to 4096",
};

/// What `--steps` takes: as many as a history may have.
static STEPS: NumberOption = NumberOption {
    name: "steps",
    least: 1,
    most: Numbers::MOST.steps,
    mistake: "--steps takes a number of 1 to 4294967295",
};

/// What `--for` takes: at most a day.
static SECONDS: NumberOption = NumberOption {
    name: "for",
    least: 0,
    most: 86_400,
    mistake: "--for takes a number of seconds, 0 to 86400",
};

/// What `--grace` takes: at most an hour.
static GRACE: NumberOption = NumberOption {
    name: "grace",
    least: 0,
    most: 3_600,
    mistake: "--grace takes a number of seconds, 0 to 3600",
};

/// What `--ping` takes: at most a day.
static PING: NumberOption = NumberOption {
    name: "ping",
    least: 0,
    most: 86_400,
    mistake: "--ping takes a number of seconds, 0 to 86400",
};

/// What `--callers-a-minute` takes: at most a thousand a second.
static CALLERS_A_MINUTE: NumberOption = NumberOption {
    name: "callers-a-minute",
    least: 0,
    most: 60_000,
    mistake: "--callers-a-minute takes a number of 0 to 60000",
};

/// What `--flood` takes: at most a day.
static FLOOD: NumberOption = NumberOption {
    name: "flood",
    least: 0,
    most: 86_400,
    mistake: "--flood takes a number of seconds, 0 to 86400",
};

/// The port that so high a number says: none, where it is 0.
fn metered_at(port: u32) -> Option<u16>
    requires { port ≤ 65535 }
    ensures { result ≡ limit_of port }
{
    if port == 0 { None } else { Some(port as u16) }
}

/// The port where the counts are asked for that `--metrics` asks for, where there is such a one. A mistake, where that is the one that peers
/// call.
fn metrics_of(options: &ArgMatches<'_>, port: u32) -> Result<Option<u16>, Unread>
    ensures { IsReadAs (λ m. m) (metrics_of port (rows_of (found_of options.now))) result }
{
    let asked = asked(options, &METRICS)?;
    if asked == port {
        return Err(Unread::Mistake("--metrics takes another port than --port"));
    }
    Ok(metered_at(asked))
}

/// The numbers of the router's rules, where each is within its limits.
fn numbers_of(options: &ArgMatches<'_>) -> Result<Numbers, Unread>
    ensures read { IsReadAs (λ n. n) (numbers_of (rows_of (found_of options.now))) result }
    ensures within { IfOk result AreWithin }
{
    let neighbours = asked(options, &NEIGHBOURS_AT_ONCE)?;
    let seen = asked(options, &REMEMBERED)?;
    let servents = asked(options, &SERVENTS)?;
    let stage = asked(options, &STAGE)?;
    let out = asked(options, &QUEUE)?;
    let life = asked(options, &LIFE)?;
    let crowd = asked(options, &CROWD)?;
    let steps = asked(options, &STEPS)?;
    Ok(Numbers {
        neighbours,
        seen,
        servents,
        stage,
        out,
        steps,
        life: life as u8,
        crowd,
    })
}

/// What the own Pongs say that the router shares, and the port where its counts are asked for.
#[derive(Clone, Copy)]
struct Shared {
    files: u32,
    kilobytes: u32,
    metrics: Option<u16>,
}

/// What the router shares, and where its counts are asked for, where each number is within its limits.
fn shared_of(options: &ArgMatches<'_>, port: u32) -> Result<Shared, Unread>
    ensures { IsReadAs (λ s. s) (shared_of port (rows_of (found_of options.now))) result }
{
    let files = asked(options, &FILES)?;
    let kilobytes = asked(options, &KILOBYTES)?;
    let metrics = metrics_of(options, port)?;
    Ok(Shared {
        files,
        kilobytes,
        metrics,
    })
}

/// Whether no neighbour meets a threshold of its own before that of all: `--crowd` is 0, or isn't below `--stage`.
fn is_never_crowded(crowd: u32, stage: u32) -> bool
    ensures { result ≡ is_never_crowded crowd stage }
{
    crowd == 0 || crowd >= stage
}

/// How many seconds are between two Pings of the own servent, where it sends any; and how many callers of one address are let in within a
/// minute, and for how many seconds a neighbour may flood the router, where these are limited.
#[derive(Clone, Copy)]
struct Rates {
    ping: Option<u32>,
    callers_a_minute: Option<u32>,
    flood: Option<u32>,
}

/// These, as they are asked for, by a serve of so many callers, or of any number, and of these thresholds.
fn rates_of(
    options: &ArgMatches<'_>,
    accept: Option<u32>,
    crowd: u32,
    stage: u32,
) -> Result<Rates, Unread>
    ensures { IsReadAs (λ rates. rates) (rates_of accept crowd stage (rows_of (found_of options.now))) result }
{
    let is_limited = accept.is_some();
    let ping = limit_asked(
        options,
        &PING,
        is_limited,
        "--ping is taken only with --accept any",
    )?;
    let callers_a_minute = limit_asked(
        options,
        &CALLERS_A_MINUTE,
        is_limited,
        "--callers-a-minute is taken only with --accept any",
    )?;
    let flood = limit_asked(
        options,
        &FLOOD,
        is_never_crowded(crowd, stage),
        "--flood takes a --crowd of 1 or more that is below --stage",
    )?;
    Ok(Rates {
        ping,
        callers_a_minute,
        flood,
    })
}

/// How long a serve waits and goes on, in seconds.
#[derive(Clone, Copy)]
struct Times {
    idle: Option<u32>,
    retry: Retry,
    seconds: Option<u32>,
    grace: u32,
    resumes: bool,
}

/// The limit that a number of seconds says: none, where there are none.
fn limit_of(seconds: u32) -> Option<u32>
    ensures { result ≡ limit_of seconds }
{
    if seconds == 0 { None } else { Some(seconds) }
}

/// How long a serve of so many callers, or of any number, waits and goes on, where each time is within its limits; and whether it goes on with
/// a history, which one of this servent may.
fn times_of(
    options: &ArgMatches<'_>,
    accept: Option<u32>,
    servent: Servent,
) -> Result<Times, Unread>
    ensures { IsReadAs (λ t. t) (times_of accept servent (rows_of (found_of options.now))) result }
{
    let idle = asked(options, &IDLE)?;
    let said = retry_of(options)?;
    let seconds = asked(options, &SECONDS)?;
    let grace = asked(options, &GRACE)?;
    let retry = retry_with(accept, said)?;
    let resumes = resumes_of(options, accept, servent)?;
    Ok(Times {
        idle: limit_of(idle),
        retry,
        seconds: limit_of(seconds),
        grace,
        resumes,
    })
}

/// What the options of a serve ask for, where each is within its limits.
fn serving_of(alloc: Global, options: &ArgMatches<'_>) -> Result<ServeOptions, Unread>
    ensures { IsReadAs (λ s. s) (serving_of (rows_of (found_of options.now))) result }
{
    let port = asked(options, &PORT)?;
    let accept = accept_of(options)?;
    let workers = asked(options, &WORKERS)?;
    let site = site_of(alloc, options)?;
    let servent = servent_of(options)?;
    let shared = shared_of(options, port)?;
    let peers = peers_of(alloc, site.calls_far(), options)?;
    let batch = asked(options, &BATCH)?;
    let numbers = numbers_of(options)?;
    let rates = rates_of(options, accept, numbers.crowd, numbers.stage)?;
    let times = times_of(options, accept, servent)?;
    Ok(ServeOptions {
        port: port as u16,
        accept,
        workers,
        site,
        servent,
        files: shared.files,
        kilobytes: shared.kilobytes,
        metrics: shared.metrics,
        peers,
        idle: times.idle,
        retry: times.retry,
        ping: rates.ping,
        callers_a_minute: rates.callers_a_minute,
        flood: rates.flood,
        batch,
        numbers,
        seconds: times.seconds,
        grace: times.grace,
        early: is_set(options, "stop-early"),
        until_eof: is_set(options, "until-eof"),
        resumes: times.resumes,
        keeps: is_set(options, "keep-history"),
        times: is_set(options, "times"),
        links: is_set(options, "links"),
        report: is_set(options, "report"),
        progress: is_set(options, "progress"),
    })
}

/// All words of a serve behind `gn serve`: an option a line, each with its value.
fn config_text(alloc: Global, serving: &ServeOptions) -> Result<Vec<u8>, AllocError>
    ensures { IfOk result (λ text. text.items ≡ config_text serving.now) }
{
    let numbers = &serving.numbers;
    let rows = [
        ("port", Said::Number(serving.port as u32)),
        ("accept", Said::Callers(serving.accept)),
        ("workers", Said::Number(serving.workers)),
        ("bind", Said::Ip(serving.site.bind)),
        ("address", Said::Ip(serving.site.address)),
        ("servent", Said::Who(serving.servent)),
        ("files", Said::Number(serving.files)),
        ("kilobytes", Said::Number(serving.kilobytes)),
        ("metrics", Said::Port(serving.metrics)),
        ("peer", Said::Each(&serving.peers)),
        ("idle", Said::Limit(serving.idle)),
        ("retry", Said::Again(serving.retry)),
        ("ping", Said::Limit(serving.ping)),
        ("callers-a-minute", Said::Limit(serving.callers_a_minute)),
        ("flood", Said::Limit(serving.flood)),
        ("batch", Said::Number(serving.batch)),
        ("neighbours", Said::Number(numbers.neighbours)),
        ("remembered", Said::Number(numbers.seen)),
        ("servents", Said::Number(numbers.servents)),
        ("stage", Said::Number(numbers.stage)),
        ("queue", Said::Number(numbers.out)),
        ("life", Said::Number(numbers.life as u32)),
        ("crowd", Said::Number(numbers.crowd)),
        ("steps", Said::Number(numbers.steps)),
        ("for", Said::Limit(serving.seconds)),
        ("grace", Said::Number(serving.grace)),
        ("stop-early", Said::Flag(serving.early)),
        ("until-eof", Said::Flag(serving.until_eof)),
        ("resume", Said::Flag(serving.resumes)),
        ("keep-history", Said::Flag(serving.keeps)),
        ("times", Said::Flag(serving.times)),
        ("links", Said::Flag(serving.links)),
        ("report", Said::Flag(serving.report)),
        ("progress", Said::Flag(serving.progress)),
    ];
    let mut out = Vec::new(alloc);
    push_rows(&mut out, &rows)?;
    Ok(out)
}

/// Writes the words that a serve would run with, and gives the status.
pub(crate) fn print_config<W: Sink, F: Sink>(
    alloc: Global,
    serving: &ServeOptions,
    writer: &mut W,
    faults: &mut F,
) -> u8
    ensures { HasPrinted serving.now (W.state writer.old) (W.state writer.new) result }
{
    let Ok(text) = config_text(alloc, serving) else {
        return write_fault(faults, Fault::NoMemory);
    };
    let written = write_all(writer, &text);
    drop(text);
    match written {
        Ok(()) => DONE,
        Err(_) => write_fault(faults, Fault::Output),
    }
}

impl Command for Serve {
    ghost app = { serve_app };

    ghost asked = { serve_asked };

    ghost does = { Serves };

    fn page<'a>(alloc: Global) -> Result<clap::Command<'a>, AllocError> {
        command_of(alloc, &HELP)
    }

    fn read(alloc: Global, options: &ArgMatches<'_>) -> Result<Self, Unread> {
        let serving = serving_of(alloc, options)?;
        if is_set(options, "print-config") {
            Ok(Serve::Config(serving))
        } else {
            Ok(Serve::Run(serving))
        }
    }
}
