//! The commands: what words may ask for.

ghost use Rattle.std.specs.Prelude.{◌≡◌, IfOk};
ghost use Rattle.clap.specs.Words.{app_of, found_of, kind_of, rows_of, with_subcommand};
ghost use Rattle.clap.specs.declared.error.kind.ErrorKind.TheVariants.{ValueValidation};
ghost use Rattle.gn_io.specs.Streams.{streams};
ghost use Rattle.gn_words.specs.Options.{IsReadAs};
ghost use Rattle.gn_program.specs.Commands.{Does, PlainWordsAreRead, bare_app, gn_app, request_named, texts_app};

use crate::audit::Audit;
use crate::detail::Reading;
use crate::ended::Ended;
use crate::form::Command;
use crate::load::Load;
use crate::replay::Replay;
use crate::serve::Serve;
use crate::show::Show;
use clap::error::ErrorKind;
use clap::{ArgMatches, Error};
use gn_io::{Sink, Source};
use gn_links::Watch;
use gn_rules::FreshRouter;
use gn_service::Host;
use gn_text::Text;
use gn_words::Unread;
use std::alloc::{AllocError, Global};
use std::io::StdinLock;
use std::random::RandomSource;

/// The version that is printed.
const VERSION: &str = "0.2.0";

/// What the program is, above the list of commands.
const ABOUT: &str =
    "Tineflax, a packet router for Gnutella v0.4 whose answers are proved to follow its rules as written
down in this repository. The rules were taken from memory of the public specification, and not
compared with its text.";

/// What stands below that list: a line to type for each command, and each exit status.
const EXAMPLES: &str = "\
Examples:
  gn replay < examples/first_ping.capture
  gn audit < examples/first_ping.history
  gn audit --explain < examples/wrong_ticket.history
  gn replay --history < examples/first_ping.capture | gn audit
  gn show < examples/first_ping.history
  gn load --workers 4 < examples/six_links.capture | gn audit
  gn serve --port 6346 --accept 8 --workers 4 --for 60 > serve.history

docs/FORMATS.md has each line of a capture, a history and the printed texts.

Exit status: 0 where it is done, or the history is legal; 1 where input or output is at fault,
or the history is wrong; 2 where the command line can't be read; 141 where whoever reads standard
output has gone.";

/// What a command line asks for.
#[derive(Drop)]
pub enum Request {
    /// A capture is replayed.
    Replay(Replay),
    /// A history is audited.
    Audit(Audit),
    /// A history is shown.
    Show(Show),
    /// The links of a capture are run.
    Load(Load),
    /// A router is run over TCP.
    Serve(Serve),
}

/// The command `gn` before it has its subcommands.
fn bare_command<'a>(alloc: Global) -> clap::Command<'a>
    ensures { app_of result ≡ bare_app }
{
    clap::Command::new(alloc, "gn")
        .version(VERSION)
        .about(ABOUT)
        .after_help(EXAMPLES)
        .subcommand_required(true)
}

/// A command with the page of one more, where that could be made.
fn with_page<'a, C: Command>(
    alloc: Global,
    command: clap::Command<'a>,
) -> Result<clap::Command<'a>, AllocError>
    ensures { IfOk result (λ both. app_of both ≡ with_subcommand (app_of command.entry) C.app.top) }
{
    let page = C::page(alloc)?;
    command.subcommand(page)
}

/// The command `gn` with its subcommands that start no threads.
fn texts_command<'a>(alloc: Global) -> Result<clap::Command<'a>, AllocError>
    ensures { IfOk result (λ command. app_of command ≡ texts_app) }
{
    let replays = with_page::<Replay>(alloc, bare_command(alloc))?;
    let audits = with_page::<Audit>(alloc, replays)?;
    let shows = with_page::<Show>(alloc, audits)?;
    Ok(shows)
}

/// The command `gn` with all its subcommands.
pub(crate) fn gn_command<'a>(alloc: Global) -> Result<clap::Command<'a>, AllocError>
    ensures { IfOk result (λ command. app_of command ≡ gn_app) }
{
    let texts = texts_command(alloc)?;
    let loads = with_page::<Load>(alloc, texts)?;
    let serves = with_page::<Serve>(alloc, loads)?;
    Ok(serves)
}

/// What a subcommand with these options asks for; a mistake, where a value isn't within its limits.
pub(crate) fn request_named(
    alloc: Global,
    name: &str,
    options: &ArgMatches<'_>,
) -> Result<Request, Unread>
    ensures { IsReadAs (λ r. r) (request_named name.now (rows_of (found_of options.now))) result }
{
    match name {
        "replay" => Ok(Request::Replay(Replay::read(alloc, options)?)),
        "audit" => Ok(Request::Audit(Audit::read(alloc, options)?)),
        "show" => Ok(Request::Show(Show::read(alloc, options)?)),
        "load" => Ok(Request::Load(Load::read(alloc, options)?)),
        "serve" => Ok(Request::Serve(Serve::read(alloc, options)?)),
        _ => Err(Unread::Mistake("there is no such subcommand")),
    }
}

/// The answer to a value that isn't within its limits: an error of the subcommand, which says what its option takes.
pub(crate) fn mistake(alloc: Global, name: &str, text: &str) -> Result<Error, AllocError>
    ensures { IfOk result (λ error. kind_of error ≡ ValueValidation) }
{
    let made = match name {
        "audit" => Audit::page(alloc),
        "show" => Show::page(alloc),
        "serve" => Serve::page(alloc),
        _ => Load::page(alloc),
    };
    let mut command = made?;
    let error = command.error(ErrorKind::ValueValidation, text);
    drop(command);
    error
}

/// What is read where this is asked for.
pub(crate) fn reading_of(request: &Request) -> Option<Reading> {
    let (command, text) = match request {
        Request::Replay(_) => ("replay", Text::Capture),
        Request::Audit(_) => ("audit", Text::History),
        Request::Show(_) => ("show", Text::History),
        Request::Load(_) => ("load", Text::Capture),
        Request::Serve(_) => return None,
    };
    Some(Reading { command, text })
}

/// Does what is asked for.
pub(crate) fn obey<
    C: FreshRouter<Global> + Drop,
    R: Host + Input<Reader = StdinLock<'static>> + RandomSource,
    G: Watch + Sync,
    S: Source,
    W: Sink + Send,
    F: Sink + Send,
>(
    rt: &R,
    alloc: Global,
    request: &Request,
    watch: &G,
    reader: &mut S,
    writer: &mut W,
    faults: &mut F,
) -> Ended
    ensures { Does request.now
        (streams (S.state reader.old) (S.state reader.new) (W.state writer.old) (W.state writer.new))
        result.status result.ran }
{
    let status = match request {
        Request::Replay(replay) => replay.run::<C, S, W, F>(alloc, reader, writer, faults),
        Request::Audit(audit) => audit.run::<C, S, W, F>(alloc, reader, writer, faults),
        Request::Show(show) => show.run(alloc, reader, writer, faults),
        Request::Load(load) => load.run(rt, alloc, watch, reader, writer, faults),
        Request::Serve(serve) => return serve.run(rt, alloc, watch, writer, faults),
    };
    Ended { status, ran: None }
}

/// The law that plain words are read as they say.
pub fn plain_words_are_read()
    ensures { PlainWordsAreRead }
{}
