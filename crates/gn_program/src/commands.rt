//! A command line, done.

ghost use Rattle.std.specs.Prelude.{◌≡◌, ◌≢◌, ◌⊎◌, [], Some, None, true, IfErr, IfOk, map};
ghost use Rattle.std.specs.IoError.{error_kind};
ghost use Rattle.std.specs.declared.io.ErrorKind.TheVariants.{OutOfMemory as NoneLeft};
ghost use Rattle.clap.specs.Kinds.{IsAmong};
ghost use Rattle.clap.specs.Matches.{has_subcommand};
ghost use Rattle.clap.specs.Words.{HasKind, kind_of, subcommand_rows_of};
ghost use Rattle.clap.specs.declared.error.kind.ErrorKind.{ErrorKind as Kind};
ghost use Rattle.clap.specs.declared.error.kind.ErrorKind.TheVariants.{OutOfMemory};
ghost use Rattle.gn_program.specs.Commands.{Does, HasDone, IsTurnedAway, IsUnread, kinds_of, request_by, request_of, value_kinds};
ghost use Rattle.gn_program.specs.declared.request.Request.{Request as Asked};
ghost use Rattle.gn_io.specs.Streams.{streams};

use crate::answer::{DONE, write_fault};
use crate::detail::write_detail;
use crate::ended::Ended;
use crate::fault::Fault;
use crate::head::Head;
use crate::request::{Request, gn_command, mistake, obey, reading_of, request_named};
use crate::text::write_text;
use clap::error::ErrorKind;
use clap::{ArgMatches, Error};
use gn_io::{Sink, Source};
use gn_links::{NoGate, Watch};
use gn_rules::FreshRouter;
use gn_service::Host;
use gn_table_router::TableRouter;
use gn_tables::Forgetful;
use gn_words::Unread;
use std::alloc::{AllocError, Global};
use std::convert::AsStr;
use std::io;
use std::io::StdinLock;
use std::random::RandomSource;

/// The words can't be read.
const USAGE: u8 = 2;

/// What parsed words ask for, which name a subcommand; a mistake of that, where a value isn't within its limits. An `Err` may also
/// say out of memory.
fn request_in(alloc: Global, matches: &ArgMatches<'_>) -> Result<Request, Error>
    requires { has_subcommand matches.now ≡ true }
    ensures ok { IfOk result (λ request. request_by [] (subcommand_rows_of matches.now) ≡ Some request) }
    ensures err { IfErr result (HasKind (value_kinds (subcommand_rows_of matches.now))) }
{
    let Some((name, options)) = matches.subcommand() else {
        unreachable!()
    };
    match request_named(alloc, name, options) {
        Ok(request) => Ok(request),
        Err(Unread::Mistake(text)) => Err(mistake(alloc, name, text)?),
        Err(Unread::NoMemory) => Err(Error::from(AllocError)),
    }
}

/// What the words ask for, the first of them the program's name. An `Err` says what else they are: a call for help or
/// the version, or a mistake; or it says out of memory.
fn read_words<'a, T: AsStr>(alloc: Global, words: &'a [T]) -> Result<Request, Error>
    ensures ok { IfOk result (λ request. request_of (map T.text words.entry.now) ≡ Some request) }
    ensures err { IfErr result (HasKind (kinds_of (map T.text words.entry.now))) }
{
    let matches = gn_command(alloc)?.try_get_matches_from(words)?;
    request_in(alloc, &matches)
}

/// Answers words that ask for no work: help and the version are output, all else is written with the faults.
fn turn_away<W: Sink, F: Sink>(error: Error, writer: &mut W, faults: &mut F) -> u8
    ensures { IsTurnedAway (kind_of error) writer.old writer.new result }
{
    if error.kind() == ErrorKind::OutOfMemory {
        return write_fault(faults, Fault::NoMemory);
    }
    if error.use_stderr() {
        let _ = write_text(faults, error);
        return USAGE;
    }
    match write_text(writer, error) {
        Ok(()) => DONE,
        Err(_) => write_fault(faults, Fault::Output),
    }
}

/// Does what the words ask for, of which the first is the program's name, and gives the status to end with: 0 where it
/// is done or the history is legal, 1 at a fault or a wrong history, 2 where the words can't be read. What is asked for
/// is read from `reader` and written to `writer`; at help, the version and mistakes nothing is read, and help and the
/// version are written to `writer` too. A fault is one line on `faults`, below which a second one may say what was wrong; that
/// it can't be written changes nothing.
///
/// A load and a serve alone start threads and wait; a serve alone opens sockets, reads nothing from `reader`, and says
/// `listening PORT` on a line of `faults` once it can be called. With `--until-eof` it reads the standard input of `rt`, by a
/// thread that goes on where that hasn't ended, with `--resume` it reads that to its end first; with `--servent random` it takes
/// random bytes of the system.
pub fn command<
    R: Host + Input<Reader = StdinLock<'static>> + RandomSource,
    T: AsStr,
    S: Source,
    W: Sink + Send,
    F: Sink + Send,
>(rt: &R, alloc: Global, words: &[T], reader: &mut S, writer: &mut W, faults: &mut F) -> u8
    ensures asked { (request : Asked) → request_of (map T.text words.now) ≡ Some request
        → IsUnread reader.old reader.new writer.old writer.new result ⊎ HasDone request
        (streams (S.state reader.old) (S.state reader.new) (W.state writer.old) (W.state writer.new)) result }
    ensures neither { request_of (map T.text words.now) ≡ None → (kind : Kind)
        × ((kind ≡ OutOfMemory) ⊎ IsAmong kind (kinds_of (map T.text words.now)))
        × IsTurnedAway kind writer.old writer.new result }
    ensures unread { request_of (map T.text words.now) ≡ None → reader.new ≡ reader.old }
{
    let ended = command_with::<TableRouter<Global, Forgetful>, R, NoGate, T, S, W, F>(
        rt,
        alloc,
        words,
        &NoGate,
        &Head::new(),
        reader,
        writer,
        faults,
    );
    ended.status
}

/// Does the same, and says what is remembered of the run of a serve beside the status. A replay's and an audit's router is of type C,
/// which gives back all memory that such a router gives back when it is dropped; and a load or a serve with `--progress` is watched
/// by `watch`, where `command` says nothing. Each load leaves what it made to `watch`. Where `head` has the first bytes of the
/// input, as a `Kept` reader leaves them there, a fault of the first three lines has a second line, which says more.
pub fn command_with<
    C: FreshRouter<Global> + Drop,
    R: Host + Input<Reader = StdinLock<'static>> + RandomSource,
    G: Watch + Sync,
    T: AsStr,
    S: Source,
    W: Sink + Send,
    F: Sink + Send,
>(
    rt: &R,
    alloc: Global,
    words: &[T],
    watch: &G,
    head: &Head,
    reader: &mut S,
    writer: &mut W,
    faults: &mut F,
) -> Ended
    ensures asked { (request : Asked) → request_of (map T.text words.now) ≡ Some request
        → IsUnread reader.old reader.new writer.old writer.new result.status ⊎ Does request
        (streams (S.state reader.old) (S.state reader.new) (W.state writer.old) (W.state writer.new))
        result.status result.ran }
    ensures neither { request_of (map T.text words.now) ≡ None → (kind : Kind)
        × ((kind ≡ OutOfMemory) ⊎ IsAmong kind (kinds_of (map T.text words.now)))
        × IsTurnedAway kind writer.old writer.new result.status }
    ensures unread { request_of (map T.text words.now) ≡ None → reader.new ≡ reader.old }
{
    match read_words(alloc, words) {
        Ok(request) => {
            let reading = reading_of(&request);
            let ended = obey::<C, R, G, S, W, F>(
                rt, alloc, &request, watch, reader, writer, faults,
            );
            write_detail(faults, alloc, reading, head, ended.status);
            ended
        }
        Err(error) => {
            let status = turn_away(error, writer, faults);
            Ended { status, ran: None }
        }
    }
}

/// Answers words that couldn't be had, and gives the status: one of them isn't text, or memory ran out.
pub fn refuse_words<F: Sink>(error: &io::Error, faults: &mut F) -> u8
    ensures memory { error_kind error.now ≡ NoneLeft → result ≡ 1 }
    ensures text { error_kind error.now ≢ NoneLeft → result ≡ 2 }
{
    if error.kind() == io::ErrorKind::OutOfMemory {
        return write_fault(faults, Fault::NoMemory);
    }
    let _ = write_text(faults, "error: an argument isn't text\n");
    USAGE
}
