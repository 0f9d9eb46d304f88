//! The program `gn`: its command line, with the standard streams.
#![tactic(auto)]

mod streams;

use gn_io::{ReaderSource, Sink, Source, WriterSink, write_all};
use gn_links::Watch;
use gn_program::{Head, Kept, command_with, refuse_words};
use gn_progress::Progress;
use gn_router::Unfreed;
use gn_table_router::TableRouter;
use gn_tables::Forgetful;
use std::env::Env;
use std::io::StdinLock;
use std::net::{Net, TcpListener, TcpStream};
use std::process::ExitCode;
use std::random::RandomSource;
use std::sync::Wait;
use std::thread::Threads;
use std::time::Clock;
use std::{env, io};
use streams::{Noted, Unbroken, Why, is_broken, open_all};

/// The status where whoever reads the output has gone: that of a program which the system ends for it.
const BROKEN: u8 = 141;

/// The words of the command line, the program's name first.
fn words_of<R: Env + AllocGlobal>(rt: &R) -> io::Result<Vec<String>> {
    Ok(env::args(rt)?.collect(rt.alloc())?)
}

/// Writes what the system said of a stream, where it said something.
fn say_why<R: AllocGlobal, F: Sink>(rt: &R, faults: &mut F, stream: &str, why: &Why) {
    if let Some(kind) = why.get()
        && let Ok(line) = format!(in rt.alloc(); "{stream}: {kind}\n")
    {
        let _ = write_all(faults, line.as_bytes());
    }
}

/// Does what the words say over these streams, and gives the status to end with.
fn obey<
    R: Threads
        + Wait
        + Net<Listener = TcpListener, Stream = TcpStream>
        + Clock
        + Input<Reader = StdinLock<'static>>
        + RandomSource
        + AllocGlobal
        + Sync,
    G: Watch + Sync,
    S: Source,
    W: Sink + Send,
    F: Sink + Send,
>(
    rt: &R,
    words: &[String],
    watch: &G,
    head: &Head,
    reader: &mut S,
    writer: &mut W,
    faults: &mut F,
) -> u8 {
    let ended = command_with::<Unfreed<TableRouter<_, Forgetful>>, _, _, _, _, _, _>(
        rt,
        rt.alloc(),
        words,
        watch,
        head,
        reader,
        writer,
        faults,
    );
    ended.status
}

/// Does what the words say, and ends with its status.
fn main(rt: HostRuntime) -> ExitCode {
    open_all(&rt);
    let input: Why = Why::new();
    let output: Why = Why::new();
    let head = Head::new();
    let mut reader = ReaderSource::new(Kept::new(Noted::new(rt.stdin(), &input), &head));
    let mut writer = WriterSink::new(Noted::new(rt.stdout(), &output));
    let mut faults = WriterSink::new(Unbroken::new(rt.stderr(), &output));
    let progress = Progress::new(&rt, rt.stderr());
    let status = match words_of(&rt) {
        Ok(words) => obey(
            &rt,
            words.as_slice(),
            &progress,
            &head,
            &mut reader,
            &mut writer,
            &mut faults,
        ),
        Err(error) => refuse_words(&error, &mut faults),
    };
    if is_broken(&output) {
        return ExitCode::from(BROKEN);
    }
    if status != 0 {
        say_why(&rt, &mut faults, "standard input", &input);
        say_why(&rt, &mut faults, "standard output", &output);
    }
    ExitCode::from(status)
}
