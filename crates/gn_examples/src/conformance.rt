//! The conformance set, each of its cases as `command` answers it.

use crate::answers::Answer;
use crate::case::Case;
use crate::set::{cases_of, files_of};
use crate::streams::{Given, Taken};
use gn_io::{ReaderSource, WriterSink};
use gn_program::{Head, Kept, command};
use std::io;
use std::io::StdinLock;
use std::net::{Net, TcpListener, TcpStream};
use std::random::RandomSource;
use std::rt::Files;
use std::sync::Wait;
use std::thread::Threads;
use std::time::Clock;

/// What a case is answered. Below a fault's line nothing more is said, as the head of the input isn't handed on.
fn answer_case<
    R: Threads
        + Wait
        + Net<Listener = TcpListener, Stream = TcpStream>
        + Clock
        + Input<Reader = StdinLock<'static>>
        + RandomSource
        + Sync
        + AllocGlobal,
>(rt: &R, case: &Case) -> io::Result<Answer> {
    let words: Vec<&str> = case.words.split(' ').collect(rt.alloc())?;
    let head = Head::new();
    let given = Given::new(case.input.as_slice(), false);
    let mut reader = ReaderSource::new(Kept::new(given, &head));
    let mut writer = WriterSink::new(Taken::new(rt.alloc(), false));
    let mut faults = WriterSink::new(Taken::new(rt.alloc(), false));
    let status = command(
        rt,
        rt.alloc(),
        &words,
        &mut reader,
        &mut writer,
        &mut faults,
    );
    Ok(Answer {
        status,
        printed: writer.into_inner().text,
        faults: faults.into_inner().text,
    })
}

/// Prints how many cases of a file are answered as they have to be, and how many aren't, whose titles are printed before.
fn try_cases<
    R: Threads
        + Wait
        + Net<Listener = TcpListener, Stream = TcpStream>
        + Clock
        + Input<Reader = StdinLock<'static>>
        + RandomSource
        + Sync
        + Files
        + Print
        + AllocGlobal,
>(rt: &R, file: &str) -> io::Result<()> {
    let cases = cases_of(rt, file)?;
    let mut failed = 0_usize;
    for case in &cases {
        if !answer_case(rt, case)?.is_same(&case.wanted) {
            println!(rt; "FAILED {file}: {}", case.title.as_str())?;
            failed = failed.saturating_add(1);
        }
    }
    let passed = cases.len().saturating_sub(failed);
    if !cases.is_empty() {
        println!(rt; "{file}: {passed} passed, {failed} failed")?;
    }
    Ok(())
}

/// The same of each file of the set.
pub(crate) fn try_set<
    R: Threads
        + Wait
        + Net<Listener = TcpListener, Stream = TcpStream>
        + Clock
        + Input<Reader = StdinLock<'static>>
        + RandomSource
        + Sync
        + Files
        + Print
        + AllocGlobal
        + Clone
        + Drop,
>(rt: &R) -> io::Result<()> {
    for file in &files_of(rt)? {
        try_cases(rt, file.as_str())?;
    }
    Ok(())
}
