//! What a command answers.

use crate::streams::{Given, Taken};
use gn_io::{ReaderSource, WriterSink};
use gn_links::{NoGate, Watch};
use gn_program::{Head, Kept, command_with};
use gn_table_router::TableRouter;
use gn_tables::Forgetful;
use std::io::StdinLock;
use std::net::{Net, TcpListener, TcpStream};
use std::random::RandomSource;
use std::sync::Wait;
use std::thread::Threads;
use std::time::Clock;

/// The status of a command, what it prints, and the faults that it writes.
#[derive(Drop)]
pub(crate) struct Answer {
    pub(crate) status: u8,
    pub(crate) printed: Vec<u8>,
    pub(crate) faults: Vec<u8>,
}

impl Answer {
    /// Whether both are the same in each part.
    pub(crate) fn is_same(&self, other: &Answer) -> bool {
        self.status == other.status
            && self.printed.as_slice() == other.printed.as_slice()
            && self.faults.as_slice() == other.faults.as_slice()
    }
}

/// What a command answers under this watch that reads this input, and writes to streams of which either may fail.
pub(crate) fn answer_under<
    R: Threads
        + Wait
        + Net<Listener = TcpListener, Stream = TcpStream>
        + Clock
        + Input<Reader = StdinLock<'static>>
        + RandomSource
        + Sync
        + AllocGlobal,
    G: Watch + Sync,
>(rt: &R, words: &[&str], watch: &G, input: Given<'_>, fails: (bool, bool)) -> Answer {
    let head = Head::new();
    let mut reader = ReaderSource::new(Kept::new(input, &head));
    let mut writer = WriterSink::new(Taken::new(rt.alloc(), fails.0));
    let mut faults = WriterSink::new(Taken::new(rt.alloc(), fails.1));
    let ended = command_with::<TableRouter<_, Forgetful>, _, _, _, _, _, _>(
        rt,
        rt.alloc(),
        words,
        watch,
        &head,
        &mut reader,
        &mut writer,
        &mut faults,
    );
    Answer {
        status: ended.status,
        printed: writer.into_inner().text,
        faults: faults.into_inner().text,
    }
}

/// The same, where nobody watches.
pub(crate) fn answer_to<
    R: Threads
        + Wait
        + Net<Listener = TcpListener, Stream = TcpStream>
        + Clock
        + Input<Reader = StdinLock<'static>>
        + RandomSource
        + Sync
        + AllocGlobal,
>(rt: &R, words: &[&str], input: Given<'_>, fails: (bool, bool)) -> Answer {
    answer_under(rt, words, &NoGate, input, fails)
}
