//! Loads whose history is written while they run, and can't be written whole.

use crate::batch::usual_loading;
use crate::journal::{Full, Narrow, ONE_PING};
use gn_io::{ReaderSource, WriterSink};
use gn_links::NoGate;
use gn_load::{LoadFault, load_journalled};
use gn_replay::ReplayFault;
use std::alloc::Global;
use std::sync::Wait;
use std::test::Fail;
use std::thread::Threads;

/// A capture of a link that gives a Ping.
const LONE_PING: &str = "\
gnutella-capture 1
config 4 8 4 8 8 100
own eeeeeeeeeeeeeeeeeeeeeeeeeeeeeeee 127.0.0.1 6346 5 40
join
data 1 a1a1a1a1a1a1a1a1a1a1a1a1a1a1a1a100070000000000
";

/// The answer of a load of it where so many bytes of the history can be written, and whether as many first ones were.
fn loaded_at_most<R: Threads + Wait + Sync>(
    rt: &R,
    alloc: Global,
    most: usize,
    full: Full,
) -> (Result<(), LoadFault>, bool) {
    let mut source = ReaderSource::new(LONE_PING.as_bytes());
    let mut sink = WriterSink::new(Narrow::new(most, full));
    let loaded = load_journalled(
        rt,
        alloc,
        &usual_loading(1, &NoGate),
        &mut source,
        &mut sink,
    );
    (loaded, sink.into_inner().has_begun())
}

/// Each of the first 200 writes that may fail ends the load, and each that may take nothing. Where all can be written, all is.
#[test]
fn a_write_that_fails_ends_the_load(rt: HostRuntime) -> Result<(), Fail> {
    let cut = Err(LoadFault::Text(ReplayFault::Write));
    for most in 0..200 {
        for full in [Full::Fails, Full::TakesNothing] {
            assert_eq!(rt;
                loaded_at_most(&rt, rt.alloc(), most, full),
                (cut, true),
                "{most}"
            );
        }
    }
    let whole = loaded_at_most(&rt, rt.alloc(), ONE_PING.len(), Full::Fails);
    assert_eq!(rt; whole, (Ok(()), true));
    Ok(())
}
