//! What a watch is told of a command.

use crate::answers::answer_under;
use crate::streams::Given;
use gn_links::{Gate, Watch};
use std::io::StdinLock;
use std::net::{Net, SocketAddr, TcpListener, TcpStream};
use std::random::RandomSource;
use std::sync::Wait;
use std::sync::atomic::{AtomicU32, Ordering};
use std::thread::Threads;
use std::time::Clock;

/// The counts of what a watch was told.
#[derive(Drop)]
struct Told {
    links: AtomicU32,
    steps: AtomicU32,
    came: AtomicU32,
    ends: AtomicU32,
    left: AtomicU32,
}

impl Gate for Told {
    fn enter<W: Wait>(&self, _rt: &W, _worker: u32, _ticket: u32) {}
}

impl Watch for Told {
    fn begin(&self, links: usize) {
        self.links.store((links % 1_000) as u32, Ordering::SeqCst);
    }

    fn open(&self, steps: u32) {
        self.steps.store(steps, Ordering::SeqCst);
    }

    fn came<W: Wait>(&self, _rt: &W, _link: u32, _peer: SocketAddr) {
        self.came.fetch_add(1, Ordering::SeqCst);
    }

    fn end(&self) {
        self.ends.fetch_add(1, Ordering::SeqCst);
    }

    fn leave<T: Drop>(&self, rest: T) {
        self.left.fetch_add(1, Ordering::SeqCst);
        drop(rest);
    }
}

impl Told {
    /// Nothing was told yet.
    fn new() -> Self {
        Told {
            links: AtomicU32::new(0),
            steps: AtomicU32::new(0),
            came: AtomicU32::new(0),
            ends: AtomicU32::new(0),
            left: AtomicU32::new(0),
        }
    }

    /// The last number of links and of steps, and how many links came, runs ended and watches were left.
    fn counts(&self) -> [u32; 5] {
        [
            self.links.load(Ordering::SeqCst),
            self.steps.load(Ordering::SeqCst),
            self.came.load(Ordering::SeqCst),
            self.ends.load(Ordering::SeqCst),
            self.left.load(Ordering::SeqCst),
        ]
    }
}

/// A capture of one link, which brings nothing.
const SILENT: &[u8] =
    b"gnutella-capture 1\nconfig 4 8 4 8 8 100\nown eeeeeeeeeeeeeeeeeeeeeeeeeeeeeeee 127.0.0.1 6346 5 40\njoin\n";

/// Whether a watch is told what it is asked to watch: a load or a serve with `--progress` alone. Each leaves what it made.
pub(crate) fn are_told<
    R: Threads
        + Wait
        + Net<Listener = TcpListener, Stream = TcpStream>
        + Clock
        + Input<Reader = StdinLock<'static>>
        + RandomSource
        + Sync
        + AllocGlobal,
>(rt: &R) -> bool {
    let load: &[&str] = &["gn", "load", "-w", "1"];
    let watched_load: &[&str] = &["gn", "load", "-w", "1", "--progress"];
    let serve: &[&str] = &["gn", "serve", "--port=26361", "--accept=0", "-w", "1"];
    let watched_serve: &[&str] = &[
        "gn",
        "serve",
        "--port=26361",
        "--accept=0",
        "-w",
        "1",
        "--steps=99",
        "--progress",
    ];
    // links of a load, most steps of a serve, links that came, ends, and what was left
    let rows = [
        (load, [0, 0, 0, 0, 1]),
        (watched_load, [1, 0, 0, 1, 1]),
        (serve, [0, 0, 0, 0, 1]),
        (watched_serve, [0, 99, 0, 1, 1]),
    ];
    for (words, counts) in rows {
        let told = Told::new();
        let given = Given::new(SILENT, false);
        let answered = answer_under(rt, words, &told, given, (false, false));
        if answered.status != 0 || told.counts() != counts {
            return false;
        }
    }
    true
}
