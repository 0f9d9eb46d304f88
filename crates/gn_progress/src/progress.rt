//! The gate of a run that says how far the run is.

use crate::counts::Counts;
use crate::screen::Screen;
use crate::shown::{Grouped, TimeOfDay};
use gn_links::{Gate, Half, Made, Place, Watch};
use std::fmt::Display;
use std::mem::ManuallyDrop;
use std::net::SocketAddr;
use std::sync::Wait;
use std::sync::atomic::{AtomicBool, AtomicU64, Ordering};
use std::time::{Clock, Duration, Instant};

/// The clock is read at each so many jobs of a load, and steps of a serve.
const LOOK: u32 = 64;

/// Seconds after which a serve's line is due, where something was done since the one before.
const TICK: u64 = 1;

/// Seconds of a day.
const DAY: u64 = 86_400;

/// A run's gate that holds nobody and counts who passes. Who finds that a second has gone by writes the line of that second: on
/// a terminal over the line before, else below it; and the last one comes again, where something was done since: a second later in
/// a serve, and at the end.
/// Of a serve it also writes each link that comes, each end, and each that is disconnected. Each line has the time of day, in UTC.
#[derive(Drop)]
pub struct Progress<'r, R, O> {
    rt: &'r R,
    out: O,
    start: Option<Instant>,
    counts: Counts,
    /// When the next line is due, in seconds from the start.
    due: AtomicU64,
    /// Whether the last line is to be written over.
    is_open: AtomicBool,
    /// What was counted, all in all, as the last line was written; 0: there was none.
    said: AtomicU64,
}

/// The word of a half's thread.
fn half_word(half: Half) -> &'static str {
    match half {
        Half::Reader => "reader",
        Half::Writer => "writer",
    }
}

impl<'r, R: Clock + AllocGlobal, O: Screen> Progress<'r, R, O> {
    /// Nothing has passed yet, and the first line is due in a second.
    pub fn new(rt: &'r R, out: O) -> Self {
        Progress {
            rt,
            out,
            start: Instant::now(rt).ok(),
            counts: Counts::new(),
            due: AtomicU64::new(1),
            is_open: AtomicBool::new(false),
            said: AtomicU64::new(0),
        }
    }

    /// The time of day now, in UTC.
    fn time_of_day(&self) -> TimeOfDay {
        match self.rt.since_1970() {
            Ok(since) => TimeOfDay(Some(since.as_secs() % DAY)),
            Err(_) => TimeOfDay(None),
        }
    }

    /// Writes a line that stays, below the last one, where there is memory for it.
    fn tell<D: Display>(&self, news: &D) {
        let below = if self.is_open.swap(false, Ordering::SeqCst) {
            "\n"
        } else {
            ""
        };
        let time = self.time_of_day();
        if let Ok(line) = format!(in self.rt.alloc(); "{below}{news}{time}\n") {
            self.out.show(line.as_str());
        }
    }

    /// Writes the link that has offered most once such a part of the steps is made.
    fn tell_loudest(&self, part: &str) {
        let (link, offered) = self.counts.loudest();
        let offered = Grouped(u64::from(offered));
        self.tell(&format_args!("{part} of the steps: link {link} offered most, {offered}"));
    }

    /// Writes the line of a second, where there is memory for it.
    fn write_line(&self) {
        let is_over = self.out.is_terminal();
        let (begin, end) = if is_over { ("\r", "") } else { ("", "\n") };
        let seen = self.counts.seen();
        self.said.store(seen.all(), Ordering::SeqCst);
        let time = self.time_of_day();
        if let Ok(line) = format!(in self.rt.alloc(); "{begin}{seen}{time}{end}") {
            self.is_open.store(is_over, Ordering::SeqCst);
            self.out.show(line.as_str());
        }
    }

    /// Whole seconds since it was made; 0 where the clock can't be read.
    fn elapsed(&self) -> u64 {
        match &self.start {
            Some(start) => match start.elapsed(self.rt) {
                Ok(time) => time.as_secs(),
                Err(_) => 0,
            },
            None => 0,
        }
    }

    /// Writes the line where it is due, and no other thread writes it.
    fn look(&self) {
        let now = self.elapsed();
        let due = self.due.load(Ordering::SeqCst);
        let next = now.saturating_add(1);
        if now >= due
            && self
                .due
                .compare_exchange(due, next, Ordering::SeqCst, Ordering::SeqCst)
                .is_ok()
        {
            self.write_line();
        }
    }

    /// Whether something was done since the last line.
    fn is_stale(&self) -> bool {
        self.said.load(Ordering::SeqCst) != self.counts.seen().all()
    }

    /// A step of a serve was made.
    fn step(&self, most: u32) {
        let made = self.counts.add_step();
        if made == most / 2 {
            self.tell_loudest("half");
        }
        if made == most / 10 * 9 {
            self.tell_loudest("nine tenths");
        }
        if made % LOOK == 0 {
            self.look();
        }
    }
}

impl<'r, R: Clock + AllocGlobal, O: Screen> Gate for Progress<'r, R, O> {
    fn enter<W: Wait>(&self, _rt: &W, _worker: u32, _ticket: u32) {
        let routed = self.counts.add_routed();
        let most = self.counts.most();
        if most != 0 {
            self.step(most);
        } else if routed % LOOK == 0 {
            self.look();
        }
    }

    fn made(&self, place: Place, step: Made) {
        self.counts.add_made(place, step);
        let most = self.counts.most();
        if most != 0 {
            self.step(most);
        }
    }

    fn ended(&self, place: Place, half: Half) {
        if self.counts.most() != 0 {
            let (link, half) = (place.link, half_word(half));
            self.tell(&format_args!("link {link} {half} ended"));
        }
    }
}

impl<'r, R: Clock + AllocGlobal, O: Screen> Watch for Progress<'r, R, O> {
    fn begin(&self, links: usize) {
        self.counts.set_links(links);
        self.look();
    }

    fn open(&self, steps: u32) {
        self.counts.set_most(steps);
    }

    fn came<W: Wait>(&self, _rt: &W, link: u32, peer: SocketAddr) {
        self.counts.add_link();
        self.tell(&format_args!("link {link} {peer} came"));
    }

    fn flooded(&self, link: u32, peer: SocketAddr, seconds: u32) {
        self.tell(&format_args!("link {link} {peer} disconnected: flooded for {seconds} s"));
    }

    /// What was done since the last line is said a second after that at the latest, also where nothing follows it.
    fn tick(&self) -> Option<Duration> {
        if self.is_stale() {
            self.look();
        }
        Some(Duration::from_secs(TICK))
    }

    /// The last line comes once more, where there was one and something was done since. On a terminal it is left.
    fn end(&self) {
        if self.said.load(Ordering::SeqCst) != 0 && self.is_stale() {
            self.write_line();
        }
        if self.is_open.swap(false, Ordering::SeqCst) {
            self.out.show("\n");
        }
    }

    /// The process ends then, and the system takes all its memory back at once.
    fn leave<T: Drop>(&self, rest: T) {
        let _left = ManuallyDrop::new(rest);
    }
}
