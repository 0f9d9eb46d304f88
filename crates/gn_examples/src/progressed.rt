//! The lines of a run's progress, by a clock that stands still.

use gn_links::{Gate, Half, Made, Place, Watch};
use gn_progress::{Progress, Screen};
use std::alloc::Global;
use std::cell::Cell;
use std::io;
use std::net::{Ipv4Addr, SocketAddr};
use std::sync::Wait;
use std::time::{Clock, Duration};

/// A clock that is set by hand, in seconds. At its 0 it is 12:34:56.
#[derive(Drop)]
struct Still<'c>(&'c Cell<u64>);

impl Clock for Still<'_> {
    fn monotonic(&self) -> io::Result<Duration> {
        Ok(Duration::from_secs(self.0.get()))
    }

    fn since_1970(&self) -> io::Result<Duration> {
        Ok(Duration::from_secs(self.0.get().saturating_add(45_296)))
    }
}

/// A screen that is to show a text, and what of it is still to come; none, once it has shown another.
#[derive(Drop)]
struct Expecting<'c>(&'c Cell<Option<&'static str>>);

impl Screen for Expecting<'_> {
    fn is_terminal(&self) -> bool {
        false
    }

    fn show(&self, text: &str) {
        let rest = self.0.get().and_then(|rest| rest.strip_prefix(text));
        self.0.set(rest);
    }
}

/// A serve of as many steps as there may be: a link comes, and brings 1,005 descriptors, most of them after a second, and 7 that
/// are refused. Then nothing is done for three seconds, and it is disconnected.
const SERVE: &str = "\
link 0 127.0.0.1:5000 came at 12:34:56
routed 0 of 65 admitted, 1 links, 0 busy, 4,294,967,230 steps left at 12:34:57
routed 0 of 1,005 admitted, 1 links, 7 busy, 4,294,966,283 steps left at 12:34:58
link 0 127.0.0.1:5000 disconnected: flooded for 3 s at 12:35:00
link 0 reader ended at 12:35:00
routed 0 of 1,006 admitted, 1 links, 7 busy, 4,294,966,282 steps left at 12:35:00
";

/// Nothing is done from second 1 to 3.
fn rest<W: Watch>(watch: &W, now: &Cell<u64>) {
    for second in 1..4 {
        now.set(second);
        let _ = watch.tick();
    }
}

/// The first descriptors come, the clock at a second from the 65th on.
fn admit<W: Watch>(watch: &W, now: &Cell<u64>) {
    for ticket in 0..1_005 {
        if ticket == 64 {
            now.set(1);
        }
        watch.made(Place::of(0), Made::Admitted(ticket));
    }
}

/// Makes the run of `SERVE`.
fn serve<W: Watch, R: Wait>(rt: &R, watch: &W, now: &Cell<u64>) {
    watch.open(u32::MAX);
    watch.came(rt, 0, SocketAddr::from((Ipv4Addr::LOCALHOST, 5_000)));
    admit(watch, now);
    watch.made(Place::of(0), Made::Refused { own: false });
    for _ in 0..6 {
        watch.made(Place::of(0), Made::Refused { own: true });
    }
    rest(watch, now);
    now.set(4);
    watch.flooded(0, SocketAddr::from((Ipv4Addr::LOCALHOST, 5_000)), 3);
    watch.ended(Place::of(0), Half::Reader);
    watch.made(Place::of(0), Made::Admitted(1_005));
    watch.end();
}

/// A serve of at most 20 steps, of which link 3 makes 19 and link 1 one.
const FULL: &str = "\
half of the steps: link 3 offered most, 10 at 12:34:56
nine tenths of the steps: link 3 offered most, 18 at 12:34:56
";

/// Makes the run of `FULL`. The clock stands still.
fn fill<W: Watch>(watch: &W, _now: &Cell<u64>) {
    watch.open(20);
    watch.made(Place::of(1), Made::Admitted(0));
    for ticket in 1..20 {
        watch.made(Place::of(3), Made::Admitted(ticket));
    }
    watch.end();
}

/// A load of 6 links, of whose 70 jobs the 65th is taken after a second.
const LOAD: &str = "\
routed 65 of 70 admitted, 6 links at 12:34:57
routed 70 of 70 admitted, 6 links at 12:34:57
";

/// Makes the run of `LOAD`.
fn load<W: Watch, R: Wait>(rt: &R, watch: &W, now: &Cell<u64>) {
    watch.begin(6);
    for ticket in 0..70 {
        watch.made(Place::of(0), Made::Admitted(ticket));
    }
    for ticket in 0..70 {
        if ticket == 64 {
            now.set(1);
        }
        watch.enter(rt, 0, ticket);
    }
    watch.end();
}

/// Whether each run shows its lines, and no others.
pub(crate) fn are_shown<R: Wait + AllocGlobal>(rt: &R) -> bool {
    let rows = [SERVE, FULL, LOAD];
    for (row, lines) in rows.iter().enumerate() {
        let now = Cell::new(0);
        let expected = Cell::new(Some(*lines));
        let clock: (Still<'_>, Global) = (Still(&now), rt.alloc());
        let progress = Progress::new(&clock, Expecting(&expected));
        match row {
            0 => serve(rt, &progress, &now),
            1 => fill(&progress, &now),
            _ => load(rt, &progress, &now),
        }
        drop(progress);
        if expected.get() != Some("") {
            return false;
        }
    }
    true
}
