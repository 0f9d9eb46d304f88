//! What a serve says beside its history, as comments: when it was written, and who its neighbours are.

use crate::calls::{Calls, UNSAID};
use crate::serve::ServeOptions;
use crate::serves::calls_again;
use gn_comments::{Commenter, Comments};
use std::alloc::{AllocError, Global};
use std::fmt;
use std::fmt::{Display, Formatter, Write};
use std::net::SocketAddr;
use std::sync::Wait;
use std::time::{Clock, Duration};

/// The least microseconds between two times that are said.
const BETWEEN: u128 = 1_000;

/// A time since 1970. Its text is that of its comment.
#[derive(Clone, Copy)]
struct Moment(Duration);

impl Display for Moment {
    fn fmt<W: Write>(&self, f: &mut Formatter<W>) -> fmt::Result {
        write!(f, "t {}.{:06}", self.0.as_secs(), self.0.subsec_micros())
    }
}

/// A link, by the actor that reads it, and the peer that came. Its text is that of its comment.
#[derive(Clone, Copy)]
struct Neighbour {
    reader: u64,
    peer: SocketAddr,
    is_called: bool,
}

impl Display for Neighbour {
    fn fmt<W: Write>(&self, f: &mut Formatter<W>) -> fmt::Result {
        let how = if self.is_called { "called" } else { "accepted" };
        write!(f, "link {} {} {how}", self.reader, self.peer)
    }
}

/// What is asked for of a serve's times and links, and what was said so far.
#[derive(Drop)]
pub(crate) struct Remarks<'a, 'w, R, G> {
    rt: &'a R,
    alloc: Global,
    calls: &'a Calls<'w, G>,
    /// The peers that it calls, and whether it calls them again.
    peers: &'a [SocketAddr],
    again: bool,
    /// How many workers it has, where any number of callers is taken.
    workers: Option<u32>,
    times: bool,
    links: bool,
    /// The last time that was said.
    last: Duration,
    /// The link that is said next, where it is known.
    next: Option<(u32, SocketAddr)>,
}

/// Adds the comment that this value's text is.
fn say<D: Display + Drop>(
    alloc: Global,
    value: D,
    comments: &mut Comments,
) -> Result<(), AllocError> {
    let text = format!(in alloc; "{value}")?;
    comments.add(text.as_bytes())
}

impl<'a, 'w, R: Clock + Wait, G> Remarks<'a, 'w, R, G> {
    /// Nothing was said yet.
    pub(crate) fn new(
        rt: &'a R,
        alloc: Global,
        calls: &'a Calls<'w, G>,
        peers: &'a [SocketAddr],
        serving: &ServeOptions,
    ) -> Self {
        Remarks {
            rt,
            alloc,
            calls,
            peers,
            again: calls_again(serving),
            workers: serving.accept.is_none().then_some(serving.workers),
            times: serving.times,
            links: serving.links,
            last: Duration::ZERO,
            next: None,
        }
    }

    /// The number of the actor that reads this link.
    fn reader_of(&self, link: u32) -> u64 {
        match self.workers {
            None => u64::from(link),
            Some(workers) => 1 + u64::from(workers) + 2 * u64::from(link),
        }
    }

    /// Whether the peer of this link was called: over one of the first links, or over any, where peers are called again.
    fn is_called(&self, link: u32, peer: SocketAddr) -> bool {
        if self.again {
            self.peers.contains(&peer)
        } else {
            (link as usize) < self.peers.len()
        }
    }

    /// Says a link whose peer has come.
    fn say_link(
        &self,
        link: u32,
        peer: SocketAddr,
        comments: &mut Comments,
    ) -> Result<(), AllocError> {
        let neighbour = Neighbour {
            reader: self.reader_of(link),
            peer,
            is_called: self.is_called(link, peer),
        };
        say(self.alloc, neighbour, comments)
    }

    /// Says each link whose peer has come by now, once.
    fn say_links(&mut self, comments: &mut Comments) -> Result<(), AllocError> {
        for _ in 0..UNSAID {
            if self.next.is_none() {
                self.next = self.calls.next_came(self.rt);
            }
            let Some((link, peer)) = self.next else {
                return Ok(());
            };
            self.say_link(link, peer, comments)?;
            self.next = None;
        }
        Ok(())
    }

    /// Says the time, where a millisecond has gone by since it was said.
    fn say_time(&mut self, comments: &mut Comments) -> Result<(), AllocError> {
        let Ok(now) = self.rt.since_1970() else {
            return Ok(());
        };
        if now.saturating_sub(self.last).as_micros() < BETWEEN {
            return Ok(());
        }
        say(self.alloc, Moment(now), comments)?;
        self.last = now;
        Ok(())
    }
}

impl<'a, 'w, R: Clock + Wait, G> Commenter for Remarks<'a, 'w, R, G> {
    /// Where memory is wanting for one it is left out, and said later.
    fn comment(&mut self, comments: &mut Comments) {
        if self.times {
            let _ = self.say_time(comments);
        }
        if self.links {
            let _ = self.say_links(comments);
        }
    }
}
