//! The links of a run that have come and not ended.

use crate::stop::earlier;
use gn_links::Half;
use gn_tcp::TcpStopper;
use std::alloc::{AllocError, Allocator, Global};
use std::net::SocketAddr;
use std::time::Duration;

/// A link that has come and not ended. Times are since the run began.
#[derive(Drop)]
struct Live {
    link: u32,
    peer: SocketAddr,
    stopper: TcpStopper,
    reader_ended: bool,
    writer_ended: bool,
    /// When it is shut; `None`: at no time yet.
    due: Option<Duration>,
    is_shut: bool,
}

impl Live {
    /// A half has ended. Where that is the writer the link is shut at this time.
    fn end(&mut self, half: Half, due: Duration) {
        match half {
            Half::Reader => self.reader_ended = true,
            Half::Writer => {
                self.writer_ended = true;
                self.due = Some(due);
            }
        }
    }

    /// Whether both of its halves have.
    fn has_ended(&self) -> bool {
        self.reader_ended && self.writer_ended
    }

    /// When it is shut, where all are at this time.
    fn shut_at(&self, until: Option<Duration>) -> Option<Duration> {
        if self.is_shut {
            None
        } else {
            earlier(self.due, until)
        }
    }

    /// Ends both of its halves from outside, once.
    fn shut(&mut self) {
        self.is_shut = true;
        self.stopper.shut();
    }

    /// The same, where that wasn't done before. Whose link it was then.
    fn let_go(&mut self) -> Option<SocketAddr> {
        if self.is_shut {
            return None;
        }
        self.shut();
        Some(self.peer)
    }
}

/// Whether this time has come; where the clock can't be read, it has.
fn has_come(at: Duration, now: Option<Duration>) -> bool {
    match now {
        Some(now) => at <= now,
        None => true,
    }
}

/// The links of a run that have come and not ended, and when all of them are shut. It has as many slots as there were such links at once.
pub(crate) struct LiveLinks<A: Allocator = Global> {
    links: Vec<Option<Live>, A>,
    until: Option<Duration>,
}

impl<A: Allocator> Drop for LiveLinks<A> {
    fn drop(self) {
        let LiveLinks { links: _, until: _ } = self;
    }
}

impl<A: Allocator> LiveLinks<A> {
    /// No link has come.
    pub(crate) fn new(alloc: A) -> Self {
        LiveLinks {
            links: Vec::new(alloc),
            until: None,
        }
    }

    /// A link to this peer has come. It takes the slot of one that has ended, where there is such a one.
    pub(crate) fn add(
        &mut self,
        link: u32,
        peer: SocketAddr,
        stopper: TcpStopper,
    ) -> Result<(), AllocError> {
        let live = Live {
            link,
            peer,
            stopper,
            reader_ended: false,
            writer_ended: false,
            due: None,
            is_shut: false,
        };
        for slot in &mut self.links {
            if slot.is_none() {
                *slot = Some(live);
                return Ok(());
            }
        }
        self.links.push(Some(live))?;
        Ok(())
    }

    /// A half of a link has ended. Its handle is given up where both have; else it is shut at this time, where this is its
    /// writer. Whether both have; `None`: the link never came.
    pub(crate) fn end(&mut self, link: u32, half: Half, due: Duration) -> Option<bool> {
        for slot in &mut self.links {
            let has_ended = match slot {
                Some(live) if live.link == link => {
                    live.end(half, due);
                    live.has_ended()
                }
                _ => continue,
            };
            if has_ended {
                *slot = None;
            }
            return Some(has_ended);
        }
        None
    }

    /// Shuts this link at once, where it has come and wasn't shut before. Whose it was then.
    pub(crate) fn let_go(&mut self, link: u32) -> Option<SocketAddr> {
        for slot in &mut self.links {
            match slot {
                Some(live) if live.link == link => return live.let_go(),
                _ => {}
            }
        }
        None
    }

    /// All links are shut at this time, or at an earlier one that was said before.
    pub(crate) fn end_all(&mut self, until: Duration) {
        self.until = earlier(self.until, Some(until));
    }

    /// Shuts each link whose time has come. When the next one's comes.
    pub(crate) fn shut_due(&mut self, now: Option<Duration>) -> Option<Duration> {
        let mut next = None;
        let until = self.until;
        for slot in &mut self.links {
            if let Some(live) = slot {
                match live.shut_at(until) {
                    Some(at) if has_come(at, now) => live.shut(),
                    at => next = earlier(next, at),
                }
            }
        }
        next
    }
}
