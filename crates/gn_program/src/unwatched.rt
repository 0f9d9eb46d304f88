//! A load or a serve that nobody watches.

use gn_links::{Gate, Watch};
use std::net::SocketAddr;
use std::sync::Wait;

/// Tells a watch nothing of a run but whom it lets go, where that is to be told, and leaves it what the run made.
#[derive(Drop)]
pub(crate) struct Unwatched<'w, G> {
    pub watch: &'w G,
    pub tells_floods: bool,
}

impl<'w, G> Gate for Unwatched<'w, G> {
    fn enter<W: Wait>(&self, _rt: &W, _worker: u32, _ticket: u32) {}
}

impl<'w, G: Watch> Watch for Unwatched<'w, G> {
    fn flooded(&self, link: u32, peer: SocketAddr, seconds: u32) {
        if self.tells_floods {
            self.watch.flooded(link, peer, seconds);
        }
    }

    fn leave<T: Drop>(&self, rest: T) {
        self.watch.leave(rest);
    }
}
