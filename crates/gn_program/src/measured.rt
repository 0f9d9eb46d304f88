//! An input of which it is known whether its last line is whole.

use crate::head::last_feed;
use gn_io::{IoFault, Source};

/// A source, how many bytes it gave, and how many of them are whole lines.
#[derive(Drop)]
pub(crate) struct Measured<S> {
    source: S,
    given: u64,
    whole: u64,
}

impl<S> Measured<S> {
    /// It gave none yet.
    pub(crate) fn new(source: S) -> Self {
        Measured {
            source,
            given: 0,
            whole: 0,
        }
    }

    /// Whether what was given ends within a line.
    pub(crate) fn is_cut(&self) -> bool {
        self.whole != self.given
    }

    /// How many bytes of what was given are whole lines.
    pub(crate) fn whole(&self) -> u64 {
        self.whole
    }
}

impl<S: Source> Source for Measured<S> {
    ghost state = { λ m. S.state m.source };

    fn read(&mut self, room: &mut [u8]) -> Result<usize, IoFault> {
        let count = self.source.read(room)?;
        if let Some(at) = last_feed(&room[..count]) {
            self.whole = self.given.saturating_add(at as u64).saturating_add(1);
        }
        self.given = self.given.saturating_add(count as u64);
        Ok(count)
    }
}
