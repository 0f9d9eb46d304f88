//! Who sleeps.

ghost use Rattle.std.specs.Prelude.{◌<◌};

use crate::wakes::Wakes;
use gn_rules::{ConnId, Excerpt, Reply, Sending};
use std::alloc::Allocator;

/// How many words of 64 places there are for the writers of connections.
pub(crate) const WORDS: usize = 4;

/// Some of those who sleep: the writers of connections, each at the place of its number, which it may share with others, and who waits
/// at a door. What the hub's lock has of it says who is to be woken by a change. Whoever is told to wake them takes them out.
#[derive(Clone, Copy)]
pub(crate) struct Asleep {
    pub words: [u64; WORDS],
    pub at_door: bool,
}

/// The places of the connections that a reply queued a packet to: all that is kept of a reply that nobody gets.
#[derive(Clone, Copy)]
pub(crate) struct Queued {
    words: [u64; WORDS],
}

/// The word of a connection's place.
pub(crate) fn word_of(c: ConnId) -> usize
    ensures { result < 4 }
{
    (c / 64) as usize % WORDS
}

/// The bit of a connection's place in its word.
fn bit_of(c: ConnId) -> u64 {
    1 << (c % 64)
}

impl Queued {
    /// By what a reply sends.
    fn by<A: Allocator>(sends: &[Sending<A>]) -> Self {
        let mut words = [0; WORDS];
        for sent in sends {
            if sent.queued {
                words[word_of(sent.to)] |= bit_of(sent.to);
            }
        }
        Queued { words }
    }
}

impl<A: Allocator> Excerpt<A> for Queued {
    ghost tells = { λ queued reply. Unit {0} };

    fn of(reply: &Reply<A>) -> Self {
        Queued::by(reply.sends())
    }
}

impl Asleep {
    /// Nobody.
    pub fn nobody() -> Self {
        Asleep {
            words: [0; WORDS],
            at_door: false,
        }
    }

    /// With the writer of this connection.
    pub fn add_writer(&mut self, c: ConnId) {
        self.words[word_of(c)] |= bit_of(c);
    }

    /// With who waits at a door.
    pub fn add_door(&mut self) {
        self.at_door = true;
    }

    /// With these others.
    pub fn add(&mut self, others: Asleep) {
        for at in 0..WORDS {
            self.words[at] |= others.words[at];
        }
        self.at_door = self.at_door || others.at_door;
    }

    /// Takes out all.
    pub fn take_all(&mut self) -> Self {
        let all = *self;
        *self = Asleep::nobody();
        all
    }

    /// Takes out those who wait at a door.
    fn take_doors(&mut self) -> Self {
        let at_door = self.at_door;
        self.at_door = false;
        Asleep {
            words: [0; WORDS],
            at_door,
        }
    }

    /// Moves the writer of this connection to others, if it is one of these.
    fn move_writer(&mut self, c: ConnId, others: &mut Asleep) {
        let at = word_of(c);
        let bit = self.words[at] & bit_of(c);
        self.words[at] ^= bit;
        others.words[at] |= bit;
    }

    /// Takes out the writers of the connections that a packet was queued to.
    fn take_queued(&mut self, queued: Queued) -> Self {
        let mut writers = Asleep::nobody();
        for at in 0..WORDS {
            let word = self.words[at] & queued.words[at];
            self.words[at] ^= word;
            writers.words[at] = word;
        }
        writers
    }

    /// Takes out the writer of this connection.
    fn take_writer(&mut self, c: ConnId) -> Self {
        let mut writer = Asleep::nobody();
        self.move_writer(c, &mut writer);
        writer
    }

    /// Takes out those whom a change concerns, by whom it wakes, and what the reply of its step sends.
    pub fn take<A: Allocator>(&mut self, wakes: Wakes, sends: &[Sending<A>]) -> Self {
        match wakes {
            Wakes::Queued => self.take_queued(Queued::by(sends)),
            others => self.take_unqueued(others),
        }
    }

    /// As `take`, by what was kept of the reply.
    pub fn take_told(&mut self, wakes: Wakes, queued: Queued) -> Self {
        match wakes {
            Wakes::Queued => self.take_queued(queued),
            others => self.take_unqueued(others),
        }
    }

    /// Takes out those whom a change concerns that queued no packet.
    pub fn take_unqueued(&mut self, wakes: Wakes) -> Self {
        match wakes {
            Wakes::Nobody | Wakes::Queued => Asleep::nobody(),
            Wakes::Writer(c) => self.take_writer(c),
            Wakes::Doors => self.take_doors(),
            Wakes::Everybody => self.take_all(),
        }
    }
}
