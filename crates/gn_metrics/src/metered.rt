//! A sink whose text is counted.

ghost use Rattle.std.specs.Prelude.{◌≡◌};

use crate::meters::Meters;
use crate::tally::Tally;
use gn_comments::{Lent, Naming};
use gn_io::{IoFault, Sink};
use std::marker::PhantomData;

/// Writes a text to the sink that `B` names, and counts what that took of it. It is seen as that sink.
#[derive(Drop)]
pub struct Metered<'a, 'm, B: Naming, W: Sink> {
    sink: &'a mut W,
    tally: Tally,
    meters: &'m Meters,
    of: PhantomData<B>,
    ghost here: { sink.ghost_name ≡ B.sink },
}

impl<'a, 'm, B: Naming, W: Sink> Metered<'a, 'm, B, W> {
    /// No text yet, over the sink that `B` names.
    pub fn new(lent: Lent<'a, W>, meters: &'m Meters) -> Self
        requires here { lent.sink.ghost_name ≡ B.sink }
        ensures { result.sink.now ≡ lent.entry.sink.now }
    {
        let Lent { sink } = lent;
        Metered {
            sink,
            tally: Tally::new(),
            meters,
            of: PhantomData,
        }
    }

    /// The sink, with all that was written.
    pub fn into_inner(self) -> Lent<'a, W>
        ensures here { result.sink.ghost_name ≡ B.sink }
        ensures same { result.sink.now ≡ self.entry.sink.now }
    {
        let Metered { sink, .. } = self;
        Lent { sink }
    }
}

impl<'a, 'm, B: Naming, W: Sink> Sink for Metered<'a, 'm, B, W> {
    ghost state = { λ s. W.state s.sink.now };

    fn write(&mut self, piece: &[u8]) -> Result<usize, IoFault> {
        let taken = self.sink.write(piece)?;
        self.tally.follow(&piece[..taken], self.meters);
        Ok(taken)
    }
}
