//! What a scribe leaves once no more steps come.

ghost use Rattle.std.specs.Prelude.{◌≡◌, false};
ghost use Rattle.rtrb.specs.Ring.{IsPair, sent};
ghost use Rattle.gn_scribe.specs.Written.{HasEnded};

use crate::scribe::{Nobody, Scribe};
use gn_io::Sink;
use gn_printed::{PrintFault, Waiting};
use gn_rules::Step;
use rtrb::Producer;
use std::alloc::Allocator;

impl<A: Allocator + Copy> Scribe<A> {
    /// Writes the lines of the steps that are left of a ring, with its other end, if all could be written so far. What of the text
    /// waits to be written.
    pub fn end<W: Sink>(
        self,
        written: Result<(), PrintFault>,
        producer: &mut Producer<Step<A>, A>,
        sink: &mut W,
    ) -> Result<Waiting<A>, PrintFault>
        requires { IsPair producer.old self.steps }
        ensures { HasEnded self (sent producer.old) (W.state sink.old) (W.state sink.new) written result }
    {
        let mut scribe = self;
        let count = scribe.steps.slots_beside(producer);
        written?;
        scribe.write_known(count, &Nobody, sink)?;
        let Scribe {
            block,
            is_begun,
            ..
        } = scribe;
        Ok(Waiting { block, is_begun })
    }

    /// What waits to be written, where no step is taken.
    pub fn give_up(self) -> Waiting<A>
        ensures block { result.block ≡ self.block }
        ensures begun { result.is_begun ≡ false }
    {
        let Scribe { block, .. } = self;
        Waiting {
            block,
            is_begun: false,
        }
    }
}
