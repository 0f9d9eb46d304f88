//! What a replay prints beside the steps of its router: nothing, where these are printed alone.

ghost use Rattle.std.specs.Prelude.{◌≡◌, ◌++◌, OnOk};
ghost use Rattle.gn_rules.specs.Statistics.{stats_of};
ghost use Rattle.gn_text.specs.Statistics.{stats_text};
ghost use Rattle.gn_replay.specs.Events.{prints};
ghost use Rattle.gn_replay.specs.Playing.{after_playing};
ghost use Rattle.gn_replay.specs.Sayings.{saying_text};

use crate::form::Form;
use crate::playing::Play;
use gn_rules::{Refusal, RouterCore};
use gn_text::{push_ended, push_frame_fault, push_greeting_refused, push_refusal, push_stats};
use gn_wire::FrameFault;
use std::alloc::{AllocError, Allocator};

/// A line that is no step's.
#[derive(Clone, Copy)]
pub(crate) enum Saying {
    /// An event was refused.
    Refused(Refusal),
    /// Link i can't have what it was given.
    Fault(u32, FrameFault),
    /// The greeting of link i was refused.
    GreetingRefused(u32),
    /// Link i has ended.
    Ended(u32),
}

/// Appends a line that is no step's.
fn push_saying<A: Allocator>(out: &mut Vec<u8, A>, saying: Saying) -> Result<(), AllocError>
    ensures { OnOk result (out.new.items ≡ out.old.items ++ saying_text saying) }
{
    match saying {
        Saying::Refused(refusal) => push_refusal(out, refusal),
        Saying::Fault(i, fault) => push_frame_fault(out, i, fault),
        Saying::GreetingRefused(i) => push_greeting_refused(out, i),
        Saying::Ended(i) => push_ended(out, i),
    }
}

impl<A: Allocator + Copy, C: RouterCore<A>> Play<A, C> {
    /// Says what is no step.
    pub(crate) fn say(&mut self, saying: Saying) -> Result<(), AllocError>
        ensures { OnOk result (self.new ≡ after_playing self.old (prints self.old.past (saying_text saying))) }
    {
        match self.form {
            Form::Whole => push_saying(&mut self.out, saying),
            Form::Steps => Ok(()),
        }
    }

    /// Says the counters.
    pub(crate) fn say_counters(&mut self) -> Result<(), AllocError>
        ensures { OnOk result (self.new
            ≡ after_playing self.old (prints self.old.past (stats_text (stats_of self.old.past)))) }
    {
        match self.form {
            Form::Whole => push_stats(&mut self.out, &self.core.stats()),
            Form::Steps => Ok(()),
        }
    }
}
