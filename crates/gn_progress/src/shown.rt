//! How numbers and times are written in a line.

use crate::counts::Seen;
use std::fmt::{self, Display, Formatter, Write};

/// A number with a comma before each three digits.
#[derive(Clone, Copy)]
pub(crate) struct Grouped(pub(crate) u64);

impl Display for Grouped {
    fn fmt<W: Write>(&self, f: &mut Formatter<W>) -> fmt::Result {
        let number = self.0;
        let (thousands, ones) = (number / 1_000 % 1_000, number % 1_000);
        if number < 1_000 {
            write!(f, "{ones}")
        } else if number < 1_000_000 {
            write!(f, "{thousands},{ones:03}")
        } else if number < 1_000_000_000 {
            let millions = number / 1_000_000;
            write!(f, "{millions},{thousands:03},{ones:03}")
        } else {
            let (billions, millions) = (number / 1_000_000_000, number / 1_000_000 % 1_000);
            write!(f, "{billions},{millions:03},{thousands:03},{ones:03}")
        }
    }
}

/// What was done; of a serve also how many steps are left.
impl Display for Seen {
    fn fmt<W: Write>(&self, f: &mut Formatter<W>) -> fmt::Result {
        let routed = Grouped(u64::from(self.routed));
        let admitted = Grouped(u64::from(self.admitted));
        let links = Grouped(self.links);
        write!(f, "routed {routed} of {admitted} admitted, {links} links")?;
        if self.most == 0 {
            return Ok(());
        }
        let busy = Grouped(u64::from(self.busy));
        let left = Grouped(u64::from(self.most.saturating_sub(self.steps)));
        write!(f, ", {busy} busy, {left} steps left")
    }
}

/// Seconds of a day, as the end of a line has them; none where the clock couldn't be read.
#[derive(Clone, Copy)]
pub(crate) struct TimeOfDay(pub(crate) Option<u64>);

impl Display for TimeOfDay {
    fn fmt<W: Write>(&self, f: &mut Formatter<W>) -> fmt::Result {
        let Some(time) = self.0 else {
            return Ok(());
        };
        let (hours, minutes, seconds) = (time / 3_600, time / 60 % 60, time % 60);
        write!(f, " at {hours:02}:{minutes:02}:{seconds:02}")
    }
}
