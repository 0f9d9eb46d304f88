//! Who is told of each link as it ends, of a run that keeps nothing of those that have ended.

ghost use Rattle.std.specs.Prelude.{◌++◌, ◌∷◌, [], List, None, Option, Some, slice_set, IsSome, OnOk};
ghost use Rattle.std.specs.Option.{option_map};
ghost use Rattle.gn_report.specs.declared.account.LinkEnd.{LinkEnd};
ghost use Rattle.gn_report.specs.declared.account.LinkEnd.TheVariants.{Cut, Whole};

use crate::account::{LinkAccount, LinkTally};
use crate::keeping::Keeping;
use std::alloc::{AllocError, Allocator};

/// Learns of each link as it ends.
pub trait Leaving<Rd, W, A: Allocator> {
    /// This link has ended so.
    fn left(&self, _link: u32, _account: &LinkAccount<Rd, W, A>) {}

    /// This link was cut off, and this is what its two actors counted.
    fn cut(&self, _link: u32, _tally: LinkTally) {}
}

/// Tells somebody of each link as it ends, and keeps nothing.
#[derive(Drop)]
pub struct Telling<'a, T> {
    to: &'a T,
}

impl<'a, T> Telling<'a, T> {
    /// Tells this.
    pub fn new(to: &'a T) -> Self {
        Telling { to }
    }
}

impl<'a, Rd: Drop, W: Drop, A: Allocator, T: Leaving<Rd, W, A>> Keeping<Rd, W, A>
    for Telling<'a, T> {
    ghost use Rattle.std.specs.Prelude.{⊤};

    ghost keeps = { λ telling all. ⊤ };

    fn came(&mut self) -> Result<(), AllocError> {
        Ok(())
    }

    fn ended(
        &mut self,
        link: u32,
        account: &mut Option<LinkAccount<Rd, W, A>>,
    ) -> Result<(), AllocError> {
        if let Some(ended) = &*account {
            self.to.left(link, ended);
        }
        *account = None;
        Ok(())
    }

    fn cut(&mut self, link: u32, tally: LinkTally) {
        self.to.cut(link, tally);
    }
}
