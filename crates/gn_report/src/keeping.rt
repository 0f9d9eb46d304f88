//! What becomes of the account of each link as the link ends.

ghost use Rattle.std.specs.Prelude.{◌≡◌, ◌++◌, ◌∷◌, [], List, None, Option, Some, slice_set, IsSome, OnOk};
ghost use Rattle.std.specs.Option.{option_map};
ghost use Rattle.gn_report.specs.declared.account.LinkEnd.{LinkEnd};
ghost use Rattle.gn_report.specs.declared.account.LinkEnd.TheVariants.{Cut, Whole};

use crate::account::{LinkAccount, LinkTally};
use std::alloc::{AllocError, Allocator};

/// Who is lent the account of each link as the link ends. A report over memory keeps it, a serve tells of it.
pub trait Keeping<Rd, W, A: Allocator>: Drop {
    ghost use Rattle.std.specs.Prelude.{List, Option};
    ghost use Rattle.gn_report.specs.declared.account.LinkEnd.{LinkEnd};

    /// What it keeps of all links that came, in the order of their numbers. None: it hasn't ended.
    ghost keeps: { Self → List (Option (LinkEnd Rd W A)) → Type 0 };

    /// One more came.
    fn came(&mut self) -> Result<(), AllocError>
        ensures { (all : List (Option (LinkEnd Rd W A))) → keeps self.old all
            → OnOk result (keeps self.new (all ++ None ∷ [])) };

    /// One has ended.
    fn ended(
        &mut self,
        link: u32,
        account: &mut Option<LinkAccount<Rd, W, A>>,
    ) -> Result<(), AllocError>
        requires { IsSome account.old }
        ensures { (all : List (Option (LinkEnd Rd W A))) → keeps self.old all
            → OnOk result (keeps self.new (slice_set all link (option_map (λ a. Whole a) account.old))) };

    /// One was cut off: the run stops, and this is what its two actors counted.
    fn cut(&mut self, link: u32, tally: LinkTally)
        ensures { (all : List (Option (LinkEnd Rd W A))) → keeps self.old all
            → keeps self.new (slice_set all link (Some (Cut tally))) };
}
