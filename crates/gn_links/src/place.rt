//! Where a link stands in a run.

ghost use Rattle.std.specs.Prelude.{◌≡◌};

/// Where a link stands in a run: its number, and the slot that it has until it ends, from 0 on. Links that are there at once have
/// slots of their own, and an ended link's is another's later.
#[derive(Clone, Copy, Debug, PartialEq, Eq)]
pub struct Place {
    pub link: u32,
    pub slot: u32,
}

impl Place {
    /// That of the link of this number in a run whose links are all known as it begins: its slot has its number.
    pub fn of(number: u32) -> Self
        ensures { result ≡ record { link = number; slot = number } }
    {
        Place {
            link: number,
            slot: number,
        }
    }
}
