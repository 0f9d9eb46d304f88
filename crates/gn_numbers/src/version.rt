//! The versions of the texts: which numbers a configuration's line has after the sixth in each.

ghost use Rattle.std.specs.Prelude.{◌≡◌, map};
ghost use Rattle.gn_numbers.specs.Versions.{later_parsed, version_for};

use crate::numbers::{number, number_u8};
use gn_rules::Numbers;

/// Which numbers the `config` line of a text has.
#[derive(Clone, Copy, Debug, PartialEq, Eq)]
pub enum Version {
    /// `K N M T W H`.
    First,
    /// `K N M T W H L`: also the limit on a descriptor's life.
    Second,
    /// `K N M T W H L Q`: also the threshold of a connection.
    Third,
}

/// The numbers of a configuration after the sixth; 0 where a version hasn't one.
#[derive(Clone, Copy, Debug, PartialEq, Eq)]
pub struct Later {
    pub life: u8,
    pub crowd: u32,
}

/// The least version that can say these numbers.
pub fn least_version(numbers: &Numbers) -> Version
    ensures { result ≡ version_for numbers.now }
{
    if numbers.crowd != 0 {
        return Version::Third;
    }
    if numbers.life != 0 {
        return Version::Second;
    }
    Version::First
}

/// What the fields after the sixth number say in this version.
pub fn read_later(version: Version, fields: &[&[u8]]) -> Option<Later>
    ensures { result ≡ later_parsed version (map (λ x. x.now) fields.now) }
{
    match (version, fields) {
        (Version::First, []) => Some(Later { life: 0, crowd: 0 }),
        (Version::Second, [life]) => Some(Later {
            life: number_u8(life)?,
            crowd: 0,
        }),
        (Version::Third, [life, crowd]) => Some(Later {
            life: number_u8(life)?,
            crowd: number(crowd)?,
        }),
        _ => None,
    }
}
