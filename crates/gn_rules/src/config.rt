//! The router's own servent, and the numbers that bound it.

ghost use Rattle.std.specs.Prelude.{◌≡◌, ◌↔◌, IsTrue, IfOk, IfErr};
ghost use Rattle.gn_rules.specs.Limits.{AreWithin, IsWithin};

use crate::limits::Numbers;
use gn_wire::Guid;

/// The local servent, as the router's Pongs describe it.
#[derive(Clone, Copy, Debug, PartialEq, Eq)]
pub struct Own {
    pub servent: Guid,
    /// In network order: the first byte is the first that is written between dots.
    pub ip: [u8; 4],
    pub port: u16,
    /// How many files it shares.
    pub files: u32,
    /// Kilobytes that it shares.
    pub kbytes: u32,
}

/// A configuration: its numbers, each within its limit, and the local servent.
#[derive(Clone, Copy, Debug)]
pub struct Config {
    pub numbers: Numbers,
    pub own: Own,
    pub ghost within: { AreWithin numbers },
}

/// A number of a configuration, in the order in which they are looked at.
#[derive(Clone, Copy, Debug, PartialEq, Eq)]
pub enum Field {
    Neighbours,
    Seen,
    Servents,
    Stage,
    Out,
    Steps,
    Crowd,
}

/// The first number that is out of its limit.
#[derive(Clone, Copy, Debug, PartialEq, Eq)]
pub struct BadConfig(pub Field);

impl Config {
    ghost use Rattle.gn_rules.specs.Settings.{IsFirstOut, IsMadeOf};

    /// These numbers, where each is within its limit; else the first that isn't. Every `life` is, so no field names it.
    pub fn new(
        neighbours: u32,
        seen: u32,
        servents: u32,
        stage: u32,
        out: u32,
        steps: u32,
        life: u8,
        crowd: u32,
        own: Own,
    ) -> Result<Config, BadConfig>
        ensures made { IfOk result (λ config. IsMadeOf config
            (record {
              neighbours = neighbours;
              seen = seen;
              servents = servents;
              stage = stage;
              out = out;
              steps = steps;
              life = life;
              crowd = crowd;
            }) own) }
        ensures first { IfErr result (λ bad. IsFirstOut bad.0
            (record {
              neighbours = neighbours;
              seen = seen;
              servents = servents;
              stage = stage;
              out = out;
              steps = steps;
              life = life;
              crowd = crowd;
            })) }
    {
        Config::of(
            Numbers {
                neighbours,
                seen,
                servents,
                stage,
                out,
                steps,
                life,
                crowd,
            },
            own,
        )
    }

    /// These numbers, each of which is within its limit.
    pub fn with(numbers: Numbers, own: Own) -> Config
        requires { AreWithin numbers }
        ensures { IsMadeOf result numbers own }
    {
        Config { numbers, own }
    }

    /// As `new`, of numbers that stand together.
    pub fn of(numbers: Numbers, own: Own) -> Result<Config, BadConfig>
        ensures made { IfOk result (λ config. IsMadeOf config numbers own) }
        ensures first { IfErr result (λ bad. IsFirstOut bad.0 numbers) }
    {
        match numbers.first_out() {
            Some(field) => Err(BadConfig(field)),
            None => Ok(Config::with(numbers, own)),
        }
    }
}

impl Numbers {
    ghost use Rattle.std.specs.Prelude.{IfNone, IfSome};
    ghost use Rattle.gn_rules.specs.Settings.{IsFirstOut};

    /// The first of them that is out of its limit. Every `life` is within, so no field names it.
    pub fn first_out(self) -> Option<Field>
        ensures within { IfNone result (AreWithin self) }
        ensures first { IfSome result (λ field. IsFirstOut field self) }
    {
        if !is_within(self.neighbours, Numbers::MOST.neighbours) {
            return Some(Field::Neighbours);
        }
        if !is_within(self.seen, Numbers::MOST.seen) {
            return Some(Field::Seen);
        }
        if !is_within(self.servents, Numbers::MOST.servents) {
            return Some(Field::Servents);
        }
        if !is_within(self.stage, Numbers::MOST.stage) {
            return Some(Field::Stage);
        }
        if !is_within(self.out, Numbers::MOST.out) {
            return Some(Field::Out);
        }
        if !is_within(self.steps, Numbers::MOST.steps) {
            return Some(Field::Steps);
        }
        if self.crowd > Numbers::MOST.crowd {
            return Some(Field::Crowd);
        }
        None
    }
}

/// Whether two configurations are equal, their servents with them.
pub fn is_same_config(a: &Config, b: &Config) -> bool
    ensures { IsTrue result ↔ (a.now ≡ b.now) }
{
    a.numbers == b.numbers && a.own == b.own
}

/// Whether a number is from 1 to its limit.
fn is_within(number: u32, most: u32) -> bool
    ensures { IsTrue result ↔ IsWithin number most }
{
    1 <= number && number <= most
}
