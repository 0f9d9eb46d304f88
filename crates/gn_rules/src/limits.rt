//! The numbers of a configuration, their limits, and those of a run.

ghost use Rattle.std.specs.Prelude.{◌≡◌};
ghost use Rattle.gn_rules.specs.Limits.{most_reads};

/// The numbers of a router.
#[derive(Clone, Copy, Debug, PartialEq, Eq)]
pub struct Numbers {
    /// Live connections at once.
    pub neighbours: u32,
    /// Descriptors that are remembered.
    pub seen: u32,
    /// Servents whose route is remembered.
    pub servents: u32,
    /// Descriptors in flight at once.
    pub stage: u32,
    /// Packets that wait for one connection.
    pub out: u32,
    /// Steps of a history.
    pub steps: u32,
    /// What TTL and Hops of a descriptor that is passed on are together at most; 0 is no limit.
    pub life: u8,
    /// Descriptors of one connection in flight at once; 0 is no threshold but that of all.
    pub crowd: u32,
}

impl Numbers {
    /// The greatest that each may be.
    pub const MOST: Numbers = Numbers {
        neighbours: 256,
        seen: 65_536,
        servents: 65_536,
        stage: 4_096,
        out: 4_096,
        steps: u32::MAX,
        life: u8::MAX,
        crowd: 4_096,
    };

    /// How many reads of one link may give bytes in a run: a million, or as many as the history may have steps, where these are more.
    pub fn most_reads(&self) -> u32
        ensures { result ≡ most_reads self.now.steps }
    {
        self.steps.max(1_000_000)
    }
}

/// The most links of a run or of a capture.
pub const MOST_LINKS: usize = 256;

/// The most workers of a run.
pub const MOST_WORKERS: u32 = 64;
