//! What was counted at a look.

ghost use Rattle.std.specs.Prelude.{◌≡◌};
ghost use Rattle.gn_metrics.specs.Sums.{sum_up};

use gn_rules::Counter;

/// How many counters there are.
pub const COUNTERS: usize = Counter::ALL.len();

/// What was counted of a run and its history at a look.
#[derive(Clone, Copy)]
pub struct Look {
    /// How many steps of the history that was written had each reply or reason to drop, in the order of `Counter::ALL`.
    pub counts: [u32; COUNTERS],
    /// How many bytes of the history were written, with its comments.
    pub bytes: u64,
    /// How many steps the threads of links and workers have made.
    pub made: u64,
    /// How many links have come.
    pub links: u64,
    /// The most steps that the history may have.
    pub most: u32,
    /// When the run began, in seconds since 1970; 0 where the clock couldn't be read.
    pub since: u64,
}

/// The sum of some counts, at most the last u64.
fn sum_of(counts: &[u32]) -> u64
    ensures { result ≡ sum_up counts.now }
{
    let mut sum = 0u64;
    for count in counts {
        sum = sum.saturating_add(u64::from(*count));
    }
    sum
}

impl Look {
    ghost use Rattle.gn_metrics.specs.Counted.{connections_of, count_at, in_flight_of, steps_of};

    /// How many steps this counter counts.
    pub(crate) fn count(&self, counter: Counter) -> u32
        ensures { result ≡ count_at self.now counter }
    {
        self.counts[counter as usize]
    }

    /// How many steps of the history were written.
    pub fn steps(&self) -> u64
        ensures { result ≡ steps_of self.now }
    {
        sum_of(&self.counts)
    }

    /// How many connections are live by the history that was written.
    pub fn connections(&self) -> u64
        ensures { result ≡ connections_of self.now }
    {
        let connected = self.count(Counter::Connected);
        u64::from(connected.saturating_sub(self.count(Counter::Closed)))
    }

    /// How many descriptors are in flight by the history that was written.
    pub fn in_flight(&self) -> u64
        ensures { result ≡ in_flight_of self.now }
    {
        // the counters of what becomes of a ticket stand side by side
        let routed = sum_of(&self.counts[Counter::Routed as usize..=Counter::Expired as usize]);
        u64::from(self.count(Counter::Admitted)).saturating_sub(routed)
    }
}
