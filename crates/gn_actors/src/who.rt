//! Who acts in a run, and the numbers of the actors.

ghost use Rattle.std.specs.Prelude.{◌≡◌, ◌+◌, ◌<◌, ◌^◌};
ghost use Rattle.gn_actors.specs.declared.who.Numbering.TheVariants as variants_of;
ghost use Rattle.gn_actors.specs.Who.{IsActor, NumbersAreApart};
ghost use Rattle.gn_actors.specs.Who as numbers;

/// One of the callers of a router, by what it does.
#[derive(Clone, Copy)]
pub enum Who {
    /// It reads the link of this number.
    Reader(u32),
    /// It writes the link of this number.
    Writer(u32),
    /// The worker of this number.
    Worker(u32),
    /// It started the run.
    House,
}

/// How the actors of a run are numbered.
#[derive(Clone, Copy)]
pub enum Numbering {
    /// Where it is known how many links and workers the run has.
    Known { links: u32, workers: u32 },
    /// Where its links come one after another, and nobody says how many.
    Open { workers: u32 },
}

impl Numbering {
    /// The number of one of the run's actors. Of links that are known beforehand the house has the greatest; else it is the first, and
    /// the actors of each link have the next two after those of the link before it.
    pub fn number_of(&self, who: Who) -> u32
        requires few { numbers.most_beside self.now who < 2 ^ 32 }
        requires acts { IsActor self.now who }
        ensures { result ≡ numbers.number_of self.now who }
    {
        match *self {
            Numbering::Known { links, workers } => number_known(links, workers, who),
            Numbering::Open { workers } => number_open(workers, who),
        }
    }
}

/// The number of an actor of a run of so many links and workers.
fn number_known(links: u32, workers: u32, who: Who) -> u32
    requires few { links + links + workers < 2 ^ 32 }
    requires acts { IsActor (variants_of.Known links workers) who }
    ensures { result ≡ numbers.number_of (variants_of.Known links workers) who }
{
    match who {
        Who::Reader(link) => link,
        Who::Writer(link) => links + link,
        Who::Worker(worker) => links + links + worker,
        Who::House => links + links + workers,
    }
}

/// The number of an actor of a run of so many workers whose links come one after another.
fn number_open(workers: u32, who: Who) -> u32
    requires few { numbers.number_of (variants_of.Open workers) who < 2 ^ 32 }
    ensures { result ≡ numbers.number_of (variants_of.Open workers) who }
{
    match who {
        Who::Reader(link) => 1 + workers + (link + link),
        Who::Writer(link) => 2 + workers + (link + link),
        Who::Worker(worker) => 1 + worker,
        Who::House => 0,
    }
}

/// The law that no two actors of a run have one number.
pub fn numbers_are_apart()
    ensures { NumbersAreApart }
{}
