//! Where the links of a run come from.

ghost use Rattle.std.specs.Prelude.{◌≡◌, ◌<◌, ◌∷◌, ℕ, Bool, List, map, IfErr, IfOk};
ghost use Rattle.gn_links.specs.Halves.{IsNewReader, IsNewWriter};
ghost use Rattle.gn_start.specs.Faults.{IsArrivingFault};

use gn_links::{Link, LinkReader, LinkWriter, SplitLink};
use gn_shake::Role;
use gn_start::RunFault;
use std::alloc::{Allocator, Global};
use std::vec::IntoIter;

/// Where the links of a run come from, one after another.
pub trait Arrivals: Drop {
    /// What the halves of a link say of it.
    type Origin;

    /// What of that is known before the link comes.
    type Foreknown;

    /// The half of a link that is read.
    type Reader: LinkReader<Origin = Self::Origin>;

    /// The half of a link that is written.
    type Writer: LinkWriter<Origin = Self::Origin>;

    /// Whether peers are called and accepted, either of which may fail.
    ghost has_peers: { Bool };

    /// What was known of a link before it came.
    ghost foreknown: { Self.Origin → Self.Foreknown };

    /// What is known of the links that are still to come, in order.
    ghost coming: { Self → List Self.Foreknown };

    /// Waits for the next link, which has this number, counted from 0, and shall begin in this role; and takes it apart. A run that
    /// has failed asks for its links, too, so that all its bodies are at hand. Nobody is waited for then: once the gate knows of it
    /// (`Gate::failed`) a call owes an answer at once, a link of no bytes or `NoMemory`, which gives way to what the bodies found.
    fn next(&mut self, link: u32, role: Role) -> Result<(Self::Reader, Self::Writer), RunFault>
        ensures reader { IfOk result (λ h. IsNewReader (Self.Reader.state h.0)) }
        ensures writer { IfOk result (λ h. IsNewWriter (Self.Writer.state h.1)) }
        ensures made { IfOk result (λ h. (coming self.old ≡ foreknown (Self.Reader.made_of h.0) ∷ coming self.new)
            × (Self.Writer.made_of h.1 ≡ Self.Reader.made_of h.0)) }
        ensures fault { IfErr result (λ fault. (links workers : ℕ) → link < links
            → IsArrivingFault has_peers links workers fault) };
}

/// Links that are all there, in order.
#[derive(Drop)]
pub(crate) struct Arrived<K: Link, A: Allocator = Global> {
    pub links: IntoIter<SplitLink<K>, A>,
}

impl<K: Link, A: Allocator> Arrivals for Arrived<K, A> {
    ghost use Rattle.std.specs.Prelude.{false, map};
    ghost use Rattle.std.specs.Vec.Iter.{into_iter_items};

    type Origin = K::Origin;

    type Foreknown = K::Origin;

    /// The half of a link that is read.
    type Reader = K::Reader;

    /// The half of a link that is written.
    type Writer = K::Writer;

    ghost has_peers = { false };

    ghost foreknown = { λ origin. origin };

    ghost coming = { λ arrived. map (λ link. K.Reader.made_of link.reader) (into_iter_items arrived.links) };

    /// Where no link is left, which doesn't come, its reader is named.
    fn next(&mut self, link: u32, _role: Role) -> Result<(K::Reader, K::Writer), RunFault> {
        let Some(next) = self.links.next() else {
            return Err(RunFault::Audit(link));
        };
        let SplitLink { reader, writer } = next;
        Ok((reader, writer))
    }
}
