//! The links of a run, taken apart.

ghost use Rattle.std.specs.Prelude.{◌≡◌, ◌++◌, ◌∷◌, ◌<◌, ◌^◌, [], length, map, true, IfErr, IfOk, OnErr, OnOk};
ghost use Rattle.gn_links.specs.Split.{IsSplitFault};
ghost use Rattle.gn_links.specs.Halves.{IsNewReader, IsNewWriter};
ghost use Rattle.gn_links.specs.declared.split.SplitFault.TheVariants.{NoMemory};

use crate::link::{Link, LinkFault, LinkReader, LinkWriter};
use gn_shake::Role;
use std::alloc::{AllocFailed, Allocator, Global};

/// Why links couldn't be taken apart.
#[derive(Clone, Copy, Debug, PartialEq, Eq)]
pub enum SplitFault {
    /// A link couldn't be split: its number, from 0 on.
    Link(u32),
    /// Out of memory.
    NoMemory,
}

impl<T: Drop> From<AllocFailed<T>> for SplitFault {
    ghost use Rattle.std.specs.Prelude.{◌≡◌};
    ghost use Rattle.gn_links.specs.declared.split.SplitFault.TheVariants.{NoMemory};

    ghost from_gives = { λ _ e. e ≡ NoMemory };

    fn from(_e: AllocFailed<T>) -> SplitFault {
        SplitFault::NoMemory
    }
}

/// The two halves of one link, new as the link gave them.
#[derive(Drop)]
pub struct SplitLink<K: Link> {
    pub reader: K::Reader,
    pub writer: K::Writer,
    pub ghost new_reader: { IsNewReader (K.Reader.state reader) },
    pub ghost new_writer: { IsNewWriter (K.Writer.state writer) },
    pub ghost one: { ∥ K.Writer.made_of writer ≡ K.Reader.made_of reader ∥₁ },
}

impl<K: Link> SplitLink<K> {
    /// Takes a link apart.
    fn of(link: K) -> Result<SplitLink<K>, LinkFault>
        ensures made { IfOk result (λ halves. K.Reader.made_of halves.reader ≡ K.origin_of link) }
        ensures allowed { OnErr result (K.may_not_split link ≡ true) }
    {
        let (reader, writer) = link.split()?;
        Ok(SplitLink { reader, writer })
    }
}

/// Links that were taken apart, and how each begins, in the order of the links.
#[derive(Drop)]
pub struct SplitLinks<K: Link, A: Allocator = Global> {
    pub roles: Vec<Role, A>,
    pub links: Vec<SplitLink<K>, A>,
}

impl<K: Link, A: Allocator> SplitLinks<K, A> {
    /// Adds the next link.
    fn push(&mut self, role: Role, halves: SplitLink<K>) -> Result<(), SplitFault>
        ensures roles { OnOk result (self.new.roles.items ≡ self.old.roles.items ++ role ∷ []) }
        ensures links { OnOk result (self.new.links.items ≡ self.old.links.items ++ halves ∷ []) }
        ensures fault { IfErr result (λ fault. fault ≡ NoMemory) }
    {
        self.roles.push(role)?;
        self.links.push(halves)?;
        Ok(())
    }
}

/// Takes the links apart, in order. The first that can't be split is named.
pub fn split_all<K: Link, A: Allocator + Copy>(
    alloc: A,
    links: Vec<K, A>,
) -> Result<SplitLinks<K, A>, SplitFault>
    requires few { length links.items < 2 ^ 32 }
    ensures roles { IfOk result (λ split. split.roles.items ≡ map K.role_of links.items) }
    ensures made { IfOk result (λ split.
        map (λ link. K.Reader.made_of link.reader) split.links.items ≡ map K.origin_of links.items) }
    ensures fault { IfErr result (IsSplitFault (map K.may_not_split links.items)) }
{
    let mut number = 0u32;
    let mut split = SplitLinks {
        roles: Vec::new(alloc),
        links: Vec::new(alloc),
    };
    for link in links {
        let role = link.role();
        let Ok(halves) = SplitLink::of(link) else {
            return Err(SplitFault::Link(number));
        };
        split.push(role, halves)?;
        number += 1;
    }
    Ok(split)
}
