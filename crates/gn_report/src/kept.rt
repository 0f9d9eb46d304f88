//! The accounts of a run's links, kept in the order of the links.

ghost use Rattle.std.specs.Prelude.{◌≡◌, ◌++◌, ◌∷◌, [], None, Some, slice_set, IfOk, OnOk};
ghost use Rattle.std.specs.Option.{option_map, option_to_list};
ghost use Rattle.std.specs.List.{filter_map};
ghost use Rattle.gn_report.specs.Accounts as accounts;

use crate::account::{LinkAccount, LinkEnd, LinkTally};
use crate::keeping::Keeping;
use std::alloc::{AllocError, Allocator, Global};
use std::mem;

/// How each link of a run ended that came.
#[derive(Drop)]
pub struct Kept<Rd, W, A: Allocator = Global> {
    pub links: Vec<Option<LinkEnd<Rd, W, A>>, A>,
}

/// The account of a link, where both its bodies have an end.
fn account_in<Rd: Drop, W: Drop, A: Allocator>(
    end: Option<LinkEnd<Rd, W, A>>,
) -> Option<LinkAccount<Rd, W, A>>
    ensures { result ≡ accounts.account_in end }
{
    match end {
        Some(LinkEnd::Whole(account)) => Some(account),
        _ => None,
    }
}

/// What the two actors of a link counted that has ended.
fn tally_in<Rd, W, A: Allocator>(end: &Option<LinkEnd<Rd, W, A>>) -> Option<LinkTally>
    ensures { result ≡ accounts.tally_in end.now }
{
    match end {
        Some(LinkEnd::Whole(account)) => Some(LinkTally {
            read: account.read,
            written: account.written,
        }),
        Some(LinkEnd::Cut(tally)) => Some(*tally),
        None => None,
    }
}

/// Adds to a list what there is.
fn push_some<T: Drop, A: Allocator>(list: &mut Vec<T, A>, one: Option<T>) -> Result<(), AllocError>
    ensures { OnOk result (list.new.items ≡ list.old.items ++ option_to_list one) }
{
    if let Some(one) = one {
        list.push(one)?;
    }
    Ok(())
}

/// What the actors counted of links that have ended. An `Err` is out of memory.
fn tallies_of<Rd, W, A: Allocator + Copy>(
    alloc: A,
    ends: &[Option<LinkEnd<Rd, W, A>>],
) -> Result<Vec<LinkTally, A>, AllocError>
    ensures { IfOk result (λ made. made.items ≡ filter_map accounts.tally_in ends.now) }
{
    let mut made = Vec::with_capacity(alloc, ends.len())?;
    for end in ends {
        push_some(&mut made, tally_in(end))?;
    }
    Ok(made)
}

impl<Rd: Drop, W: Drop, A: Allocator + Copy> Kept<Rd, W, A> {
    /// Of a run of which no link has come.
    pub fn new(alloc: A) -> Self
        ensures { result.links.items ≡ [] }
    {
        Kept {
            links: Vec::new(alloc),
        }
    }

    /// The accounts of links both of whose bodies have an end, in order. An `Err` is out of memory.
    pub fn into_accounts(self, alloc: A) -> Result<Vec<LinkAccount<Rd, W, A>, A>, AllocError>
        ensures { IfOk result (λ made. made.items ≡ filter_map accounts.account_in self.links.items) }
    {
        let mut made = Vec::with_capacity(alloc, self.links.len())?;
        for end in self.links {
            push_some(&mut made, account_in(end))?;
        }
        Ok(made)
    }

    /// What the actors counted of links that have ended, in order. An `Err` is out of memory.
    pub fn tallies(&self, alloc: A) -> Result<Vec<LinkTally, A>, AllocError>
        ensures { IfOk result (λ made. made.items ≡ filter_map accounts.tally_in self.now.links.items) }
    {
        tallies_of(alloc, self.links.as_slice())
    }

    /// Puts the end of a link in its place, where there is that place.
    #[tactic(auto, using(std::proofs::lemmas::List::set_past))]
    fn put(&mut self, link: u32, end: Option<LinkEnd<Rd, W, A>>)
        ensures { self.new.links.items ≡ slice_set self.old.links.items link end }
    {
        if let Some(old) = self.links.get_mut(link as usize) {
            *old = end;
        }
    }
}

impl<Rd: Drop, W: Drop, A: Allocator + Copy> Keeping<Rd, W, A> for Kept<Rd, W, A> {
    ghost use Rattle.std.specs.Prelude.{◌≡◌};

    ghost keeps = { λ kept all. kept.links.items ≡ all };

    fn came(&mut self) -> Result<(), AllocError> {
        self.links.push(None)?;
        Ok(())
    }

    fn ended(
        &mut self,
        link: u32,
        account: &mut Option<LinkAccount<Rd, W, A>>,
    ) -> Result<(), AllocError> {
        if let Some(account) = mem::replace(account, None) {
            self.put(link, Some(LinkEnd::Whole(account)));
        }
        Ok(())
    }

    fn cut(&mut self, link: u32, tally: LinkTally) {
        self.put(link, Some(LinkEnd::Cut(tally)));
    }
}
