//! What is known of the links of a run, each at its slot, and for how many readers the run waits.

ghost use Rattle.std.specs.Prelude.{◌≡◌, ◌∷◌, ◌++◌, [], map, replicate, set, slice_index_or, IfOk, MatchResult};
ghost use Rattle.std.specs.List.{slice_get};
ghost use Rattle.gn_shake.specs.declared.role.Role.TheVariants.{Plain};
ghost use Rattle.gn_hub.specs.HubState.{are_read, free_mark, new_mark};

use crate::mark::Mark;
use gn_shake::Role;
use std::alloc::{AllocError, Allocator};
use std::marker::Model;

/// What is known of the links of a run, each at its slot, and how many of their readers aren't done: of the links that don't call, and of
/// those that do.
pub(crate) struct Slots<A: Allocator> {
    marks: Vec<Mark, A>,
    uncalled: usize,
    called: usize,
}

impl<A: Allocator> Drop for Slots<A> {
    fn drop(self) {
        let Slots {
            marks: _,
            uncalled: _,
            called: _,
        } = self;
    }
}

impl<A: Allocator> Model for Slots<A> {
    ghost use Rattle.std.specs.Prelude.{◌≡◌, List};
    ghost use Rattle.std.specs.List.{count_by};
    ghost use Rattle.gn_hub.specs.Counts.{reads_called, reads_uncalled};
    ghost use Rattle.gn_hub.specs.declared.mark.Mark.{Mark};

    ghost Value = { List Mark };

    ghost view = { λ s. s.marks.items };

    ghost invariant = { λ s. (s.uncalled ≡ count_by reads_uncalled s.marks.items)
        × (s.called ≡ count_by reads_called s.marks.items) };
}

impl<A: Allocator> Slots<A> {
    /// No slots.
    fn none(alloc: A) -> Self
        ensures { result ≡ [] }
    {
        Slots {
            marks: Vec::new(alloc),
            uncalled: 0,
            called: 0,
        }
    }

    /// Of links whose readers have neither connected nor ended.
    pub fn of(alloc: A, roles: &[Role]) -> Result<Self, AllocError>
        ensures { IfOk result (λ slots. slots ≡ map new_mark roles.now) }
    {
        let mut slots = Slots::none(alloc);
        for role in roles {
            slots.push(Mark::new(*role))?;
        }
        Ok(slots)
    }

    /// So many free ones.
    pub fn free(alloc: A, many: u32) -> Result<Self, AllocError>
        ensures { IfOk result (λ slots. slots ≡ replicate many free_mark) }
    {
        let mut slots = Slots::none(alloc);
        for _ in 0..many {
            slots.push(Mark::free())?;
        }
        Ok(slots)
    }

    /// One slot more.
    fn push(&mut self, mark: Mark) -> Result<(), AllocError>
        ensures { MatchResult result (λ _. self.new ≡ self.old ++ mark ∷ []) (λ _. self.new ≡ self.old) }
    {
        self.marks.push(mark)?;
        self.uncalled += mark.uncalled();
        self.called += mark.called();
        Ok(())
    }

    /// What is known of the link at a slot, where there is such a slot.
    pub fn get(&self, slot: u32) -> Option<Mark>
        ensures { result ≡ slice_get self.now slot }
    {
        self.marks.get(slot as usize).copied()
    }

    /// The same; what is known of a new plain link where there is no such slot.
    pub fn mark(&self, slot: u32) -> Mark
        ensures { result ≡ slice_index_or self.now slot (new_mark Plain) }
    {
        let i = slot as usize;
        if i < self.marks.len() {
            self.marks[i]
        } else {
            Mark::new(Role::Plain)
        }
    }

    /// What is known of the link at a slot becomes this. Changes nothing where there is no such slot.
    pub fn put(&mut self, slot: u32, mark: Mark)
        ensures { self.new ≡ set self.old slot mark }
    {
        let i = slot as usize;
        if i < self.marks.len() {
            let was = self.marks[i];
            self.uncalled = self.uncalled - was.uncalled() + mark.uncalled();
            self.called = self.called - was.called() + mark.called();
            self.marks[i] = mark;
        }
    }

    /// Whether a run waits for no reader of these links any more, where all links that came call or not.
    #[tactic(auto, using(crate::proofs::CountLemmas::counted))]
    pub fn are_read(&self, all_call: bool) -> bool
        ensures { result ≡ are_read all_call self.now }
    {
        self.uncalled == 0 && (!all_call || self.called == 0)
    }
}
