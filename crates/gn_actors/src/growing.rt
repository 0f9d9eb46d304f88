//! A list that only grows, and beginnings of it that were seen. Only proofs read them: they take no memory, and what is done to
//! them does nothing at run time.

ghost use Rattle.std.specs.Prelude.{◌≡◌, ℕ, List, []};
ghost use mathlib.Core.List.{IsPrefix};
ghost use base.Stored.{coded_list};
ghost use Rattle.gn_actors.specs.Growing.{growing_owns, beginning_owns};

use gn_trail::Lists;
use std::marker::{Brand, Model, PhantomData};

/// Which list it is. Each call of a program picks it.
pub trait Named {
    ghost growing: { ℕ };
}

impl Named for Brand {
    ghost growing = { 0 };
}

/// A list that only grows, which no type stands for yet. It is empty.
pub struct Unnamed<T> {
    of: PhantomData<T>,
    pub ghost name: { ℕ },
}

impl<T> Model for Unnamed<T> {
    ghost also_owns = { λ u. growing_owns T.row.coded.code u.name [] };
}

/// A list that only grows, as its `items`.
pub struct Growing<T, N: Named> {
    of: PhantomData<(T, N)>,
    pub ghost items: { List T } by { coded_list T.code },
}

impl<T, N: Named> Model for Growing<T, N> {
    ghost also_owns = { λ g. growing_owns T.row.coded.code N.growing g.items };
}

/// A beginning of the list, as its `items`: the list had come as far when it was seen.
pub struct Beginning<T, N: Named> {
    of: PhantomData<(T, N)>,
    pub ghost items: { List T } by { coded_list T.code },
}

impl<T, N: Named> Model for Beginning<T, N> {
    ghost also_owns = { λ b. beginning_owns T.row.coded.code N.growing b.items };
}

impl<T> Unnamed<T> {
    /// An empty list.
    pub fn new() -> Unnamed<T> {
        Unnamed { of: PhantomData }
    }

    /// The list, by its name, and its beginning, which is empty.
    pub fn named<N: Named>(self) -> (Growing<T, N>, Beginning<T, N>)
        requires { self.name ≡ N.growing }
        ensures { (result.0.items ≡ []) × (result.1.items ≡ []) }
    {
        let Self { of: _ } = self;
        (Growing { of: PhantomData }, Beginning { of: PhantomData })
    }
}

impl<T, N: Named> Growing<T, N> {
    /// The list has grown to that of a value, and is seen as it is then.
    pub fn record<X, M: Lists<X, T>>(&mut self, seen: &mut Beginning<T, N>, whole: &X)
        requires { IsPrefix self.old.items (M.list whole.now) }
        ensures { IsPrefix seen.old.items self.old.items × (self.new.items ≡ M.list whole.now)
            × (seen.new.items ≡ M.list whole.now) }
    {}
}

impl<T, N: Named> Beginning<T, N> {
    /// The same beginning, once more.
    pub fn again(&mut self) -> Beginning<T, N>
        ensures { (result.items ≡ self.old.items) × (self.new ≡ self.old) }
    {
        Beginning { of: PhantomData }
    }
}

impl<T> Drop for Unnamed<T> {
    fn drop(self) {
        let Self { of: _ } = self;
    }
}

impl<T, N: Named> Drop for Growing<T, N> {
    fn drop(self) {
        let Self { of: _ } = self;
    }
}

impl<T, N: Named> Drop for Beginning<T, N> {
    fn drop(self) {
        let Self { of: _ } = self;
    }
}

unsafe impl<T> Send for Unnamed<T> {}

unsafe impl<T, N: Named> Send for Growing<T, N> {}

unsafe impl<T, N: Named> Send for Beginning<T, N> {}
