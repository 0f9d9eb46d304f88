//! Lists that only proofs read.

ghost use Rattle.std.specs.Prelude.{◌≡◌, ◌<◌, ◌^◌, List, length};
ghost use Rattle.std.specs.Borrow.{ftrue};

use gn_trail::Lists;
use std::marker::{Model, PhantomData};

/// A list that only proofs read, no longer than a vector may be. It takes no memory.
#[derive(Drop)]
pub struct Unkept<T> {
    of: PhantomData<T>,
    pub ghost items: { List T },
    pub ghost few: { length items < 2 ^ 63 },
}

impl<T> Model for Unkept<T> {
    ghost also_owns = { λ _. ftrue };
}

// It owns nothing.
unsafe impl<T: Send> Send for Unkept<T> {}

impl<T> Unkept<T> {
    /// The list of a value.
    pub(crate) fn of<X, M: Lists<X, T>>(whole: &X) -> Unkept<T>
        requires few { length (M.list whole.now) < 2 ^ 63 }
        ensures { result.items ≡ M.list whole.now }
    {
        Unkept { of: PhantomData }
    }
}
