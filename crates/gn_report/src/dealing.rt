//! What there is of each actor of a run, by what the actors are.

ghost use Rattle.std.specs.Prelude.{◌≡◌, ◌+◌, ◌++◌, ◌∷◌, ◌<◌, [], IfOk, vec_len};

use std::alloc::{AllocError, Allocator, Global};

/// One of each actor of a run, by what the actors are.
#[derive(Drop)]
pub struct Dealt<T, A: Allocator = Global> {
    /// Those of the links' readers.
    pub readers: Vec<T, A>,
    /// Those of the links' writers.
    pub writers: Vec<T, A>,
    /// Those of the workers.
    pub workers: Vec<T, A>,
    /// That of the house.
    pub house: T,
}

/// Deals out one of each actor of a run with so many links, in the order of their numbers. An `Err` is out of memory.
pub fn deal<T: Drop, A: Allocator + Copy>(
    all: Vec<T, A>,
    links: usize,
) -> Result<Dealt<T, A>, AllocError>
    requires { links + links < vec_len all }
    ensures many { IfOk result (λ dealt. (vec_len dealt.readers ≡ links) × (vec_len dealt.writers ≡ links)
        × (links + links + vec_len dealt.workers + 1 ≡ vec_len all)) }
    ensures all { IfOk result (λ dealt. all.items
        ≡ dealt.readers.items ++ (dealt.writers.items ++ (dealt.workers.items ++ dealt.house ∷ []))) }
{
    let mut readers = all;
    let mut writers = readers.split_off(links)?;
    let mut workers = writers.split_off(links)?;
    let Some(house) = workers.pop() else {
        unreachable!()
    };
    Ok(Dealt {
        readers,
        writers,
        workers,
        house,
    })
}
