//! Receipts that are made of a history.

ghost use Rattle.std.specs.Prelude.{◌≡◌, ◌<◌, ◌^◌, ◌++◌, ◌∷◌, [], IfOk, OnOk, length, map, set, slice_index_or};
ghost use Rattle.gn_receipts.specs.Made.{AreMade, receipt_at, receipt_list};

use gn_rules::{Receipt, Step};
use std::alloc::{AllocError, Allocator};

/// The receipt of a step with this index. An `Err` is out of memory.
fn receipt_of<A: Allocator + Copy>(
    alloc: A,
    index: u32,
    step: &Step<A>,
) -> Result<Receipt<A>, AllocError>
    ensures { IfOk result (λ receipt. receipt ≡ receipt_at index step.now) }
{
    Ok(Receipt {
        index,
        event: step.event.copy()?,
        reply: step.reply.copy(alloc)?,
    })
}

/// So many lists without receipts. An `Err` is out of memory.
fn empty_lists<A: Allocator + Copy>(
    alloc: A,
    actors: u32,
) -> Result<Vec<Vec<Receipt<A>, A>, A>, AllocError>
    ensures { IfOk result (λ all. AreMade actors [] (map receipt_list all.items)) }
{
    let mut all = Vec::new(alloc);
    for _ in 0..actors {
        all.push(Vec::new(alloc))?;
    }
    Ok(all)
}

/// A step's receipt goes to those of its actor, where that is one of these. An `Err` is out of memory.
fn add<A: Allocator + Copy>(
    alloc: A,
    all: &mut Vec<Vec<Receipt<A>, A>, A>,
    index: u32,
    step: &Step<A>,
) -> Result<(), AllocError>
    ensures { OnOk result (map receipt_list all.new.items
        ≡ set (map receipt_list all.old.items) step.now.actor
        (slice_index_or (map receipt_list all.old.items) step.now.actor [] ++ receipt_at index step.now ∷ [])) }
{
    let actor = step.actor as usize;
    if actor < all.len() {
        all[actor].push(receipt_of(alloc, index, step)?)?;
    }
    Ok(())
}

/// The receipts of each of these actors, in one pass over a history. An `Err` is out of memory.
pub fn receipts_by_actor<A: Allocator + Copy>(
    alloc: A,
    steps: &[Step<A>],
    actors: u32,
) -> Result<Vec<Vec<Receipt<A>, A>, A>, AllocError>
    requires { length steps.now < 2 ^ 32 }
    ensures { IfOk result (λ all. AreMade actors steps.now (map receipt_list all.items)) }
{
    let mut all = empty_lists(alloc, actors)?;
    let mut index: u32 = 0;
    for step in steps {
        add(alloc, &mut all, index, step)?;
        index += 1;
    }
    Ok(all)
}
