//! The receipts of a history's actors.

use crate::steps::read;
use gn_fixtures::{Call, FIRST_PING, Failure, Heap, are_same, growths_of_call};
use gn_receipts::receipts_by_actor;
use gn_rules::{Receipt, Step, is_step_of};
use std::alloc::Allocator;
use std::test::Fail;

/// The growths: the lists of three actors, that of the one who made all four steps, and the list of the sends of the Route.
/// The payloads are shared.
const GROWTHS: u64 = 3;

/// Makes the receipts of three actors.
#[derive(Clone, Copy)]
struct MakesReceipts;

/// Whether these are all steps of a history, in order.
fn are_all<A: Allocator>(receipts: &[Receipt<A>], steps: &[Step<A>]) -> bool {
    for (number, (receipt, step)) in receipts.iter().zip(steps).enumerate() {
        if receipt.index as usize != number || !is_step_of(step, 0, receipt) {
            return false;
        }
    }
    receipts.len() == steps.len()
}

impl<A: Allocator + Copy> Call<A> for MakesReceipts {
    type Subject = (A, Vec<Step<A>, A>);

    type Answer = Vec<Vec<Receipt<A>, A>, A>;

    fn subject(&self, alloc: A) -> Result<(A, Vec<Step<A>, A>), Fail> {
        let (_, steps) = read(alloc, FIRST_PING)?;
        Ok((alloc, steps))
    }

    fn make(
        &self,
        subject: &mut (A, Vec<Step<A>, A>),
    ) -> Result<Vec<Vec<Receipt<A>, A>, A>, Failure> {
        let (alloc, steps) = subject;
        if steps.len() != 4 {
            return Err(Failure::Other);
        }
        match receipts_by_actor(*alloc, steps.as_slice(), 3) {
            Ok(all) => Ok(all),
            Err(_) => Err(Failure::NoMemory),
        }
    }

    fn is_unchanged(&self, subject: &(A, Vec<Step<A>, A>), other: &(A, Vec<Step<A>, A>)) -> bool {
        are_same(subject.1.as_slice(), other.1.as_slice())
    }

    fn is_right(
        &self,
        subject: &mut (A, Vec<Step<A>, A>),
        answer: &Vec<Vec<Receipt<A>, A>, A>,
    ) -> bool {
        match answer.as_slice() {
            [all, none, nothing] => {
                are_all(all.as_slice(), subject.1.as_slice())
                    && none.is_empty()
                    && nothing.is_empty()
            }
            _ => false,
        }
    }
}

/// How many growths that meets.
fn growths_of_receipts<A: Allocator + Copy>(heap: &Heap, alloc: A) -> Result<u64, Fail> {
    growths_of_call(heap, alloc, &MakesReceipts)
}

#[test]
fn receipts_of_a_history(rt: HostRuntime) -> Result<(), Fail> {
    let heap = Heap::new(rt.alloc());
    assert_eq!(rt; growths_of_receipts(&heap, &heap)?, GROWTHS);
    Ok(())
}
