//! One short history, judged under several configurations and from several steps on.

use crate::asks::{Ask, are_met};
use crate::compare::wrong_at;
use gn_fixtures::{OWN, usual};
use gn_rules::{Config, FreshRouter, Historian, Legality, Own, Step};
use gn_search::PlainRouter;
use gn_witness::legal;
use std::alloc::Allocator;
use std::test::Fail;

/// Connection 1's Ping is routed to connection 2, and taken there.
static ASKS: [Ask; 5] = [
    Ask::Connect,
    Ask::Connect,
    Ask::Ping(1, 0xa1, 7, 0),
    Ask::Route(0),
    Ask::Take(2),
];

/// A configuration by its neighbours, its steps and the files of the own servent, the first step that is judged, and how.
type Row = (u32, u32, u32, usize, Legality);

/// Each configuration with its verdict.
static ROWS: [Row; 7] = [
    (4, 100, 5, 0, Legality::Legal),
    (4, 5, 5, 0, Legality::Legal),
    // the history is full after 3 steps
    (4, 3, 5, 0, Legality::WrongAt(3)),
    // the second Connect is one too many
    (1, 100, 5, 0, Legality::WrongAt(1)),
    // the own Pong names other files
    (4, 100, 6, 0, Legality::WrongAt(3)),
    // the second Connect was given number 2, as the first one
    (4, 100, 5, 1, Legality::WrongAt(0)),
    // an admission is refused where no connection was made
    (4, 100, 5, 2, Legality::WrongAt(0)),
];

/// How the steps from this one on are judged under a configuration.
fn judged<A: Allocator>(steps: &[Step<A>], row: &Row) -> Option<Legality> {
    let (neighbours, most, files, first, _) = *row;
    let own = Own { files, ..OWN };
    let steps = steps.get(first..)?;
    match Config::new(neighbours, 8, 4, 8, 8, most, 0, 0, own) {
        Ok(config) => Some(legal(&config, steps)),
        Err(_) => None,
    }
}

/// The first row by which steps aren't judged as it says.
fn first_wrong<A: Allocator>(steps: &[Step<A>]) -> Option<usize> {
    for (number, row) in ROWS.iter().enumerate() {
        if judged(steps, row) != Some(row.4) {
            return Some(number);
        }
    }
    None
}

/// Fails at the first row that isn't as it says of that history.
fn is_history_judged<A: Allocator + Copy>(alloc: A) -> Result<(), Fail> {
    let mut core = PlainRouter::<A>::make(alloc, &usual(100)?)?;
    let are_met = are_met(alloc, &mut core, &ASKS);
    let history = core.into_history();
    let wrong = first_wrong(history.as_slice());
    drop(history);
    if !are_met? {
        return Err(Fail::from("an answer"));
    }
    match wrong {
        Some(number) => Err(wrong_at(number)),
        None => Ok(()),
    }
}

#[test]
fn the_first_wrong_step_is_found(rt: HostRuntime) -> Result<(), Fail> {
    is_history_judged(rt.alloc())
}
