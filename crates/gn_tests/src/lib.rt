//! The tests of the crates of one thread and of texts, each over its crate's public calls; the worked runs: captures, what they
//! print, and what is stated of their histories; and a whole program over the one library. Tests alone.
#![tactic(auto)]

#[cfg(test)]
mod answer_runs;
#[cfg(test)]
mod asks;
#[cfg(test)]
mod calls;
#[cfg(test)]
mod captures;
#[cfg(test)]
mod compare;
#[cfg(test)]
mod cuts;
#[cfg(test)]
mod encoding;
#[cfg(test)]
mod event_lists;
#[cfg(test)]
mod frames;
#[cfg(test)]
mod histories;
#[cfg(test)]
mod inbound;
#[cfg(test)]
mod legality;
#[cfg(test)]
mod link_runs;
#[cfg(test)]
mod load_runs;
#[cfg(test)]
mod one_library;
#[cfg(test)]
mod payload;
#[cfg(test)]
mod played;
#[cfg(test)]
mod receipts;
#[cfg(test)]
mod refusals;
#[cfg(test)]
mod replays;
#[cfg(test)]
mod request_runs;
#[cfg(test)]
mod rules;
#[cfg(test)]
mod run;
#[cfg(test)]
mod shake;
#[cfg(test)]
mod tables;
#[cfg(test)]
mod two_routers;
