//! Calls of codecs, tables, routers and texts where each of their growths is refused in turn, and calls that take no memory where
//! all are. Tests alone.
#![tactic(auto)]

#[cfg(test)]
mod codecs;
#[cfg(test)]
mod constructors;
#[cfg(test)]
mod event_lists;
#[cfg(test)]
mod growths;
#[cfg(test)]
mod histories;
#[cfg(test)]
mod no_memory_taken;
#[cfg(test)]
mod receipts;
#[cfg(test)]
mod rows;
#[cfg(test)]
mod steps;
#[cfg(test)]
mod tables;
#[cfg(test)]
mod texts;
