//! The tests of the threads and of whole runs over memory, also where memory is refused. Tests alone.
#![tactic(auto)]

#[cfg(test)]
mod memory;
#[cfg(test)]
mod threads;
