//! The tests of links over TCP, of serves and what stops them, of loads, and of what is told to who watches. Tests alone.
#![tactic(auto)]

#[cfg(test)]
mod any;
#[cfg(test)]
mod batch;
#[cfg(test)]
mod crew;
#[cfg(test)]
mod cut_loads;
#[cfg(test)]
mod ends;
#[cfg(test)]
mod handles;
#[cfg(test)]
mod in_time;
#[cfg(test)]
mod journal;
#[cfg(test)]
mod limited;
#[cfg(test)]
mod loads;
#[cfg(test)]
mod loopback;
#[cfg(test)]
mod memory;
#[cfg(test)]
mod pings;
#[cfg(test)]
mod prompt;
#[cfg(test)]
mod resumed;
#[cfg(test)]
mod serves;
#[cfg(test)]
mod sockets;
#[cfg(test)]
mod tcp;
#[cfg(test)]
mod wanted;
#[cfg(test)]
mod watched;
