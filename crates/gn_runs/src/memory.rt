//! The calls of the threads, and whole runs, where each of their growths is refused in turn.

mod bodies;
mod lock;
mod runs;
mod stage;
