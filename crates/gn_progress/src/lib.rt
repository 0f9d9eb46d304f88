//! How far a load or a serve is, written while it runs.
#![tactic(auto)]

mod counts;
mod progress;
mod screen;
mod shown;

pub use progress::Progress;
pub use screen::Screen;
