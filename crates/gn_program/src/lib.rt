//! The command line of `gn` as a function of its words, its input and its outputs.
#![tactic(auto)]

mod answer;
mod audit;
mod before;
mod calls;
mod commands;
mod detail;
mod ended;
mod eof;
mod fault;
mod form;
mod head;
mod leavings;
mod left_open;
mod load;
mod measured;
mod misfit;
mod remarks;
mod replay;
mod reports;
mod request;
mod running;
mod scraping;
mod serve;
mod serves;
mod serving;
mod show;
mod text;
mod told;
mod unwatched;
mod workers;

pub use audit::Audit;
pub use commands::{command, command_with, refuse_words};
pub use ended::Ended;
pub use fault::Fault;
pub use head::{Head, Kept};
pub use load::Load;
pub use replay::Replay;
pub use request::{Request, plain_words_are_read};
pub use serve::{Serve, ServeOptions};
pub use show::Show;
