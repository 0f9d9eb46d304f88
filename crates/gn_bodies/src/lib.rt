//! The bodies of the threads of a run: each link's reader and writer, and the workers between them.
//!
//! No body says in its contract that it called `shut`, `reader_done` or `fail` of the service, which leave no trace in what
//! it gives back: the tests show these calls.
#![tactic(auto)]

mod caller;
mod ends;
mod handler;
mod piece;
mod reader;
mod reading;
mod several;
mod worker;
mod writer;

pub use caller::Caller;
pub use ends::{BodyFault, ReaderEnd, WriterEnd};
pub use reader::{ReaderDone, ReaderTask, reader_body};
pub use worker::{WorkerDone, WorkerTask, worker_body};
pub use writer::{WriterDone, WriterTask, writer_body};
