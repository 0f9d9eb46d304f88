//! Streams of bytes: where input comes from, where output goes, and what is known of both.
#![tactic(auto)]

mod block;
mod fault;
mod input;
mod nowhere;
mod reader_source;
mod sink;
mod source;
mod write;
mod writer_sink;

pub use block::Block;
pub use fault::IoFault;
pub use input::{InputFault, read_input};
pub use nowhere::Nowhere;
pub use reader_source::ReaderSource;
pub use sink::Sink;
pub use source::Source;
pub use write::write_all;
pub use writer_sink::WriterSink;
