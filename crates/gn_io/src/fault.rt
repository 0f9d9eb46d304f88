//! A stream that failed.

/// A read or a write that failed. What the stream was over keeps the reason.
#[derive(Clone, Copy, Debug, PartialEq, Eq)]
pub struct IoFault;
