//! What is next for a writer.

ghost use Rattle.std.specs.Prelude.{◌≡◌};
ghost use Rattle.gn_hub.specs.Calls.{next_of};

/// What is next for the writer of a connection.
#[derive(Clone, Copy, Debug, PartialEq, Eq)]
pub enum Next {
    /// A packet was taken.
    Packet,
    /// Nothing waits yet.
    Later,
    /// The connection is over.
    Over,
}

/// What a writer was answered that waited for what is next on its connection.
#[derive(Clone, Copy, Debug, PartialEq, Eq)]
pub enum Outgoing {
    /// A packet was taken: its last receipt has it.
    Packet,
    /// All was taken, and this call closed the connection.
    Drained,
    /// The connection was closed before, or the run has failed.
    Closed,
}

/// What is next, by what a writer is answered that waits while it is none.
pub(crate) fn next_of(answer: Option<Outgoing>) -> Next
    ensures { result ≡ next_of answer }
{
    match answer {
        Some(Outgoing::Packet) => Next::Packet,
        Some(Outgoing::Drained | Outgoing::Closed) => Next::Over,
        None => Next::Later,
    }
}
