//! Where the lines go.

use std::io::{IsTerminal, Stderr, Write};

/// Where lines are written for an operator.
pub trait Screen {
    /// Whether a line may be written over.
    fn is_terminal(&self) -> bool;

    /// Writes a text whole. That it can't be written changes nothing.
    fn show(&self, text: &str);
}

impl Screen for Stderr {
    fn is_terminal(&self) -> bool {
        IsTerminal::is_terminal(self)
    }

    fn show(&self, text: &str) {
        let _ = (&*self).write_all(text.as_bytes());
    }
}
