//! What is found where each reply of a history is compared with the rules' answer.

/// What is found of a history.
#[derive(Clone, Copy, Debug, PartialEq, Eq)]
pub enum Legality {
    /// Each reply is the rules' answer.
    Legal,
    /// The index of the first step, counted from 0, whose reply isn't the rules' answer, whose event they refuse, or that
    /// has no room.
    WrongAt(u32),
}
