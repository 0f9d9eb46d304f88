//! Who comments on a text.

use crate::comments::Comments;

/// Says what is to be said beside a text while that is written.
pub trait Commenter {
    /// Adds the comments that are due now, before the next line of the text.
    fn comment(&mut self, comments: &mut Comments);
}
