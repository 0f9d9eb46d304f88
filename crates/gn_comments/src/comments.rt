//! Comments, as lines.

ghost use Rattle.std.specs.Prelude.{◌≡◌, [], OnErr};
ghost use Rattle.gn_comments.specs.Comments.{bare, place_behind};
ghost use Rattle.gn_comments.specs.Comments.Place.{start};

use std::alloc::{AllocError, Global};

/// Whole lines that begin with `#`.
pub struct Comments {
    bytes: Vec<u8, Global>,
    line: Vec<u8, Global>,
    ghost bare: { bare start bytes.items ≡ [] },
    ghost whole: { place_behind start bytes.items ≡ start },
}

impl Drop for Comments {
    fn drop(self) {
        let Comments { bytes: _, line: _ } = self;
    }
}

impl Comments {
    /// No line yet.
    pub fn new(alloc: Global) -> Self
        ensures { result.bytes.items ≡ [] }
    {
        Comments {
            bytes: Vec::new(alloc),
            line: Vec::new(alloc),
        }
    }

    /// Adds a line that says this behind `# `. One that would be more than a line is left out. An `Err` is out of memory, and adds
    /// none.
    #[tactic(auto, using(crate::proofs::CommentLemmas::place_of_more, crate::proofs::CommentLemmas::bare_of_more))]
    pub fn add(&mut self, said: &[u8]) -> Result<(), AllocError>
        ensures { OnErr result (self.new.bytes.items ≡ self.old.bytes.items) }
    {
        if said.contains(&b'\n') {
            return Ok(());
        }
        self.line.clear();
        self.line.extend_from_slice(b"# ")?;
        self.line.extend_from_slice(said)?;
        self.line.push(b'\n')?;
        self.bytes.extend_from_slice(&self.line)
    }

    /// No line any more.
    pub(crate) fn clear(&mut self)
        ensures { self.new.bytes.items ≡ [] }
    {
        self.bytes.clear();
    }

    /// The lines, one behind the other.
    pub(crate) fn as_bytes(&self) -> &[u8]
        ensures { result.now ≡ self.now.bytes.items }
    {
        &self.bytes
    }
}
