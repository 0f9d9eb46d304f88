//! Rows of fields, by one writer for many: each has a buffer of 8,192 bytes, which costs more to make than a row.

ghost use Rattle.std.specs.Prelude.{◌≡◌, ◌++◌, [], map, OnOk};
ghost use Rattle.csv.specs.Writing.{default_writer, row_text, writer_under};
ghost use Rattle.gn_show.specs.Writers.{IsClean};

use csv::{Error, Writer, WriterBuilder};
use std::alloc::{AllocError, Global};
use std::marker::Model;

/// A writer that holds so many bytes is made anew before the next step.
const MOST: usize = 16_384;

/// Writes the rows of a step, and then those of the next. It is seen as the text of this step's rows.
#[derive(Drop)]
pub(crate) struct RowWriter {
    alloc: Global,
    writer: Writer<Vec<u8>>,
    /// How many bytes are of the steps before.
    begun: usize,
}

impl Model for RowWriter {
    ghost use Rattle.std.specs.Prelude.{ℕ, List, ◌≤◌, drop, length};
    ghost use Rattle.csv.specs.Writing.{writer_under};
    ghost use Rattle.gn_show.specs.Writers.{IsClean};

    ghost Value = { List ℕ };

    ghost view = { λ r. drop r.begun (writer_under r.writer).items };

    ghost invariant = { λ r. IsClean r.writer × (r.begun ≤ length (writer_under r.writer).items) };
}

/// A writer that has written nothing.
fn new_writer(alloc: Global) -> Writer<Vec<u8>>
    ensures clean { IsClean result }
    ensures empty { (writer_under result).items ≡ [] }
{
    WriterBuilder::new().from_writer(Vec::new(alloc))
}

/// Makes a writer anew. This isn't inlined: each call of a function that holds a writer clears its room.
#[inline(never)]
fn renew(writer: &mut Writer<Vec<u8>>, alloc: Global)
    ensures clean { IsClean writer.new }
    ensures empty { (writer_under writer.new).items ≡ [] }
{
    *writer = new_writer(alloc);
}

/// Writes a row out.
fn write_row(writer: &mut Writer<Vec<u8>>, fields: &[&[u8]]) -> Result<(), Error>
    ensures { OnOk result (IsClean writer.old → IsClean writer.new × ((writer_under writer.new).items
        ≡ (writer_under writer.old).items ++ row_text default_writer (map (λ f. f.now) fields.now))) }
{
    writer.write_fields(fields)?;
    writer.flush()
}

impl RowWriter {
    /// Nothing is written yet.
    pub(crate) fn new(alloc: Global) -> Self
        ensures { result ≡ [] }
    {
        RowWriter {
            alloc,
            writer: new_writer(alloc),
            begun: 0,
        }
    }

    /// Begins a step, which has no row yet.
    #[tactic(auto, using(std::proofs::lemmas::List::drop_all))]
    pub(crate) fn begin(&mut self)
        ensures { self.new ≡ [] }
    {
        let written = self.writer.get_ref().len();
        if written < MOST {
            self.begun = written;
        } else {
            renew(&mut self.writer, self.alloc);
            self.begun = 0;
        }
    }

    /// Appends a row.
    #[tactic(auto, using(crate::proofs::RowLemmas::row_after))]
    pub(crate) fn push(&mut self, fields: &[&[u8]]) -> Result<(), AllocError>
        ensures { OnOk result (self.new ≡ self.old ++ row_text default_writer (map (λ f. f.now) fields.now)) }
    {
        if write_row(&mut self.writer, fields).is_err() {
            renew(&mut self.writer, self.alloc);
            self.begun = 0;
            return Err(AllocError);
        }
        Ok(())
    }

    /// The text of this step's rows.
    pub(crate) fn text(&self) -> &[u8]
        ensures { result.now ≡ self.now }
    {
        &self.writer.get_ref()[self.begun..]
    }
}
