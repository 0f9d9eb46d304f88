//! One read and one write, which tell their bytes.

ghost use Rattle.std.specs.Prelude.{Some};
ghost use Rattle.std.specs.Io.{ReadsAtMost, WritesAtMost};
ghost use Rattle.std.specs.Io.KnownBytes.{ReadConsumes, WriteAppends};

use crate::told::Told;
use std::io;
use std::io::{Read, Write};

/// Reads once. The bytes that the reader gave are told.
pub fn read_told<T: Read>(reader: &mut T, told: &mut Told, buffer: &mut [u8]) -> io::Result<usize>
    ensures bound { ReadsAtMost result buffer.new }
    ensures bytes { ReadConsumes (T.remaining reader.old) (T.remaining reader.new) result buffer.new }
    ensures told { WriteAppends (Some told.old) (Some told.new) result buffer.new }
{
    let n = reader.read(buffer)?;
    told.add(&buffer[..n]);
    Ok(n)
}

/// Writes once. The bytes that the writer took, the first ones of the piece, are told.
pub fn write_told<T: Write>(writer: &mut T, told: &mut Told, piece: &[u8]) -> io::Result<usize>
    ensures bound { WritesAtMost result piece.now }
    ensures bytes { WriteAppends (T.contents writer.old) (T.contents writer.new) result piece.now }
    ensures told { WriteAppends (Some told.old) (Some told.new) result piece.now }
{
    let n = writer.write(piece)?;
    told.add(&piece[..n]);
    Ok(n)
}
