//! How the lines of a case spell bytes: `\xNN` is a byte, and `\(COUNT*TEXT)` a text so many times.

use std::io::{self, ErrorKind};

/// A case can't be read.
pub(crate) fn bad_case() -> io::Error {
    io::Error::from(ErrorKind::InvalidData)
}

/// Appends the bytes of a text in which no text is repeated.
fn append_plain(out: &mut Vec<u8>, text: &str) -> io::Result<()> {
    let (start, rest) = text.split_once("\\x").unwrap_or((text, ""));
    out.extend_from_slice(start.as_bytes())?;
    if rest.is_empty() {
        return Ok(());
    }
    for piece in rest.split("\\x") {
        let (digits, more) = piece.split_at_checked(2).ok_or(bad_case())?;
        out.push(u8::from_str_radix(digits, 16).map_err(|_| bad_case())?)?;
        out.extend_from_slice(more.as_bytes())?;
    }
    Ok(())
}

/// Appends bytes so many times.
fn append_times(out: &mut Vec<u8>, bytes: &[u8], count: usize) -> io::Result<()> {
    // an input of 64 MiB is one byte again and again
    if let [byte] = bytes {
        let end = out.len().saturating_add(count);
        return Ok(out.resize(end, *byte)?);
    }
    for _ in 0..count {
        out.extend_from_slice(bytes)?;
    }
    Ok(())
}

/// Appends the bytes of `COUNT*TEXT)` and of what stands behind it.
fn append_repeated(out: &mut Vec<u8>, text: &str) -> io::Result<()> {
    let (repeated, rest) = text.split_once(')').ok_or(bad_case())?;
    let (count, piece) = repeated.split_once('*').ok_or(bad_case())?;
    let count = count.parse::<usize>().map_err(|_| bad_case())?;
    let mut bytes = Vec::new(*out.allocator());
    append_plain(&mut bytes, piece)?;
    append_times(out, &bytes, count)?;
    append_plain(out, rest)
}

/// Appends the bytes that a text spells, and an end.
pub(crate) fn append_bytes(out: &mut Vec<u8>, text: &str, end: &[u8]) -> io::Result<()> {
    for (index, piece) in text.split("\\(").enumerate() {
        if index == 0 {
            append_plain(out, piece)?;
        } else {
            append_repeated(out, piece)?;
        }
    }
    Ok(out.extend_from_slice(end)?)
}
