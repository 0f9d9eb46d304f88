//! A case of the conformance set: what the program is given, and what it has to answer.

use crate::answers::Answer;
use crate::notation::{append_bytes, bad_case};
use std::alloc::Global;
use std::io;

/// A case of the conformance set.
#[derive(Drop)]
pub(crate) struct Case {
    pub(crate) title: String,
    /// The words of the command line, with a space between two.
    pub(crate) words: &'static str,
    pub(crate) input: Vec<u8>,
    pub(crate) wanted: Answer,
}

/// The words of a command that a case names.
fn words_of(command: &str) -> Option<&'static str> {
    match command {
        "replay" => Some("gn replay"),
        "history" => Some("gn replay --history"),
        "audit" => Some("gn audit"),
        "explain" => Some("gn audit --explain"),
        "show" | "shown" => Some("gn show"),
        "json" => Some("gn show --json"),
        "csv" => Some("gn show --csv"),
        "stats" => Some("gn show --stats"),
        _ => None,
    }
}

/// The status of an answer: 1 at a fault and at a wrong history, and else 0.
fn status_of(words: &str, printed: &[u8], faults: &[u8]) -> u8 {
    let is_wrong = words.starts_with("gn audit") && printed.starts_with(b"wrong");
    u8::from(is_wrong || !faults.is_empty())
}

impl Case {
    /// A case of a command, in whose answer no fault is.
    pub(crate) fn new(
        alloc: Global,
        title: &str,
        command: &str,
        input: Vec<u8>,
        printed: Vec<u8>,
    ) -> io::Result<Self> {
        let words = words_of(command).ok_or(bad_case())?;
        let faults = Vec::new(alloc);
        let mut made = Case {
            title: String::from_str(alloc, title)?,
            words,
            input,
            wanted: Answer {
                status: 0,
                printed,
                faults,
            },
        };
        made.settle();
        Ok(made)
    }

    /// The status of the answer is the one that its texts have.
    fn settle(&mut self) {
        let wanted = &self.wanted;
        let status = status_of(
            self.words,
            wanted.printed.as_slice(),
            wanted.faults.as_slice(),
        );
        self.wanted.status = status;
    }

    /// Takes the first lines of another input.
    fn begin_as(&mut self, before: &[u8], count: &str) -> io::Result<()> {
        let count = count.parse::<usize>().map_err(|_| bad_case())?;
        for line in before.split_inclusive(|byte| *byte == b'\n').take(count) {
            self.input.extend_from_slice(line)?;
        }
        Ok(())
    }

    /// Takes one line of a case in words, whose input before is `before`.
    fn add_line(&mut self, line: &str, before: &[u8]) -> io::Result<()> {
        let (mark, text) = line.split_once(' ').unwrap_or((line, ""));
        match mark {
            ">" => append_bytes(&mut self.input, text, b"\n"),
            ">." => append_bytes(&mut self.input, text, b""),
            ">=" => self.begin_as(before, text),
            "<" => append_bytes(&mut self.wanted.printed, text, b"\n"),
            "!" => append_bytes(&mut self.wanted.faults, text, b"\n"),
            "" => Ok(()),
            _ => Err(bad_case()),
        }
    }

    /// The case that these lines say, where the input of the case before is `before`: its command and title, and then a line
    /// for each of its own.
    pub(crate) fn of_lines(alloc: Global, lines: &str, before: &[u8]) -> io::Result<Self> {
        let (head, body) = lines.split_once('\n').ok_or(bad_case())?;
        let (command, title) = head.split_once(' ').ok_or(bad_case())?;
        let mut made = Case::new(alloc, title, command, Vec::new(alloc), Vec::new(alloc))?;
        for line in body.split('\n') {
            made.add_line(line, before)?;
        }
        made.settle();
        Ok(made)
    }
}
