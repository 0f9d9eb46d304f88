//! Texts: captures and histories, read, written, replayed and audited.

use crate::growths::meet;
use gn_capture::{
    Capture, HistorySteps, Line, open_history, read_capture, read_history, write_history,
};
use gn_fixtures::{
    Call, FIRST_PING, Failure, Heap, OWN, PING, Refused, Turn, Turns, growths, growths_of_call,
    is_same_step,
};
use gn_io::{ReaderSource, Sink, Source, WriterSink};
use gn_replay::{
    Exit, ReplayFault, audit, audit_explained, audit_unfinished, replay, replay_history,
};
use gn_rules::{Config, Legality, Numbers, Step};
use gn_table_router::TableRouter;
use gn_text::{CaptureRefusal, NumberedLine, NumberedLines, fields_into, read_header};
use std::alloc::{Allocator, Global};
use std::test::Fail;

/// Two connect, one sends a Ping, and it is routed.
const CAPTURE: &str = "gnutella-capture 1\n\
config 4 8 4 8 8 100\n\
own eeeeeeeeeeeeeeeeeeeeeeeeeeeeeeee 127.0.0.1 6346 5 40\n\
join\n\
join\n\
data 1 a1a1a1a1a1a1a1a1a1a1a1a1a1a1a1a100070000000000\n\
route 0\n";

/// What its replay prints.
const PRINTED: &str = "0 connect = connected 1\n\
0 connect = connected 2\n\
0 admit 1 a1a1a1a1a1a1a1a1a1a1a1a1a1a1a1a100070000000000 = admitted 0\n\
0 route 0 = routed local 1+a1a1a1a1a1a1a1a1a1a1a1a1a1a1a1a10101000e000000ca187f0000010500000028000000 2+a1a1a1a1a1a1a1a1a1a1a1a1a1a1a1a100060100000000\n";

/// Its history with another ticket.
const OTHER_TICKET: &str = "gnutella-history 1\n\
config 4 8 4 8 8 100\n\
own eeeeeeeeeeeeeeeeeeeeeeeeeeeeeeee 127.0.0.1 6346 5 40\n\
0 connect = connected 1\n\
0 connect = connected 2\n\
0 admit 1 a1a1a1a1a1a1a1a1a1a1a1a1a1a1a1a100070000000000 = admitted 1\n\
0 route 0 = routed local 1+a1a1a1a1a1a1a1a1a1a1a1a1a1a1a1a10101000e000000ca187f0000010500000028000000 2+a1a1a1a1a1a1a1a1a1a1a1a1a1a1a1a100060100000000\n\
end\n";

/// Its history without the second connection.
const ONE_CONNECTION: &str = "gnutella-history 1\n\
config 4 8 4 8 8 100\n\
own eeeeeeeeeeeeeeeeeeeeeeeeeeeeeeee 127.0.0.1 6346 5 40\n\
0 connect = connected 1\n\
0 admit 1 a1a1a1a1a1a1a1a1a1a1a1a1a1a1a1a100070000000000 = admitted 0\n\
0 route 0 = routed local 1+a1a1a1a1a1a1a1a1a1a1a1a1a1a1a1a10101000e000000ca187f0000010500000028000000 2+a1a1a1a1a1a1a1a1a1a1a1a1a1a1a1a100060100000000\n\
end\n";

/// Its history, cut within its last line.
const CUT: &str = "gnutella-history 1\n\
config 4 8 4 8 8 100\n\
own eeeeeeeeeeeeeeeeeeeeeeeeeeeeeeee 127.0.0.1 6346 5 40\n\
0 connect = connected 1\n\
0 connect = connected 2\n\
0 admit 1 a1a1a1a1a1a1a1a1a1a1a1a1a1a1a1a100070000000000 = admitted 0\n\
0 route 0 = routed local 1+a1a1a1a1a1a1a1a1a1a1a1a1a1a1a1a10101000e000000ca187f0000010500000028000000 2+a1a1a1a1a1a1a1a1a1a1a1a1a1a1a1a100060100000000\n\
en";

/// Its history with the Ping admitted twice.
const ADMITTED_TWICE: &str = "gnutella-history 1\n\
config 4 8 4 8 8 100\n\
own eeeeeeeeeeeeeeeeeeeeeeeeeeeeeeee 127.0.0.1 6346 5 40\n\
0 connect = connected 1\n\
0 connect = connected 2\n\
0 admit 1 a1a1a1a1a1a1a1a1a1a1a1a1a1a1a1a100070000000000 = admitted 0\n\
0 admit 1 a1a1a1a1a1a1a1a1a1a1a1a1a1a1a1a100070000000000 = admitted 0\n\
0 route 0 = routed local 1+a1a1a1a1a1a1a1a1a1a1a1a1a1a1a1a10101000e000000ca187f0000010500000028000000 2+a1a1a1a1a1a1a1a1a1a1a1a1a1a1a1a100060100000000\n\
end\n";

/// What is read or written.
#[derive(Clone, Copy)]
enum Text {
    Fields,
    ReadHeader,
    ReadCapture,
    ReadHistory,
    WriteHistory,
}

/// Each text once.
const TEXTS: [Handles; 5] = [
    Handles(Text::Fields),
    Handles(Text::ReadHeader),
    Handles(Text::ReadCapture),
    Handles(Text::ReadHistory),
    Handles(Text::WriteHistory),
];

/// The growths that each meets. A list of fields, or of lines or steps, has room for four when it first grows, and doubles from
/// then on.
const GROWTHS: [u64; 5] = [
    // Five fields behind one, in a list with room for that.
    2,
    // The fields of `config`, seven, and of `own`, six, and the parts of its address, four.
    5,
    // The header; one list of fields for all lines, the list of four lines, and the piece, which is shared from then on.
    9,
    // The header, each step, and the list of four steps.
    11,
    // 376 bytes where six are full: the first title fills 24, and that doubles up to 384.
    5,
];

/// The first line of the history that is a step, and its fields.
const CONNECTS: NumberedLine<'static> = (4, b"0 connect = connected 1");

/// The fields of that line.
const CONNECTS_FIELDS: [&[u8]; 5] = [b"0", b"connect", b"=", b"connected", b"1"];

/// A history as it is written and as it is read, and where.
#[derive(Drop)]
struct Writing<A: Allocator> {
    alloc: A,
    config: Config,
    steps: Vec<Step<A>, A>,
    lines: NumberedLines<'static>,
    fields: Vec<&'static [u8], A>,
    out: Vec<u8, A>,
}

/// What came of a text.
#[derive(Drop)]
enum Known<A: Allocator> {
    Fields,
    Header(Config),
    Capture(Capture<A>),
    History(Config, Vec<Step<A>, A>),
    Written,
}

/// The call that reads or writes a text of this kind.
#[derive(Clone, Copy)]
struct Handles(Text);

/// A refusal as the table of growths counts it.
fn failure(refusal: CaptureRefusal) -> Failure {
    match refusal {
        CaptureRefusal::NoMemory => Failure::NoMemory,
        CaptureRefusal::Fault(_) => Failure::Other,
    }
}

/// Whether this is what the second and the third line say.
fn is_configuration(config: &Config) -> bool {
    let numbers = Numbers {
        neighbours: 4,
        seen: 8,
        servents: 4,
        stage: 8,
        out: 8,
        steps: 100,
        life: 0,
        crowd: 0,
    };
    config.numbers == numbers && config.own == OWN
}

/// Whether this is the capture, each line with its number.
fn is_capture<A: Allocator>(capture: &Capture<A>) -> bool {
    is_configuration(&capture.config)
        && match capture.lines.as_slice() {
            [
                (first, Line::Join),
                (second, Line::Join),
                (third, Line::Piece { link, bytes }),
                (fourth, Line::Route(ticket)),
            ] => {
                [*first, *second, *third, *fourth] == [4, 5, 6, 7]
                    && (*link, *ticket) == (1, 0)
                    && bytes.as_slice() == PING
            }
            _ => false,
        }
}

impl<A: Allocator + Copy> Call<A> for Handles {
    type Subject = Writing<A>;

    type Answer = Known<A>;

    fn subject(&self, alloc: A) -> Result<Writing<A>, Fail> {
        let (config, steps) = read_history(alloc, FIRST_PING.as_bytes())?;
        Ok(Writing {
            alloc,
            config,
            steps,
            lines: NumberedLines::of(FIRST_PING.as_bytes()),
            fields: Vec::from_slice(alloc, &CONNECTS_FIELDS[..1])?,
            out: Vec::from_slice(alloc, b"before")?,
        })
    }

    fn make(&self, writing: &mut Writing<A>) -> Result<Known<A>, Failure> {
        match self.0 {
            Text::Fields => match fields_into(CONNECTS.1, &mut writing.fields) {
                Ok(()) => Ok(Known::Fields),
                Err(_) => Err(Failure::NoMemory),
            },
            Text::ReadHeader => {
                match read_header(writing.alloc, gn_text::Text::History, &mut writing.lines) {
                    Ok(config) => Ok(Known::Header(config)),
                    Err(refusal) => Err(failure(refusal)),
                }
            }
            Text::ReadCapture => match read_capture(writing.alloc, CAPTURE.as_bytes()) {
                Ok(capture) => Ok(Known::Capture(capture)),
                Err(refusal) => Err(failure(refusal)),
            },
            Text::ReadHistory => match read_history(writing.alloc, FIRST_PING.as_bytes()) {
                Ok((config, steps)) => Ok(Known::History(config, steps)),
                Err(refusal) => Err(failure(refusal)),
            },
            Text::WriteHistory => {
                match write_history(&writing.config, writing.steps.as_slice(), &mut writing.out) {
                    Ok(()) => Ok(Known::Written),
                    Err(_) => Err(Failure::NoMemory),
                }
            }
        }
    }

    fn is_unchanged(&self, writing: &Writing<A>, other: &Writing<A>) -> bool {
        writing.fields.as_slice() == &CONNECTS_FIELDS[..1]
            && writing.lines.copy().next_line() == other.lines.copy().next_line()
            && writing.out.as_slice() == other.out.as_slice()
    }

    fn is_right(&self, writing: &mut Writing<A>, known: &Known<A>) -> bool {
        match known {
            Known::Fields => {
                writing.fields.as_slice().get(1..) == Some(CONNECTS_FIELDS.as_slice())
            }
            Known::Header(config) => {
                is_configuration(config) && writing.lines.next_line() == Ok(CONNECTS)
            }
            Known::Capture(capture) => is_capture(capture),
            Known::History(config, steps) => {
                let mut again = Vec::new(writing.alloc);
                write_history(config, steps.as_slice(), &mut again).is_ok()
                    && again.as_slice() == FIRST_PING.as_bytes()
            }
            Known::Written => { writing.out.strip_prefix(b"before") == Some(FIRST_PING.as_bytes()) }
        }
    }
}

/// The history, where so many steps are read.
fn opened_at<A: Allocator + Copy>(
    alloc: A,
    number: usize,
) -> Result<HistorySteps<'static, A>, CaptureRefusal> {
    let (_, mut left) = open_history(alloc, FIRST_PING.as_bytes())?;
    for _ in 0..number {
        left.next_step()?;
    }
    Ok(left)
}

/// Whether what was read is the step of this number, or the end after the last.
fn is_step_at<A: Allocator + Copy>(
    alloc: A,
    number: usize,
    step: Option<Step<A>>,
) -> Result<bool, CaptureRefusal> {
    let (_, steps) = read_history(alloc, FIRST_PING.as_bytes())?;
    Ok(match (step, steps.get(number)) {
        (Some(step), Some(wanted)) => is_same_step(&step, wanted),
        (None, None) => true,
        _ => false,
    })
}

/// Reads the step of this number after those before it: a refusal leaves its line to be read again.
#[derive(Clone, Copy)]
struct ReadsStep(usize);

impl<A: Allocator + Copy> Turns<A> for ReadsStep {
    fn turn(&self, heap: &Heap, alloc: A, refused: Refused) -> Result<Turn, Fail> {
        heap.refuse_none();
        let mut left = opened_at(alloc, self.0)?;
        refused.begin(heap);
        let first = left.next_step();
        let has_refused = heap.has_refused();
        heap.refuse_none();
        let (step, turn) = match first {
            Ok(step) if !has_refused => (step, Turn::Answered),
            Err(CaptureRefusal::NoMemory) if has_refused => (left.next_step()?, Turn::Refused),
            _ => return Ok(Turn::Wrong),
        };
        let is_right = is_step_at(alloc, self.0, step)?;
        Ok(if is_right { turn } else { Turn::Wrong })
    }
}

/// The growths of each step of the history, and of its end: those of the Ping, and beside the list of two sends those of the
/// Pong, whose payload is shared, and of the Ping. The fields of a line take none.
const STEPS: [u64; 5] = [0, 0, 1, 4, 0];

/// The growths that reading each step meets, and its end.
fn growths_of_steps<A: Allocator + Copy>(heap: &Heap, alloc: A) -> Result<[u64; 5], Fail> {
    let mut met = [0u64; 5];
    for (number, growths_met) in met.iter_mut().enumerate() {
        *growths_met = growths(heap, alloc, &ReadsStep(number))?;
    }
    Ok(met)
}

/// Whether each text and each step meets its growths.
fn texts_meet<A: Allocator + Copy>(out: Global, heap: &Heap, alloc: A) -> Result<(), Fail> {
    meet(out, heap, alloc, &TEXTS, &GROWTHS)?;
    let met = growths_of_steps(heap, alloc)?;
    if met == STEPS {
        Ok(())
    } else {
        Err(Fail::new(format_args!("{met:?}")))
    }
}

#[test]
fn what_is_read_and_written(rt: HostRuntime) -> Result<(), Fail> {
    let heap = Heap::new(rt.alloc());
    texts_meet(rt.alloc(), &heap, &heap)
}

/// What goes from a source to a sink. An audit has what it is to find.
#[derive(Clone, Copy)]
enum Command {
    Replay,
    ReplayHistory,
    Audit(Legality),
    AuditExplained(Legality),
    AuditUnfinished(Legality),
}

/// What a replay of the capture comes to.
const FOUR_STEPS: Exit = Exit {
    steps: 4,
    refusals: 0,
};

impl Command {
    /// Whether it answers what it is to answer.
    fn obey<A: Allocator + Copy, S: Source, W: Sink>(
        self,
        alloc: A,
        source: &mut S,
        sink: &mut W,
    ) -> Result<bool, ReplayFault> {
        Ok(match self {
            Command::Replay => replay::<A, TableRouter<A>, S, W>(alloc, source, sink)?
                == FOUR_STEPS,
            Command::ReplayHistory => {
                replay_history::<A, TableRouter<A>, S, W>(alloc, source, sink)? == FOUR_STEPS
            }
            Command::Audit(wanted) => {
                audit::<A, TableRouter<A>, S, W>(alloc, source, sink)? == wanted
            }
            Command::AuditExplained(wanted) => {
                audit_explained::<A, TableRouter<A>, S, W>(alloc, source, sink)? == wanted
            }
            Command::AuditUnfinished(wanted) => {
                audit_unfinished::<A, TableRouter<A>, S, W>(alloc, source, sink)? == wanted
            }
        })
    }
}

/// A command, what it reads and writes, and the growths that it meets where the sink has a memory of its own, and where it
/// hasn't.
type Row = (Command, &'static str, &'static str, u64, u64);

/// Each command over the first Ping's capture or history.
const COMMANDS: [Row; 8] = [
    (Command::Replay, CAPTURE, PRINTED, 47, 48),
    (Command::ReplayHistory, CAPTURE, FIRST_PING, 49, 50),
    (
        Command::Audit(Legality::Legal),
        FIRST_PING,
        "legal 4\n",
        32,
        33,
    ),
    (
        Command::Audit(Legality::WrongAt(2)),
        OTHER_TICKET,
        "wrong 2\n",
        20,
        21,
    ),
    (
        Command::Audit(Legality::WrongAt(2)),
        ONE_CONNECTION,
        "wrong 2\n",
        30,
        31,
    ),
    (
        Command::Audit(Legality::WrongAt(3)),
        ADMITTED_TWICE,
        "wrong 3\n",
        29,
        30,
    ),
    (
        Command::AuditExplained(Legality::WrongAt(2)),
        OTHER_TICKET,
        "wrong 2\nline 6: 0 admit 1 a1a1a1a1a1a1a1a1a1a1a1a1a1a1a1a100070000000000 = admitted 1\nrules: admitted 0\n",
        24,
        25,
    ),
    (
        Command::AuditUnfinished(Legality::Legal),
        CUT,
        "legal 4 unfinished\n",
        34,
        35,
    ),
];

/// Goes through a text, to a sink over this allocator. Where that is the heap, a growth that the sink is refused is a failed
/// write.
#[derive(Drop)]
struct Obeys<B> {
    row: Row,
    sink: B,
    is_shared: bool,
}

/// The allocator of a command, and what it wrote last.
#[derive(Drop)]
struct Output<A, B: Allocator> {
    alloc: A,
    written: Vec<u8, B>,
}

impl<A: Allocator + Copy, B: Allocator + Copy> Call<A> for Obeys<B> {
    type Subject = Output<A, B>;

    type Answer = bool;

    fn subject(&self, alloc: A) -> Result<Output<A, B>, Fail> {
        Ok(Output {
            alloc,
            written: Vec::new(self.sink),
        })
    }

    fn make(&self, output: &mut Output<A, B>) -> Result<bool, Failure> {
        let (command, read, _, _, _) = self.row;
        let mut source = ReaderSource::new(read.as_bytes());
        let mut sink = WriterSink::new(Vec::new(self.sink));
        let answer = command.obey(output.alloc, &mut source, &mut sink);
        output.written = sink.into_inner();
        match answer {
            Ok(is_answer) => Ok(is_answer),
            Err(ReplayFault::NoMemory) => Err(Failure::NoMemory),
            Err(ReplayFault::Write) if self.is_shared => Err(Failure::NoMemory),
            Err(_) => Err(Failure::Other),
        }
    }

    /// What was written is the beginning of what is to be.
    fn is_unchanged(&self, output: &Output<A, B>, _other: &Output<A, B>) -> bool {
        self.row.2.as_bytes().starts_with(output.written.as_slice())
    }

    fn is_right(&self, output: &mut Output<A, B>, is_answer: &bool) -> bool {
        *is_answer && output.written.as_slice() == self.row.2.as_bytes()
    }
}

/// How many growths a command meets where the sink has this memory.
fn growths_of_row<A: Allocator + Copy, B: Allocator + Copy>(
    heap: &Heap,
    alloc: A,
    row: Row,
    sink: B,
    is_shared: bool,
) -> Result<u64, Fail> {
    let call = Obeys {
        row,
        sink,
        is_shared,
    };
    growths_of_call(heap, alloc, &call)
}

/// How many growths a command meets where the sink has a memory of its own, and where it hasn't.
fn apart_and_shared<A: Allocator + Copy, B: Allocator + Copy>(
    heap: &Heap,
    alloc: A,
    rich: B,
    row: Row,
) -> Result<(u64, u64), Fail> {
    let apart = growths_of_row(heap, alloc, row, rich, false)?;
    Ok((apart, growths_of_row(heap, alloc, row, alloc, true)?))
}

/// Whether each command meets its growths. An `Err` names the first that doesn't.
fn commands_meet<A: Allocator + Copy, B: Allocator + Copy>(
    heap: &Heap,
    alloc: A,
    rich: B,
) -> Result<(), Fail> {
    for (number, row) in COMMANDS.iter().copied().enumerate() {
        let met = apart_and_shared(heap, alloc, rich, row)?;
        if met != (row.3, row.4) {
            return Err(Fail::new(format_args!("command {number}: {met:?}")));
        }
    }
    Ok(())
}

#[test]
fn what_is_replayed_and_audited(rt: HostRuntime) -> Result<(), Fail> {
    let heap = Heap::new(rt.alloc());
    commands_meet(&heap, &heap, rt.alloc())
}
