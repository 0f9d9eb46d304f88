//! A capture, replayed from its text.

ghost use Rattle.std.specs.Prelude.{◌≡◌, ◌≤◌, Some, length, IfOk, IfErr, IfSome, IsOk, OnOk};
ghost use Rattle.gn_replay.specs.Faults.{IsAnswerOn, IsReplayFault, input_of};
ghost use Rattle.gn_io.specs.Input.{input_limit};
ghost use Rattle.gn_io.specs.Streams.{NoWriteFailed, streams, text_between};
ghost use Rattle.gn_capture.specs.Captures.{capture_of};
ghost use Rattle.gn_replay.specs.Printed.{AppendsPrinted, HasPrintedStopped};
ghost use Rattle.gn_replay.specs.Replays.{AppendsReplay, HasStopped, IsCounted};

use crate::fault::ReplayFault;
use crate::form::Form;
use crate::run::play_as;
use gn_capture::read_capture;
use gn_io::{Sink, Source, read_input};
use gn_rules::FreshRouter;
use std::alloc::Allocator;

/// What a replay came to, counted.
#[derive(Clone, Copy, Debug, PartialEq, Eq)]
pub struct Exit {
    /// How many steps the router made.
    pub steps: u32,
    /// How many events it refused, up to the last u64.
    pub refusals: u64,
}

/// Replays a capture that is read whole. Its text is gone before the first line is played.
fn replay_text<A: Allocator + Copy, C: FreshRouter<A> + Drop, W: Sink>(
    alloc: A,
    text: Vec<u8, A>,
    form: Form,
    sink: &mut W,
) -> Result<Exit, ReplayFault>
    requires { length text.items ≤ input_limit }
    ensures valid { OnOk result (IsOk (capture_of {A = A} text.items)) }
    ensures written { OnOk result (AppendsPrinted A form text.items (W.state sink.old).written
        (W.state sink.new).written) }
    ensures counted { IfOk result (λ exit. IsCounted A text.items exit) }
    ensures writes { OnOk result (NoWriteFailed (W.state sink.old) (W.state sink.new)) }
    ensures stopped { IfErr result (λ fault. HasPrintedStopped A form fault (Some text.items)
        (W.state sink.old).written (W.state sink.new).written) }
    ensures fault { IfErr result (λ fault. IsReplayFault fault (capture_of {A = A})
        (streams (input_of text.items) (input_of text.items) (W.state sink.old) (W.state sink.new))) }
{
    let capture = read_capture(alloc, &text)?;
    drop(text);
    let replayed = play_as::<A, C, W>(alloc, capture, form, sink)?;
    Ok(Exit {
        steps: replayed.core.step_count(),
        refusals: replayed.refusals,
    })
}

/// Reads a capture whole, plays its lines on a new router, and writes what is printed of them.
pub(crate) fn replay_as<A: Allocator + Copy, C: FreshRouter<A> + Drop, S: Source, W: Sink>(
    alloc: A,
    form: Form,
    source: &mut S,
    sink: &mut W,
) -> Result<Exit, ReplayFault>
    ensures answer { IsAnswerOn (capture_of {A = A})
        (streams (S.state source.old) (S.state source.new) (W.state sink.old) (W.state sink.new)) result }
    ensures written { OnOk result (IfSome (text_between (S.state source.old) (S.state source.new)) (λ text.
        AppendsPrinted A form text (W.state sink.old).written (W.state sink.new).written)) }
    ensures counted { IfOk result (λ exit.
        IfSome (text_between (S.state source.old) (S.state source.new)) (λ text. IsCounted A text exit)) }
    ensures stopped { IfErr result (λ fault.
        HasPrintedStopped A form fault (text_between (S.state source.old) (S.state source.new))
        (W.state sink.old).written (W.state sink.new).written) }
{
    let text = read_input(alloc, source)?;
    replay_text::<A, C, W>(alloc, text, form, sink)
}

/// Reads a capture whole, plays its lines on a new router, and writes what they print in blocks, as `play` does. An
/// `Ok` says that no read failed and no write failed or took nothing. After an `Err` a prefix of that text was written,
/// and nothing where the capture wasn't read or has a fault.
pub fn replay<A: Allocator + Copy, C: FreshRouter<A> + Drop, S: Source, W: Sink>(
    alloc: A,
    source: &mut S,
    sink: &mut W,
) -> Result<Exit, ReplayFault>
    ensures answer { IsAnswerOn (capture_of {A = A})
        (streams (S.state source.old) (S.state source.new) (W.state sink.old) (W.state sink.new)) result }
    ensures written { OnOk result (IfSome (text_between (S.state source.old) (S.state source.new)) (λ text.
        AppendsReplay A text (W.state sink.old).written (W.state sink.new).written)) }
    ensures counted { IfOk result (λ exit.
        IfSome (text_between (S.state source.old) (S.state source.new)) (λ text. IsCounted A text exit)) }
    ensures stopped { IfErr result (λ fault. HasStopped A fault (text_between (S.state source.old) (S.state source.new))
        (W.state sink.old).written (W.state sink.new).written) }
{
    replay_as::<A, C, S, W>(alloc, Form::Whole, source, sink)
}
