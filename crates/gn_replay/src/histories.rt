//! A capture replayed for the history of its router.

ghost use Rattle.std.specs.Prelude.{◌≡◌, IfOk, IfErr, IfSome, OnOk};
ghost use Rattle.gn_replay.specs.Faults.{IsAnswerOn};
ghost use Rattle.gn_io.specs.Streams.{streams, text_between};
ghost use Rattle.gn_capture.specs.Captures.{capture_of};
ghost use Rattle.gn_replay.specs.ReplayHistory.{AppendsHistory, HasHistoryStopped};
ghost use Rattle.gn_replay.specs.Replays.{IsCounted};
ghost use Rattle.gn_text.specs.Header.{header_text};
ghost use Rattle.gn_numbers.specs.declared.titles.Text.TheVariants.{History};

use crate::fault::ReplayFault;
use crate::form::Form;
use crate::replays::{Exit, replay_as};
use gn_io::{Block, Sink, Source};
use gn_rules::{Config, FreshRouter};
use gn_text::{Text, push_header};
use std::alloc::{AllocError, Allocator};

/// What stands in a history before its steps.
pub fn history_heading<A: Allocator + Copy>(
    alloc: A,
    config: &Config,
) -> Result<Block<A>, AllocError>
    ensures { IfOk result (λ block. block ≡ header_text History config.now) }
{
    let mut block = Block::new(alloc);
    push_header(block.bytes(), Text::History, config)?;
    Ok(block)
}

/// Reads a capture whole, plays its lines on a new router, and writes the history of that router, which `audit` reads: each
/// step as it is made, in blocks of at least 32,768 bytes, the last one shorter. An `Ok` says that no read failed and no
/// write failed or took nothing. After an `Err` a prefix of the history was written, and nothing where the capture wasn't read
/// or has a fault.
pub fn replay_history<A: Allocator + Copy, C: FreshRouter<A> + Drop, S: Source, W: Sink>(
    alloc: A,
    source: &mut S,
    sink: &mut W,
) -> Result<Exit, ReplayFault>
    ensures answer { IsAnswerOn (capture_of {A = A})
        (streams (S.state source.old) (S.state source.new) (W.state sink.old) (W.state sink.new)) result }
    ensures written { OnOk result (IfSome (text_between (S.state source.old) (S.state source.new)) (λ text.
        AppendsHistory A text (W.state sink.old).written (W.state sink.new).written)) }
    ensures counted { IfOk result (λ exit.
        IfSome (text_between (S.state source.old) (S.state source.new)) (λ text. IsCounted A text exit)) }
    ensures stopped { IfErr result (λ fault.
        HasHistoryStopped A fault (text_between (S.state source.old) (S.state source.new))
        (W.state sink.old).written (W.state sink.new).written) }
{
    replay_as::<A, C, S, W>(alloc, Form::Steps, source, sink)
}
