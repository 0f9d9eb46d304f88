//! Whether the ends of a link's two bodies go with the link's connection and with the Close of it.

ghost use Rattle.std.specs.Prelude.{◌≡◌, ◌==◌, ◌&&◌, ℕ, Bool, Some, None, drop, length, not};
ghost use Rattle.std.specs.List.{list_all};
ghost use Rattle.gn_rules.specs.History.{closed_of, is_at, is_close};
ghost use Rattle.gn_shake.specs.Greeting.{is_calling};
ghost use Rattle.gn_shake.specs.declared.role.Role.{Role};
ghost use Rattle.gn_bodies.specs.declared.ends.WriterEnd.TheVariants.{Drained};
ghost use Rattle.gn_report.specs.Actors.{is_awaited_reader};
ghost use Rattle.gn_report.specs.BodyEnds as ends;
ghost use Rattle.gn_report.specs.Survey.{IsSurvey};

use crate::closes::{Closer, has_close};
use crate::events::{closes, is_empty_close, is_turned_away};
use crate::report::{LinkReport, Report};
use crate::survey::Survey;
use gn_bodies::{ReaderEnd, WriterEnd};
use gn_rules::{ConnId, Receipt, Step};
use gn_shake::Role;
use std::alloc::Allocator;

/// Whether a writer of this end may have closed its connection while the run waited for its reader.
pub fn may_close_first(all_call: bool, role: Role, end: WriterEnd) -> bool
    ensures { result ≡ ends.may_close_first all_call role end }
{
    match end {
        WriterEnd::WriteFailed => true,
        WriterEnd::Drained => role.is_calling() && !all_call,
        WriterEnd::NeverOpened | WriterEnd::Closed => false,
    }
}

/// Whether the end of a reader that connected is confirmed.
fn is_connected_end<Rd, W, A: Allocator>(
    steps: &[Step<A>],
    writer: u32,
    first: bool,
    c: ConnId,
    link: &LinkReport<Rd, W, A>,
) -> bool
    ensures { result
        ≡ ends.is_reader_end steps.now writer first link.now.reader_receipts.items link.now.reader_end (Some c) }
{
    let own = link.reader_receipts.as_slice();
    let other = link.writer_receipts.as_slice();
    match link.reader_end {
        ReaderEnd::Bytes => !closes(c, own),
        ReaderEnd::Fault(_) | ReaderEnd::ReadFailed | ReaderEnd::Turns => {
            has_close(Closer::Anyone, c, steps, own, other)
        }
        ReaderEnd::GreetingRefused | ReaderEnd::GreetingCut => own.len() == 0,
        ReaderEnd::TooMany => is_turned_away(own),
        ReaderEnd::NotLive => first && has_close(Closer::Actor(writer), c, steps, other, own),
    }
}

/// Whether the end of a reader that didn't connect is confirmed.
fn is_unconnected_end<A: Allocator>(end: ReaderEnd, own: &[Receipt<A>]) -> bool
    ensures { (steps : _) (writer : ℕ) (first : Bool)
        → result ≡ ends.is_reader_end steps writer first own.now end None }
{
    match end {
        ReaderEnd::ReadFailed | ReaderEnd::Turns => true,
        ReaderEnd::GreetingRefused | ReaderEnd::GreetingCut => own.len() == 0,
        ReaderEnd::TooMany => is_turned_away(own),
        ReaderEnd::Bytes | ReaderEnd::Fault(_) | ReaderEnd::NotLive => false,
    }
}

/// Whether a reader's end is confirmed; `first` says that its writer may have closed first.
pub fn is_reader_end<Rd, W, A: Allocator>(
    steps: &[Step<A>],
    writer: u32,
    first: bool,
    link: &LinkReport<Rd, W, A>,
) -> bool
    ensures { result
        ≡ ends.is_reader_end steps.now writer first link.now.reader_receipts.items link.now.reader_end link.now.conn }
{
    match link.conn {
        Some(c) => is_connected_end(steps, writer, first, c, link),
        None => is_unconnected_end(link.reader_end, link.reader_receipts.as_slice()),
    }
}

/// Whether a receipt is of the Close of a drained connection.
fn is_last_close<Rd, W, A: Allocator>(
    report: &Report<Rd, W, A>,
    roles: &[Role],
    survey: &Survey,
    c: ConnId,
    receipt: &Receipt<A>,
) -> bool
    requires { IsSurvey roles.now report.now survey.now }
    ensures { result
        ≡ (is_close c receipt.now.event && is_at 0 (closed_of receipt.now.reply)
        && ends.is_settled report.now.history.items receipt.now.index
        && list_all (λ step. not (is_awaited_reader roles.now step.actor))
        (drop receipt.now.index report.now.history.items)) }
{
    receipt.event.closes(c)
        && is_empty_close(&receipt.reply)
        && survey.is_settled_at(
            report.links.as_slice(),
            report.history.as_slice(),
            receipt.index,
        )
        && survey.is_read_by(roles, report.history.as_slice(), receipt.index)
}

/// Whether one of the receipts is of the Close of a drained connection.
fn has_last_close<Rd, W, A: Allocator>(
    report: &Report<Rd, W, A>,
    roles: &[Role],
    survey: &Survey,
    c: ConnId,
    own: &[Receipt<A>],
) -> bool
    requires { IsSurvey roles.now report.now survey.now }
    ensures { (writer : ℕ) (role : Role) → result
        ≡ ends.is_writer_end (ends.is_settled report.now.history.items) roles.now report.now.history.items
        writer role own.now Drained (Some c) }
{
    for receipt in own {
        if is_last_close(report, roles, survey, c, receipt) {
            return true;
        }
    }
    false
}

/// Whether a writer that ended WriteFailed failed in the request text of a link that calls.
fn failed_in_request<A: Allocator>(role: Role, own: &[Receipt<A>]) -> bool
    ensures { result ≡ (is_calling role && (length own.now == 0)) }
{
    role.is_calling() && own.len() == 0
}

/// Whether the end of a writer whose link connected is confirmed.
fn is_open_end<Rd, W, A: Allocator>(
    report: &Report<Rd, W, A>,
    roles: &[Role],
    survey: &Survey,
    writer: u32,
    role: Role,
    c: ConnId,
    link: &LinkReport<Rd, W, A>,
) -> bool
    requires { IsSurvey roles.now report.now survey.now }
    ensures { result
        ≡ ends.is_writer_end (ends.is_settled report.now.history.items) roles.now report.now.history.items
        writer role link.now.writer_receipts.items link.now.writer_end (Some c) }
{
    let steps = report.history.as_slice();
    let own = link.writer_receipts.as_slice();
    let other = link.reader_receipts.as_slice();
    match link.writer_end {
        WriterEnd::Drained => has_last_close(report, roles, survey, c, own),
        WriterEnd::Closed => has_close(Closer::Except(writer), c, steps, other, own),
        WriterEnd::WriteFailed => {
            failed_in_request(role, own) || has_close(Closer::Anyone, c, steps, own, other)
        }
        WriterEnd::NeverOpened => false,
    }
}

/// Whether the end of a writer whose link didn't connect is confirmed.
fn is_unopened_end<A: Allocator>(end: WriterEnd, role: Role, own: &[Receipt<A>]) -> bool
    ensures { (settled : _) (roles : _) (steps : _) (writer : ℕ)
        → result ≡ ends.is_writer_end settled roles steps writer role own.now end None }
{
    match end {
        WriterEnd::WriteFailed => failed_in_request(role, own),
        WriterEnd::NeverOpened => true,
        WriterEnd::Drained | WriterEnd::Closed => false,
    }
}

/// Whether a writer's end is confirmed.
pub fn is_writer_end<Rd, W, A: Allocator>(
    report: &Report<Rd, W, A>,
    roles: &[Role],
    survey: &Survey,
    writer: u32,
    role: Role,
    link: &LinkReport<Rd, W, A>,
) -> bool
    requires { IsSurvey roles.now report.now survey.now }
    ensures { result
        ≡ ends.is_writer_end (ends.is_settled report.now.history.items) roles.now report.now.history.items
        writer role link.now.writer_receipts.items link.now.writer_end link.now.conn }
{
    match link.conn {
        Some(c) => is_open_end(report, roles, survey, writer, role, c, link),
        None => is_unopened_end(link.writer_end, role, link.writer_receipts.as_slice()),
    }
}
