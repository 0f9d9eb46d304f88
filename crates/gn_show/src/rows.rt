//! The rows of a step: one for each packet that it admits, refuses, sends, drops or takes.
#![tactic(auto, using(std::proofs::Common::append_assoc))]

ghost use Rattle.std.specs.Prelude.{◌≡◌, ◌++◌, ◌∷◌, if◌then◌else◌, List, [], Some, length, IfOk, OnOk, option_map};
ghost use Rattle.std.specs.List.{flat_map};
ghost use Rattle.std.specs.declared.alloc.Global.{Global};
ghost use Rattle.gn_rules.specs.declared.receipt.Step.{Step};
ghost use Rattle.gn_show.specs.Kept.{Follows, fields_seen, id_field, placed, row_seen, seen};
ghost use Rattle.gn_show.specs.Rows.{lines_of, number_field, origin_of, own_line, packet_fields, packet_of, queued_field, row_line, send_line, step_lines, taken_row, taker};

use crate::clock::Moment;
use crate::flight::{Flight, Subject};
use crate::row_writer::RowWriter;
use gn_numbers::{counter_name, event_name, kind_names};
use gn_rules::{ConnId, Counter, Event, Reply, Sending, Step};
use gn_wire::{Descriptor, Guid};
use itoa::Buffer;
use std::alloc::{AllocError, Global};

/// What a row says of a packet.
#[derive(Clone, Copy)]
pub(crate) struct Row<'a> {
    from: Option<ConnId>,
    to: Option<ConnId>,
    packet: Option<&'a Descriptor>,
    queued: Option<bool>,
}

/// What a row says of the packet itself.
#[derive(Clone, Copy)]
pub(crate) struct PacketFields {
    kind: &'static str,
    id: Option<Guid>,
    ttl: Option<u32>,
    hops: Option<u32>,
    length: Option<u32>,
}

/// A step whose packets get rows.
#[derive(Clone, Copy)]
pub(crate) struct Shown<'a> {
    alloc: Global,
    moment: Moment<'a>,
    step: &'a Step,
    /// The packet that its event speaks of.
    subject: Option<Subject<'a>>,
}

/// A number in decimal digits, where there is one.
fn number_field<'a>(digits: &'a mut Buffer, number: Option<u32>) -> &'a [u8]
    ensures { result.now ≡ number_field number }
{
    match number {
        Some(number) => digits.format(number).as_bytes(),
        None => b"",
    }
}

/// An ID in hex digits, where there is one.
fn id_field<'a>(digits: &'a mut [u8; 32], id: Option<Guid>) -> &'a [u8]
    ensures { result.now ≡ id_field id }
{
    match id {
        Some(id) => {
            // An ID has 16 bytes, so its digits fit.
            let _written = hex::encode_to_slice(id.0.as_slice(), digits);
            digits
        }
        None => b"",
    }
}

/// Whether a packet was queued, where it was sent.
fn queued_field(queued: Option<bool>) -> &'static [u8]
    ensures { result.now ≡ queued_field queued }
{
    match queued {
        None => b"",
        Some(true) => b"1",
        Some(false) => b"0",
    }
}

/// The length of a payload, which is at most 65,536.
fn payload_length(packet: &Descriptor) -> u32
    ensures { result ≡ length packet.now.payload }
{
    packet.payload().len() as u32
}

/// What a row says of a packet, where it is known.
fn fields_of(packet: Option<&Descriptor>) -> PacketFields
    ensures { fields_seen result ≡ packet_fields (option_map (λ d. d.now) packet.entry) }
{
    match packet {
        Some(packet) => PacketFields {
            kind: kind_names(packet.kind()).json,
            id: Some(packet.id()),
            ttl: Some(u32::from(packet.ttl())),
            hops: Some(u32::from(packet.hops())),
            length: Some(payload_length(packet)),
        },
        None => PacketFields {
            kind: "",
            id: None,
            ttl: None,
            hops: None,
            length: None,
        },
    }
}

/// Appends the line of a row.
fn push_row(rows: &mut RowWriter, shown: &Shown<'_>, row: &Row<'_>) -> Result<(), AllocError>
    ensures { OnOk result (rows.new
        ≡ rows.old ++ row_line (placed shown.now.moment) shown.now.step.now (row_seen row.now)) }
{
    let packet = fields_of(row.packet);
    // References in an array have one lifetime, and the time has another.
    let time = Vec::from_slice(shown.alloc, shown.moment.time)?;
    let mut index = Buffer::new();
    let mut actor = Buffer::new();
    let mut from = Buffer::new();
    let mut to = Buffer::new();
    let mut id = [0; 32];
    let mut ttl = Buffer::new();
    let mut hops = Buffer::new();
    let mut length = Buffer::new();
    rows.push(&[
        index.format(shown.moment.index).as_bytes(),
        time.as_slice(),
        actor.format(shown.step.actor).as_bytes(),
        event_name(&shown.step.event).as_bytes(),
        counter_name(Counter::of(&shown.step.reply)).as_bytes(),
        number_field(&mut from, row.from),
        number_field(&mut to, row.to),
        packet.kind.as_bytes(),
        id_field(&mut id, packet.id),
        number_field(&mut ttl, packet.ttl),
        number_field(&mut hops, packet.hops),
        number_field(&mut length, packet.length),
        queued_field(row.queued),
    ])
}

/// Which connection brought a packet.
fn origin_of(subject: Option<Subject<'_>>) -> Option<ConnId>
    ensures { result ≡ origin_of (seen subject.entry) }
{
    match subject {
        Some(subject) => Some(subject.origin),
        None => None,
    }
}

/// The packet that an event speaks of.
fn packet_of<'a>(subject: Option<Subject<'a>>) -> Option<&'a Descriptor>
    ensures { option_map (λ d. d.now) result ≡ packet_of (seen subject.entry) }
{
    match subject {
        Some(subject) => Some(subject.packet),
        None => None,
    }
}

/// Whose output an event takes from.
fn taker(event: &Event) -> Option<ConnId>
    ensures { result ≡ taker event.now }
{
    match event {
        Event::Take(c) => Some(*c),
        _ => None,
    }
}

/// Appends the line of the packet that a step's event speaks of.
fn push_own(rows: &mut RowWriter, shown: &Shown<'_>, to: Option<ConnId>) -> Result<(), AllocError>
    ensures { OnOk result (rows.new
        ≡ rows.old ++ own_line (seen shown.now.subject) (placed shown.now.moment) shown.now.step.now to) }
{
    let row = Row {
        from: origin_of(shown.subject),
        to,
        packet: packet_of(shown.subject),
        queued: None,
    };
    push_row(rows, shown, &row)
}

/// Appends the line of a send.
fn push_send(rows: &mut RowWriter, shown: &Shown<'_>, sending: &Sending) -> Result<(), AllocError>
    ensures { OnOk result (rows.new
        ≡ rows.old ++ send_line (seen shown.now.subject) (placed shown.now.moment) shown.now.step.now sending.now) }
{
    let row = Row {
        from: origin_of(shown.subject),
        to: Some(sending.to),
        packet: Some(&sending.packet),
        queued: Some(sending.queued),
    };
    push_row(rows, shown, &row)
}

/// Appends a line for each send.
fn push_sends(rows: &mut RowWriter, shown: &Shown<'_>, sends: &[Sending]) -> Result<(), AllocError>
    ensures { OnOk result (rows.new
        ≡ rows.old
        ++ flat_map (send_line (seen shown.now.subject) (placed shown.now.moment) shown.now.step.now) sends.now) }
{
    for sending in sends {
        push_send(rows, shown, sending)?;
    }
    Ok(())
}

/// Appends the lines of a routing.
fn push_routed(
    rows: &mut RowWriter,
    shown: &Shown<'_>,
    sends: &[Sending],
    local: bool,
) -> Result<(), AllocError>
    ensures { OnOk result (rows.new
        ≡ rows.old
        ++ flat_map (send_line (seen shown.now.subject) (placed shown.now.moment) shown.now.step.now) sends.now
        ++ (if local then own_line (seen shown.now.subject) (placed shown.now.moment) shown.now.step.now (Some 0)
        else [])) }
{
    push_sends(rows, shown, sends)?;
    if !local {
        return Ok(());
    }
    push_own(rows, shown, Some(0))
}

/// Appends the line of what a step takes.
fn push_taken(
    rows: &mut RowWriter,
    shown: &Shown<'_>,
    packet: &Descriptor,
) -> Result<(), AllocError>
    ensures { OnOk result (rows.new
        ≡ rows.old
        ++ row_line (placed shown.now.moment) shown.now.step.now (taken_row shown.now.step.now.event packet.now)) }
{
    let row = Row {
        from: None,
        to: taker(&shown.step.event),
        packet: Some(packet),
        queued: None,
    };
    push_row(rows, shown, &row)
}

/// Appends the lines of a step's rows, of which there may be none.
#[tactic(auto, using(crate::proofs::RowLemmas::row_lines))]
fn push_lines(rows: &mut RowWriter, shown: &Shown<'_>) -> Result<(), AllocError>
    ensures { OnOk result (rows.new
        ≡ rows.old ++ lines_of (seen shown.now.subject) (placed shown.now.moment) shown.now.step.now) }
{
    match &shown.step.reply {
        Reply::Connected(_) | Reply::TooMany | Reply::Closed(_) => Ok(()),
        Reply::Routed { sends, local } => push_routed(rows, shown, sends.as_slice(), *local),
        Reply::Sent(sends) => push_sends(rows, shown, sends.as_slice()),
        Reply::Taken(packet) => push_taken(rows, shown, packet),
        _ => push_own(rows, shown, None),
    }
}

/// The lines of the rows of a step, which comes next; what it leaves in flight is followed.
pub(crate) fn next_lines(
    alloc: Global,
    rows: &mut RowWriter,
    flight: &mut Flight,
    moment: Moment<'_>,
    step: Step,
) -> Result<Vec<u8>, AllocError>
    ensures { IfOk result (λ lines. (past : List (Step Global)) → Follows flight.old past
        → (lines.items ≡ step_lines past (placed moment.entry) step) × Follows flight.new (step ∷ past)) }
{
    rows.begin();
    let shown = Shown {
        alloc,
        moment,
        step: &step,
        subject: flight.subject(&step.event),
    };
    push_lines(rows, &shown)?;
    flight.follow(step)?;
    Vec::from_slice(alloc, rows.text())
}
