//! The body of a writer.

ghost use Rattle.std.specs.Prelude.{◌≡◌, ◌<◌, ◌∷◌, ◌++◌, [], ℕ, None, false, true, IfOk, OnOk};
ghost use Rattle.std.specs.Option.{option_copied};
ghost use Rattle.gn_wire.specs.Encoding.{bytes_of};
ghost use Rattle.gn_rules.specs.History.{taken_of};
ghost use Rattle.gn_laws.specs.Owners as laws;
ghost use Rattle.gn_links.specs.Halves.{IsNewWriter};
ghost use Rattle.gn_shake.specs.Greeting.{is_calling};
ghost use Rattle.gn_shake.specs.declared.role.Role.{Role};
ghost use Rattle.gn_bodies.specs.declared.ends.WriterEnd.TheVariants.{Closed, NeverOpened, WriteFailed};
ghost use Rattle.gn_bodies.specs.Done.{IsWriterDone, WriterLeaves, WritesAs, half_of, writer_ended};
ghost use Rattle.gn_bodies.specs.Events.{packets_of};
ghost use Rattle.gn_bodies.specs.Writing.{HasWrittenPackets, WritesOn, WritesPackets, text_of};
ghost use Rattle.gn_bodies.specs.Written.{HasWrittenText, WriterSteps};

use crate::caller::Caller;
use crate::ends::{BodyFault, WriterEnd};
use gn_actors::Named;
use gn_hub::{Actor, Batch, FoundClosed, Idle, Outgoing};
use gn_links::{Gate, Half, LinkWriter};
use gn_rules::{ConnId, Receipt, Reply, RouterCore};
use gn_shake::Role;
use gn_wire::{Descriptor, HEADER_BYTES};
use std::alloc::{AllocError, Allocator, Global};
use std::sync::Wait;
use std::sync::ledger::Ledger;

/// The most bytes of memory that a text keeps once it was written.
const MOST_KEPT: usize = 262_144;

/// What the body of a writer gives back.
#[derive(Drop)]
pub struct WriterDone<W, L: Ledger + Named, A: Allocator = Global> {
    pub actor: Actor<L, A>,
    pub role: Role,
    pub writer: W,
    pub end: Result<WriterEnd, BodyFault>,
    /// The connection that its link has, where it has an end: none where it didn't wait for it, or the link never connected.
    pub connection: Option<ConnId>,
    /// What says that the connection was found closed, where a write had failed.
    pub found_closed: Option<FoundClosed>,
    /// What says that nothing was in flight when it closed its connection, where that was drained.
    pub idle: Option<Idle<L, A>>,
}

/// What a writer is to do: to write to this link of this role, and to take at most a batch of packets at once.
#[derive(Drop)]
pub struct WriterTask<W> {
    pub role: Role,
    pub batch: Batch,
    pub writer: W,
}

/// What a writer lends to its calls, for one batch after another.
#[derive(Drop)]
struct Lent<A: Allocator = Global> {
    /// The receipts of the packets that were taken.
    taken: Vec<Receipt<A>, A>,
    /// Their encodings.
    text: Vec<u8, A>,
}

impl<A: Allocator + Copy> Lent<A> {
    /// What holds no batch yet.
    fn none(alloc: A) -> Self {
        Lent {
            taken: Vec::new(alloc),
            text: Vec::new(alloc),
        }
    }

    /// Empties the text, which was written, and gives its memory back where that is much.
    fn forget_text(&mut self) {
        self.text.clear();
        if self.text.capacity() > MOST_KEPT {
            self.text.shrink_to_fit();
        }
    }
}

/// A writer at work: its actor's calls, the half of its link, what it lends to its calls, and what is known of how its connection was
/// closed.
#[derive(Drop)]
struct WriterHandler<
    's,
    W,
    G,
    L: Ledger + Named,
    C: RouterCore<A> + Drop,
    R,
    A: Allocator + Copy = Global,
> {
    caller: Caller<'s, G, L, C, R, A>,
    writer: W,
    lent: Lent<A>,
    found_closed: Option<FoundClosed>,
    idle: Option<Idle<L, A>>,
}

/// Writes all of a text. False where a write failed, or took nothing.
fn write_text<W: LinkWriter, R: Wait>(rt: &R, writer: &mut W, text: &[u8]) -> bool
    ensures made { W.made_of writer.new ≡ W.made_of writer.old }
    ensures state { HasWrittenText result text.now (W.state writer.old) (W.state writer.new) }
{
    let mut at: usize = 0;
    while at < text.len() {
        match writer.write(rt, &text[at..]) {
            Ok(0) => return false,
            Ok(n) => at += n,
            Err(_) => return false,
        }
    }
    true
}

/// The packet of a receipt, where it was taken.
fn taken_in<A: Allocator>(receipt: &Receipt<A>) -> Option<&Descriptor<A>>
    ensures { option_copied result ≡ taken_of receipt.now.reply }
{
    match &receipt.reply {
        Reply::Taken(packet) => Some(packet),
        _ => None,
    }
}

/// Appends the encoding of a packet to a text. An `Err` is out of memory.
fn encode<A: Allocator>(packet: &Descriptor<A>, text: &mut Vec<u8, A>) -> Result<(), AllocError>
    ensures { OnOk result (text.new.items ≡ text.old.items ++ bytes_of packet.now) }
{
    text.reserve(HEADER_BYTES + packet.payload().len())?;
    packet.write_to(text)
}

/// Appends the encoding of the packet of a receipt to a text, where it was taken. An `Err` is out of memory.
fn encode_receipt<A: Allocator>(
    receipt: &Receipt<A>,
    text: &mut Vec<u8, A>,
) -> Result<(), AllocError>
    ensures { OnOk result (text.new.items ≡ text.old.items ++ text_of (laws.packets_of (receipt.now ∷ []))) }
{
    match taken_in(receipt) {
        Some(packet) => encode(packet, text),
        None => Ok(()),
    }
}

/// Puts the encodings of the packets that were taken in place of a text, in order. An `Err` is out of memory.
fn encode_all<A: Allocator>(
    receipts: &[Receipt<A>],
    text: &mut Vec<u8, A>,
) -> Result<(), AllocError>
    ensures { OnOk result (text.new.items ≡ text_of (laws.packets_of receipts.now)) }
{
    text.clear();
    for receipt in receipts {
        encode_receipt(receipt, text)?;
    }
    Ok(())
}

/// Writes the request of a calling link. False where a write failed, or took nothing.
fn write_request<W: LinkWriter, R: Wait>(rt: &R, writer: &mut W, role: Role) -> bool
    requires new { (W.state writer.old).bytes ≡ [] }
    ensures made { W.made_of writer.new ≡ W.made_of writer.old }
    ensures all { result ≡ true → WritesAs 1 role NeverOpened [] (W.state writer.new) }
    ensures part { result ≡ false → WritesAs 1 role WriteFailed [] (W.state writer.new) }
    ensures calls { result ≡ false → is_calling role ≡ true }
{
    match role {
        Role::Calling => write_text(rt, writer, gn_shake::request()),
        Role::Accepting | Role::Plain => true,
    }
}

/// Writes the consent of an accepting link. False where a write failed, or took nothing.
fn write_consent<W: LinkWriter, R: Wait>(rt: &R, writer: &mut W, role: Role) -> bool
    requires called { WritesAs 1 role NeverOpened [] (W.state writer.old) }
    ensures made { W.made_of writer.new ≡ W.made_of writer.old }
    ensures all { result ≡ true → WritesAs 1 role Closed [] (W.state writer.new) }
    ensures part { result ≡ false → WritesAs 1 role WriteFailed [] (W.state writer.new) }
{
    match role {
        Role::Accepting => write_text(rt, writer, gn_shake::consent()),
        Role::Calling | Role::Plain => true,
    }
}

impl<
    's,
    W: LinkWriter,
    G: Gate,
    L: Ledger + Named,
    C: RouterCore<A> + Drop,
    R: Wait,
    A: Allocator + Copy,
> WriterHandler<'s, W, G, L, C, R, A> {
    /// Encodes the packets that were taken, and writes them as one text. None where all of it was written, of which little memory is kept
    /// then; else how the body ends.
    fn write_taken(&mut self) -> Option<Result<WriterEnd, BodyFault>>
        ensures same { (self.new.caller ≡ self.old.caller) × (self.new.idle ≡ self.old.idle) }
        ensures made { W.made_of self.new.writer ≡ W.made_of self.old.writer }
        ensures state { HasWrittenPackets result (laws.packets_of self.old.lent.taken.items) (W.state self.old.writer)
            (W.state self.new.writer) }
    {
        let Ok(()) = encode_all(self.lent.taken.as_slice(), &mut self.lent.text) else {
            return Some(Err(BodyFault::NoMemory));
        };
        let text = self.lent.text.as_slice();
        if !write_text(self.caller.rt(), &mut self.writer, text) {
            return Some(Ok(WriterEnd::WriteFailed));
        }
        self.lent.forget_text();
        None
    }

    /// Takes the link's next packets, at most a batch, and writes them. None where all of them were written; else how the body ends.
    fn write_next(&mut self, c: ConnId, batch: Batch) -> Option<Result<WriterEnd, BodyFault>>
        ensures same { (self.new.caller.number ≡ self.old.caller.number)
            × (W.made_of self.new.writer ≡ W.made_of self.old.writer) }
        ensures written { (role : Role)
            → WritesPackets batch role Closed c None self.old.caller (W.state self.old.writer)
            → WritesOn batch role result c self.new.idle self.new.caller (W.state self.new.writer) }
    {
        match self
            .caller
            .next_out(c, batch, &mut self.lent.taken, &mut self.idle)
        {
            Ok(Outgoing::Packet) => self.write_taken(),
            Ok(Outgoing::Drained) => Some(Ok(WriterEnd::Drained)),
            Ok(Outgoing::Closed) => Some(Ok(WriterEnd::Closed)),
            Err(fault) => Some(Err(fault)),
        }
    }

    /// Writes the consent of an accepting link, and then the packets that it takes.
    fn write_packets(&mut self, role: Role, c: ConnId, batch: Batch) -> Result<WriterEnd, BodyFault>
        requires some { 0 < batch }
        requires none { self.old.caller.receipts ≡ [] }
        requires called { WritesAs 1 role NeverOpened [] (W.state self.old.writer) }
        ensures same { (self.new.caller.number ≡ self.old.caller.number)
            × (W.made_of self.new.writer ≡ W.made_of self.old.writer) }
        ensures written { IfOk result (λ end. WritesPackets batch role end c self.new.idle self.new.caller
            (W.state self.new.writer)) }
    {
        if !write_consent(self.caller.rt(), &mut self.writer, role) {
            return Ok(WriterEnd::WriteFailed);
        }
        let rt = self.caller.rt();
        for _ in rt.forever() {
            if let Some(end) = self.write_next(c, batch) {
                return end;
            }
        }
        unreachable!()
    }

    /// Opens the link, writes, and closes it where a write failed. Its connection is put to this one, which isn't known before.
    fn write_link(
        &mut self,
        role: Role,
        batch: Batch,
        connection: &mut Option<ConnId>,
    ) -> Result<WriterEnd, BodyFault>
        requires some { 0 < batch }
        requires new { (self.old.caller.receipts ≡ []) × ((W.state self.old.writer).bytes ≡ [])
            × (connection.old ≡ None) }
        ensures same { (self.new.caller.number ≡ self.old.caller.number)
            × (W.made_of self.new.writer ≡ W.made_of self.old.writer) }
        ensures written { IfOk result
            (λ end. WritesAs batch role end (packets_of self.new.caller) (W.state self.new.writer)) }
        ensures steps { IfOk result
            (λ end. WriterSteps role end connection.new self.new.found_closed self.new.idle self.new.caller.receipts) }
    {
        if !write_request(self.caller.rt(), &mut self.writer, role) {
            return Ok(WriterEnd::WriteFailed);
        }
        let Some(c) = self.caller.meet() else {
            return Ok(WriterEnd::NeverOpened);
        };
        *connection = Some(c);
        let end = self.write_packets(role, c, batch)?;
        if let WriterEnd::WriteFailed = end {
            self.found_closed = self.caller.close(c)?;
        }
        Ok(end)
    }
}

/// The body of a writer: it writes the request of a calling link, waits until the link has connected, writes the consent of
/// an accepting one, and then the packets that it takes: at most `batch` at once, which it writes as one text. Where a write
/// failed it closes the connection, or finds it closed. The gate learns of each step.
///
/// A stop fails the run. In any case the link's writer is finished.
pub fn writer_body<
    W: LinkWriter,
    G: Gate,
    C: RouterCore<A> + Drop,
    L: Ledger + Named,
    A: Allocator + Copy,
    R: Wait,
>(caller: Caller<'_, G, L, C, R, A>, task: WriterTask<W>) -> WriterDone<W, L, A>
    requires none { caller.receipts ≡ [] }
    requires new { IsNewWriter (W.state task.writer) }
    ensures done { IsWriterDone W.state W.made_of task.batch (half_of task.role task.writer) (writer_ended result) }
    ensures left { WriterLeaves caller.entry task result }
{
    let WriterTask {
        role,
        batch,
        writer,
    } = task;
    // It shows that a batch is one packet at least.
    let _most = batch.most();
    let lent = Lent::none(caller.alloc);
    let mut me = WriterHandler {
        caller,
        writer,
        lent,
        found_closed: None,
        idle: None,
    };
    let mut connection = None;
    let end = me.write_link(role, batch, &mut connection);
    let WriterHandler {
        caller,
        mut writer,
        lent,
        found_closed,
        idle,
    } = me;
    drop(lent);
    caller.fail_at_stop(&end);
    writer.finish(caller.rt());
    caller.tell_ended(Half::Writer);
    WriterDone {
        actor: caller.into_actor(),
        role,
        writer,
        end,
        connection,
        found_closed,
        idle,
    }
}
