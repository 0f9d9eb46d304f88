//! The report that an account tells, whose lists are made of the history of its run.

ghost use Rattle.std.specs.Prelude.{◌≡◌, ◌+◌, ◌<◌, ◌^◌, IfErr, IfOk, length, map, vec_len};
ghost use Rattle.gn_receipts.specs.Made.{AreMade, receipt_list};
ghost use Rattle.gn_report.specs.Accounts.{report_of};
ghost use Rattle.gn_report.specs.Actors.{AreOwn};
ghost use Rattle.gn_report.specs.Told.{Tells, account_ends, ends_of, lists_of};

use crate::account::{Account, LinkAccount};
use crate::dealing::{Dealt, deal};
use crate::report::{LinkReport, Report};
use gn_receipts::receipts_by_actor;
use gn_rules::{Receipt, Step};
use std::alloc::{AllocError, Allocator, Global};

/// What a report has of its actors.
#[derive(Drop)]
struct Actors<Rd, W, A: Allocator = Global> {
    pub links: Vec<LinkReport<Rd, W, A>, A>,
    pub workers: Vec<Vec<Receipt<A>, A>, A>,
    pub house: Vec<Receipt<A>, A>,
}

/// The report of a link of which this is the account, and whose actors have these receipts.
fn link_report<Rd, W, A: Allocator>(
    link: LinkAccount<Rd, W, A>,
    reading: Vec<Receipt<A>, A>,
    writing: Vec<Receipt<A>, A>,
) -> LinkReport<Rd, W, A>
    ensures ends { ends_of result ≡ account_ends link }
    ensures receipts { (result.reader_receipts ≡ reading) × (result.writer_receipts ≡ writing) }
{
    LinkReport {
        conn: link.conn,
        reader_end: link.reader_end,
        reader_receipts: reading,
        reader: link.reader,
        writer_end: link.writer_end,
        writer_receipts: writing,
        writer: link.writer,
    }
}

/// The reports of links of which these are the accounts, and whose actors have these receipts. An `Err` is out of memory.
fn link_reports<Rd: Drop, W: Drop, A: Allocator + Copy>(
    alloc: A,
    links: Vec<LinkAccount<Rd, W, A>, A>,
    reading: Vec<Vec<Receipt<A>, A>, A>,
    writing: Vec<Vec<Receipt<A>, A>, A>,
) -> Result<Vec<LinkReport<Rd, W, A>, A>, AllocError>
    requires { (vec_len reading ≡ vec_len links) × (vec_len writing ≡ vec_len links) }
    ensures many { IfOk result (λ made. vec_len made ≡ vec_len links) }
    ensures ends { IfOk result (λ made. map ends_of made.items ≡ map account_ends links.items) }
    ensures reading { IfOk result (λ made. map (λ link. link.reader_receipts.items) made.items
        ≡ map receipt_list reading.items) }
    ensures writing { IfOk result (λ made. map (λ link. link.writer_receipts.items) made.items
        ≡ map receipt_list writing.items) }
{
    let mut made = Vec::with_capacity(alloc, links.len())?;
    let mut reading = reading.into_iter();
    let mut writing = writing.into_iter();
    for link in links {
        let Some(own) = reading.next() else {
            unreachable!()
        };
        let Some(other) = writing.next() else {
            unreachable!()
        };
        made.push_reserved(link_report(link, own, other));
    }
    Ok(made)
}

/// What the report of links with these accounts and of so many workers has of its actors, by the history. An `Err` is out of memory.
fn actors_of<Rd: Drop, W: Drop, A: Allocator + Copy>(
    alloc: A,
    links: Vec<LinkAccount<Rd, W, A>, A>,
    workers: u32,
    steps: &[Step<A>],
) -> Result<Actors<Rd, W, A>, AllocError>
    requires few { (length steps.now < 2 ^ 32) × (vec_len links + vec_len links + workers + 1 < 2 ^ 32) }
    ensures many { IfOk result (λ made. (vec_len made.links ≡ vec_len links) × (vec_len made.workers ≡ workers)) }
    ensures ends { IfOk result (λ made. map ends_of made.links.items ≡ map account_ends links.items) }
    ensures receipts { IfOk result (λ made. AreMade (vec_len links + vec_len links + workers + 1) steps.now
        (lists_of made.links.items made.workers.items made.house)) }
{
    let count = links.len();
    let actors = 2 * count as u32 + workers + 1;
    let all = receipts_by_actor(alloc, steps, actors)?;
    let Dealt {
        readers,
        writers,
        workers,
        house,
    } = deal(all, count)?;
    let links = link_reports(alloc, links, readers, writers)?;
    Ok(Actors {
        links,
        workers,
        house,
    })
}

/// The report that an account tells, with this history, of which the receipts are made. An `Err` is out of memory, and gives the
/// history back.
pub fn tell<Rd: Drop, W: Drop, A: Allocator + Copy>(
    alloc: A,
    account: Account<Rd, W, A>,
    history: Vec<Step<A>, A>,
) -> Result<Report<Rd, W, A>, Vec<Step<A>, A>>
    requires same { history.items ≡ account.history.items }
    requires few { length history.items < 2 ^ 32 }
    requires own { AreOwn (report_of account) }
    ensures told { IfOk result (λ report. Tells account report) }
    ensures kept { IfErr result (λ steps. steps.items ≡ history.items) }
{
    let workers = account.workers.len() as u32;
    let stats = account.stats;
    let Ok(made) = actors_of(alloc, account.links, workers, &history) else {
        return Err(history);
    };
    let Actors {
        links,
        workers,
        house,
    } = made;
    Ok(Report {
        history,
        links,
        workers,
        house,
        stats,
    })
}
