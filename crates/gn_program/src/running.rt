//! A router that is run, and how its history is written.

ghost use Rattle.std.specs.Prelude.{◌≡◌, ◌+◌, ◌≤◌, ◌||◌, ℕ, List, None, is_some, length, true, unwrap_or};
ghost use Rattle.gn_comments.specs.Rests.{HasWrittenRest, with_all};
ghost use Rattle.gn_comments.specs.Sinks.{HasWrittenBoth, without_comments};
ghost use Rattle.gn_io.specs.Streams.{SinkState};
ghost use Rattle.gn_load.specs.Any.{IsJournalledTaken};
ghost use Rattle.gn_program.specs.Limits.{goes_on};
ghost use Rattle.gn_program.specs.Runs.{IsWhole};
ghost use Rattle.gn_program.specs.Serves.{IsWritten, has_comments};
ghost use Rattle.gn_rules.specs.Limits.{most_links};

use crate::before::{Before, Reread};
use crate::calls::Calls;
use crate::remarks::Remarks;
use crate::serve::ServeOptions;
use gn_comments::{Commented, Continued, Lent, Naming};
use gn_io::{ReaderSource, Sink};
use gn_links::Watch;
use gn_load::{ServeHalted, Taken, Taking, serve_resumed, serve_taken};
use gn_metrics::{Desk, Metered, Meters};
use gn_service::{Host, Parting, Ran, Serve};
use std::alloc::Global;
use std::io::StdinLock;
use std::marker::Brand;

/// A router that is run, what its options say of that, and what becomes known of the history that it goes on with, where it goes on with one.
#[derive(Drop)]
pub(crate) struct Running<'a, 's, R, G, T> {
    pub rt: &'a R,
    pub alloc: Global,
    pub serve: &'a Serve<'a, 's, Calls<'a, G>, Taking<'a, T>>,
    pub serving: &'a ServeOptions,
    pub reread: &'a Reread,
    ghost few: { unwrap_or serve.now.accept.accept 0 + length serve.now.peers.now ≤ most_links },
    ghost accept: { serve.now.accept.accept ≡ serving.now.accept },
}

/// Whether the router goes on with the history that standard input gives.
fn goes_on(serving: &ServeOptions) -> bool
    ensures { result ≡ goes_on serving.now }
{
    serving.resumes && serving.accept.is_none()
}

/// Whether it is written with comments: where any are asked for, and where the router goes on with a history in any case.
fn is_commented(serving: &ServeOptions) -> bool
    ensures { result ≡ (goes_on serving.now || has_comments serving.now) }
{
    goes_on(serving) || serving.times || serving.links
}

impl<
    'a,
    's,
    R: Host + Input<Reader = StdinLock<'static>>,
    G: Watch + Sync,
    T: Parting<Global> + Sync,
> Running<'a, 's, R, G, T> {
    /// Runs a router that goes on with a history, and writes what comes behind that to the sink that `B` names.
    fn run_rest<'w, B: Naming + Send, W: Sink + Send>(
        &self,
        lent: Lent<'w, W>,
    ) -> (Result<(Taken<'s>, Ran), ServeHalted>, Lent<'w, W>)
        requires named { lent.sink.ghost_name ≡ B.sink }
        requires begun { W.state lent.sink.now ≡ B.begun }
        ensures here { result.1.sink.ghost_name ≡ lent.entry.sink.ghost_name }
        ensures ran { let s = self.now.serve.now in (text : List ℕ)
            × HasWrittenRest (W.state lent.entry.sink.now) (W.state result.1.sink.now) text
            × IsJournalledTaken true s.accept.again (is_some s.accept.pings) s.batch s.config.now s.peers.now None
            s.workers (W.state lent.entry.sink.now)
            (with_all (W.state lent.entry.sink.now) (W.state result.1.sink.now) text) result.0 }
    {
        let source = ReaderSource::new(self.rt.reader());
        let past = Before::new(
            self.alloc,
            self.serve.config,
            source,
            self.reread,
            self.serve.watch.meters(),
        );
        let mut rest = Continued::<B, W>::new(lent, &self.reread.standing);
        let answer = serve_resumed(self.rt, self.alloc, self.serve, past, &mut rest);
        (answer, rest.into_inner())
    }

    /// Runs the router, and writes its history without comments, or what comes behind the one that it goes on with.
    fn run_bare<W: Sink + Send>(&self, writer: &mut W) -> Result<(Taken<'s>, Ran), ServeHalted>
        ensures { let s = self.now.serve.now in (all : SinkState)
            × IsWhole (goes_on self.now.serving.now) (W.state writer.old) all (W.state writer.new)
            × IsJournalledTaken (goes_on self.now.serving.now) s.accept.again (is_some s.accept.pings) s.batch
            s.config.now s.peers.now s.accept.accept s.workers (W.state writer.old) all result }
    {
        if goes_on(self.serving) {
            let lent = Lent { sink: writer };
            let (answer, Lent { sink: _sink }) = self.run_rest::<Brand, W>(lent);
            return answer;
        }
        serve_taken::<_, _, _, _>(self.rt, self.alloc, self.serve, writer)
    }

    /// Does the same, with comments, to the sink that `B` names.
    fn run_commented<'w, B: Naming + Send, W: Sink + Send>(
        &self,
        lent: Lent<'w, W>,
    ) -> (Result<(Taken<'s>, Ran), ServeHalted>, Lent<'w, W>)
        requires named { lent.sink.ghost_name ≡ B.sink }
        requires begun { W.state lent.sink.now ≡ B.begun }
        ensures here { result.1.sink.ghost_name ≡ lent.entry.sink.ghost_name }
        ensures ran { let s = self.now.serve.now in (text : List ℕ)
            × HasWrittenBoth (W.state lent.entry.sink.now) (W.state result.1.sink.now) text
            × ((all : SinkState) × IsWhole (goes_on self.now.serving.now) (W.state lent.entry.sink.now) all
            (without_comments (W.state lent.entry.sink.now) (W.state result.1.sink.now) text)
            × IsJournalledTaken (goes_on self.now.serving.now) s.accept.again (is_some s.accept.pings) s.batch
            s.config.now s.peers.now s.accept.accept s.workers (W.state lent.entry.sink.now) all result.0) }
    {
        let remarks = Remarks::new(
            self.rt,
            self.alloc,
            self.serve.watch,
            self.serve.peers,
            self.serving,
        );
        let mut commented = Commented::<B, W, Remarks<'_, '_, R, G>>::new(
            self.alloc, lent, remarks,
        );
        let answer = self.run_bare(&mut commented);
        (answer, commented.into_inner())
    }

    /// Runs the router, and writes its history, with comments where they are asked for, or what comes behind the one that it goes on with.
    pub(crate) fn run<W: Sink + Send>(
        &self,
        writer: &mut W,
    ) -> Result<(Taken<'s>, Ran), ServeHalted>
        ensures { let s = self.now.serve.now in (all : SinkState)
            × IsWritten (goes_on self.now.serving.now) (has_comments self.now.serving.now) (W.state writer.old) all
            (W.state writer.new)
            × IsJournalledTaken (goes_on self.now.serving.now) s.accept.again (is_some s.accept.pings) s.batch
            s.config.now s.peers.now s.accept.accept s.workers (W.state writer.old) all result }
    {
        if is_commented(self.serving) {
            let lent = Lent { sink: writer };
            let (answer, Lent { sink: _sink }) = self.run_commented::<Brand, W>(lent);
            return answer;
        }
        self.run_bare(writer)
    }

    /// Does the same, to the sink that `B` names, where the text is counted.
    fn run_counted<'w, B: Naming + Send, W: Sink + Send>(
        &self,
        meters: &Meters,
        lent: Lent<'w, W>,
    ) -> (Result<(Taken<'s>, Ran), ServeHalted>, Lent<'w, W>)
        requires named { lent.sink.ghost_name ≡ B.sink }
        ensures here { result.1.sink.ghost_name ≡ lent.entry.sink.ghost_name }
        ensures ran { let s = self.now.serve.now in (all : SinkState)
            × IsWritten (goes_on self.now.serving.now) (has_comments self.now.serving.now)
            (W.state lent.entry.sink.now) all (W.state result.1.sink.now)
            × IsJournalledTaken (goes_on self.now.serving.now) s.accept.again (is_some s.accept.pings) s.batch
            s.config.now s.peers.now s.accept.accept s.workers (W.state lent.entry.sink.now) all result.0 }
    {
        let mut metered = Metered::<B, W>::new(lent, meters);
        let answer = self.run(&mut metered);
        (answer, metered.into_inner())
    }

    /// Does the same, to any sink that is lent.
    fn run_metered<'w, W: Sink + Send>(
        &self,
        meters: &Meters,
        lent: Lent<'w, W>,
    ) -> (Result<(Taken<'s>, Ran), ServeHalted>, Lent<'w, W>)
        ensures here { result.1.sink.ghost_name ≡ lent.entry.sink.ghost_name }
        ensures ran { let s = self.now.serve.now in (all : SinkState)
            × IsWritten (goes_on self.now.serving.now) (has_comments self.now.serving.now)
            (W.state lent.entry.sink.now) all (W.state result.1.sink.now)
            × IsJournalledTaken (goes_on self.now.serving.now) s.accept.again (is_some s.accept.pings) s.batch
            s.config.now s.peers.now s.accept.accept s.workers (W.state lent.entry.sink.now) all result.0 }
    {
        self.run_counted::<Brand, W>(meters, lent)
    }

    /// Runs the router, and writes its history as `run` does. Where its counts are asked for, who asks is answered beside it.
    pub(crate) fn run_scraped<W: Sink + Send>(
        &self,
        desk: Option<&Desk>,
        writer: &mut W,
    ) -> Result<(Taken<'s>, Ran), ServeHalted>
        ensures { let s = self.now.serve.now in (all : SinkState)
            × IsWritten (goes_on self.now.serving.now) (has_comments self.now.serving.now) (W.state writer.old) all
            (W.state writer.new)
            × IsJournalledTaken (goes_on self.now.serving.now) s.accept.again (is_some s.accept.pings) s.batch
            s.config.now s.peers.now s.accept.accept s.workers (W.state writer.old) all result }
    {
        let (Some(desk), Some(meters)) = (desk, self.serve.watch.meters()) else {
            return self.run(writer);
        };
        let router = self;
        let lent = Lent { sink: writer };
        let (answer, Lent { sink: _sink }) = desk.beside(
            self.rt,
            self.alloc,
            meters,
            move ||
                ensures here { result.1.sink.ghost_name ≡ lent.entry.sink.ghost_name }
                ensures ran { let r = router.entry.now in let s = r.serve.now in (all : SinkState)
                    × IsWritten (goes_on r.serving.now) (has_comments r.serving.now) (W.state lent.entry.sink.now)
                    all (W.state result.1.sink.now)
                    × IsJournalledTaken (goes_on r.serving.now) s.accept.again (is_some s.accept.pings) s.batch
                    s.config.now s.peers.now s.accept.accept s.workers (W.state lent.entry.sink.now) all result.0 }
            { router.run_metered(meters, lent) },
        );
        answer
    }
}
