//! Where the counts of a run are asked for, while it goes on.

use crate::meters::Meters;
use crate::patient::{LOOK, Patient};
use crate::scrape::Scrape;
use gn_links::LinkFault;
use gn_tcp::ListenerStopper;
use http_server::{Config, Connection, serve};
use http1::Limits;
use std::alloc::Global;
use std::hash::RandomState;
use std::net::{TcpListener, TcpStream};
use std::sync::Wait;
use std::sync::atomic::{AtomicBool, Ordering};
use std::thread;
use std::thread::{Scope, Threads};
use std::time::{Clock, Duration};

/// The most bytes of a request.
const REQUEST: usize = 4_096;

/// What is read of a caller, and how much at most waits to be sent.
static CONFIG: Config = Config {
    limits: Limits {
        max_head_len: REQUEST,
        max_extensions_len: 0,
        max_trailers_len: 0,
    },
    max_body_len: 0,
    max_pending: 65_536,
    read_size: REQUEST,
};

/// A port where one caller after another is answered.
pub struct Desk {
    listener: TcpListener,
    stopper: ListenerStopper,
    /// What keeps a caller from naming fields that are slow to find.
    keys: RandomState,
    is_over: AtomicBool,
}

impl Drop for Desk {
    fn drop(self) {
        let Desk {
            listener: _,
            stopper: _,
            keys: _,
            is_over: _,
        } = self;
    }
}

impl Desk {
    /// Nobody is answered yet. It fails where the system gives no second handle of the listener.
    pub fn new(listener: TcpListener, keys: RandomState) -> Result<Self, LinkFault> {
        let stopper = ListenerStopper::of(&listener)?;
        Ok(Desk {
            listener,
            stopper,
            keys,
            is_over: AtomicBool::new(false),
        })
    }

    /// Answers a caller. What it does wrong ends its connection, and nothing else.
    fn answer(&self, stream: &TcpStream, scrape: &mut Scrape<'_>) {
        let look = Some(Duration::from_millis(LOOK));
        if stream.set_read_timeout(look).is_err() || stream.set_write_timeout(look).is_err() {
            return;
        }
        let mut connection = Connection::new(scrape.alloc, self.keys, CONFIG);
        let mut reader = Patient::new(stream, &self.is_over);
        let mut writer = stream;
        let _ = serve(&mut connection, scrape, &mut reader, &mut writer);
    }

    /// Answers one caller after another until the run is over. Where nobody can be accepted it looks again after a while.
    fn run<R: Wait + Clock>(&self, rt: &R, mut scrape: Scrape<'_>) {
        for _ in rt.forever() {
            let accepted = self.listener.accept();
            if self.is_over.load(Ordering::SeqCst) {
                return;
            }
            match accepted {
                Ok((stream, _)) => self.answer(&stream, &mut scrape),
                Err(_) => thread::sleep(rt, Duration::from_millis(LOOK)),
            }
        }
    }

    /// Nobody is answered any more: who calls is refused.
    pub fn close(&self) {
        self.is_over.store(true, Ordering::SeqCst);
        self.stopper.shut();
    }

    /// Runs a body, and answers beside it, in a thread of its own, who asks for what is counted. Where no thread can be made for that
    /// nobody is answered, and who calls is refused.
    pub fn beside<R: Threads + Wait + Clock + Sync, T, F: FnOnce() -> T>(
        &self,
        rt: &R,
        alloc: Global,
        meters: &Meters,
        body: F,
    ) -> T
        requires { F.pre body }
        ensures { F.post body result }
    {
        thread::scope(
            thread::scope_env(),
            rt,
            |scope| -> T
                requires { F.pre body }
                ensures { F.post body result }
            { self.within(rt, scope, Scrape { alloc, meters }, body) },
        )
    }

    /// The same, with a thread of this scope.
    fn within<'s, X: 's, R: Threads + Wait + Clock + Sync + 's, T, F: FnOnce() -> T>(
        &'s self,
        rt: &'s R,
        scope: &Scope<'s, X>,
        scrape: Scrape<'s>,
        body: F,
    ) -> T
        requires { F.pre body }
        ensures { F.post body result }
    {
        let started = scope.spawn(move || self.run(rt, scrape));
        if started.is_err() {
            self.close();
        }
        let done = body();
        self.close();
        if let Ok(thread) = started {
            thread.join(rt);
        }
        done
    }
}
