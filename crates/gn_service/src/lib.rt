//! The run over TCP, each link started as it comes; and what a user of any run names, passed on from the crates below: `run`,
//! links, gates, actors, bodies and reports.
#![tactic(auto)]

mod accepting;
mod any;
mod asked;
mod callees;
mod calling;
mod counted;
mod doorstep;
mod entrance;
mod failing;
mod floods;
mod host;
mod live;
mod looks;
mod newcomers;
mod owed;
mod parting;
mod past;
mod peers;
mod pings;
mod ran;
mod rate;
mod registering;
mod running;
mod serve;
mod serving;
mod stop;
mod stops;
mod tallies;

pub use any::{serve_any, serve_past};
pub use gn_bodies::{
    BodyFault, Caller, ReaderDone, ReaderEnd, ReaderTask, WorkerDone, WorkerTask, WriterDone,
    WriterEnd, WriterTask, reader_body, worker_body, writer_body,
};
pub use gn_hub::{Actor, Batch, Door, Hub, Mark, Next, Outgoing, Service, ServiceFault};
pub use gn_links::{
    Gate, Half, Link, LinkFault, LinkReader, LinkWriter, Made, MemoryLink, MemoryReader,
    MemoryWriter, NoGate, Place, Watch,
};
pub use gn_report::{Account, LinkAccount, LinkReport, LinkTally, Report};
pub use gn_shake::Role;
pub use gn_start::Recall;
pub use gn_tcp::{TcpLink, TcpOrigin, TcpReader, TcpWriter, listen};
pub use gn_threads::{
    Arrivals, Asked, Coming, Course, Halted, InMemory, OpenAccount, Routing, RunFault, Stopped,
    run, run_arriving, run_arriving_by, run_arriving_kept, run_by, stopped_by, tell,
};
pub use host::Host;
pub use parting::Parting;
pub use past::{NoPast, Past};
pub use pings::Pings;
pub use ran::Ran;
pub use serve::{serve_by, serve_kept, serve_on};
pub use serving::{Any, Serve, Serving};
pub use stop::Stop;
pub use tallies::tallies_of;
