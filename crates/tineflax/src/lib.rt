//! Tineflax as one library: the public surface of its crates by subject, so that a program names this crate alone. The
//! definitions that its contracts cite stand by the same subjects in specs/.
#![tactic(auto)]

/// IDs, headers and descriptors, and their encodings.
pub mod wire {
    pub use bytes::Bytes;
    pub use gn_wire::{
        Descriptor, FrameFault, Guid, HEADER_BYTES, Header, Key, Kind, encodings_part,
        headers_return, length_fault, read_header, same_is_equal, write_header,
    };
}

/// The payloads of Pong, Query, Query Hit and Push, read and written.
pub mod payload {
    pub use gn_payload::{
        Checked, Hit, HitResult, Payload, Pong, Push, Query, Results, Verdict, WriteRefusal,
        one_reading, read_hit, read_payload, read_pong, read_push, read_query,
        readings_are_grammar, sound_is_read, write_hit, write_pong, write_push, write_query,
    };
}

/// The greeting, and a link's role in it.
pub mod greeting {
    pub use gn_shake::{
        Role, Shake, ShakeState, Shaken, consent, greeting_is_known, pieces_are_one_stream, request,
    };
}

/// Whole descriptors, put together from the pieces of a stream.
pub mod frames {
    pub use gn_frames::{
        Fed, FeedRefusal, Reassembler, frames_are_cut, frames_are_one, pieces_are_one_stream,
    };
}

/// The bytes that come on a link: its greeting, then its descriptors.
pub mod inbound {
    pub use gn_inbound::{Given, Inbound};
}

/// Configurations, events, replies and steps, and what every router promises.
pub mod rules {
    pub use gn_rules::{
        BadConfig, Config, ConnId, Counter, DropReason, Event, Excerpt, Field, FreshRouter,
        Historian, Legality, MOST_LINKS, MOST_WORKERS, Numbers, Own, Receipt, Refusal, Reply,
        RouterCore, Sending, Sends, Stats, Step, Ticket, answers_fit, checked_answers_fit,
        counters_add_up, counters_count, is_same_config, is_same_reply, live_connections_rise,
        may_originate, output_is_untaken, run_events, runs_agree, runs_agree_so_far,
        runs_stay_legal, servent_route_is_last,
    };
}

/// Laws of whole histories, of paths, and of networks.
pub mod laws {
    pub use gn_laws::{
        admitted_once, closed_stays_closed, connections_count, drained_took_all,
        equal_counts_route_all, links_agree, nothing_after_close, packets_go_to_live,
        queued_is_taken_and_waiting, routed_once, routes_are_replied, tickets_count,
    };
    pub use gn_network::runs_make_a_network;
    pub use gn_paths::{
        answers_came_back, answers_cross_back, answers_follow, answers_go_back, floods_end,
        life_falls, not_sent_again, nothing_from_nowhere, pushes_go_back, requests_spread,
    };
    pub use gn_threads::runs_add_up;
}

/// The router with tables, with what becomes of its steps; the one that searches its history; and whether a history is legal.
pub mod router {
    pub use gn_decide::Places;
    pub use gn_router::{Router, Store, Unfreed};
    pub use gn_search::PlainRouter;
    pub use gn_table_router::{Configuring, Exchange, TableRouter};
    pub use gn_tables::{Forgetful, Keeper, Whole};
    pub use gn_witness::legal;
}

/// The tables of a router.
pub mod tables {
    pub use gn_kept::SeenTable;
    pub use gn_tables::{Flight, Flights, Neighbours, ServentTable};
}

/// The stage queue between readers and workers.
pub mod stage {
    pub use gn_stage::{
        Desk, Intake, IntakeHome, Job, Outlet, OutletHome, Reception, Settled, Site, Stage,
        StageFault, Undrained, Unsettled, queue_is_bounded,
    };
}

/// The router under its lock, and the actors that call it.
pub mod hub {
    pub use gn_actors::{
        Beginning, Growing, Named, Numbering, Registry, Tally, Unnamed, Unopened, Who,
        numbers_are_apart,
    };
    pub use gn_hub::{
        Actor, Batch, Door, FoundClosed, Hub, Idle, Mark, Next, Outgoing, Progress, Retired,
        Retiring, Service, ServiceFault,
    };
    pub use gn_room::{Following, Room, run_beside};
    pub use gn_trail::{Lists, Tells, Trail};
}

/// Links over memory and over TCP.
pub mod links {
    pub use gn_links::{
        Gate, Half, Link, LinkFault, LinkReader, LinkWriter, Made, MemoryLink, MemoryReader,
        MemoryWriter, NoGate, Place, SplitFault, SplitLink, SplitLinks, split_all,
    };
    pub use gn_tcp::{
        Brake, Call, ListenerStopper, Socket, TcpCall, TcpLink, TcpOrigin, TcpReader, TcpStopper,
        TcpWriter, Unmet, listen,
    };
}

/// What the threads of a run do.
pub mod bodies {
    pub use gn_bodies::{
        BodyFault, Caller, ReaderDone, ReaderEnd, ReaderTask, WorkerDone, WorkerTask, WriterDone,
        WriterEnd, WriterTask, reader_body, worker_body, writer_body,
    };
}

/// Runs of many threads, and their reports and accounts.
pub mod run {
    pub use gn_receipts::receipts_by_actor;
    pub use gn_report::{Account, LinkAccount, LinkReport, LinkTally, Report, Unkept};
    pub use gn_service::{
        Any, Host, NoPast, Parting, Past, Pings, Ran, Recall, Serve, Serving, Stop, serve_any,
        serve_by, serve_kept, serve_on, serve_past,
    };
    pub use gn_threads::{
        Arrivals, Asked, Coming, Course, Halted, InMemory, OpenAccount, Routing, RunFault, Stopped,
        run, run_arriving, run_arriving_by, run_arriving_kept, run_by, stopped_by, tell,
    };
}

/// Sources and sinks of bytes.
pub mod streams {
    pub use gn_io::{
        InputFault, IoFault, Nowhere, ReaderSource, Sink, Source, WriterSink, read_input, write_all,
    };
}

/// Captures and histories as texts.
pub mod capture {
    pub use gn_capture::{
        Capture, CaptureFault, CaptureRefusal, Cause, HistorySteps, Line, LocalRequest, PieceBytes,
        open_history, read_capture, read_history, read_is_encoded, write_history, written_is_read,
    };
}

/// Captures replayed, and histories audited.
pub mod replay {
    pub use gn_replay::{
        Exit, ReplayFault, Replayed, audit, audit_explained, audit_unfinished, play, replay,
        replay_history, replay_text_is_one,
    };
    pub use gn_stream::StreamFault;
}

/// Histories as a reader sees them: steps in plain words or as JSON, and the counters.
pub mod show {
    pub use gn_show::{Form, View, show};
}

/// Runs whose history is written, over the links of a capture and over TCP.
pub mod load {
    pub use gn_links::Watch;
    pub use gn_load::{
        LoadFault, Loading, PrintFault, ServeFault, ServeHalted, ServeStopped, Taken, Taking,
        links_of, load, load_journalled, load_watched, print_history, serve_any_journalled,
        serve_history, serve_history_kept, serve_journalled, serve_past_journalled, serve_resumed,
        serve_taken,
    };
}

/// A whole command line of `gn`.
pub mod program {
    pub use gn_program::{Ended, Fault, Head, Kept, command, command_with};
}
