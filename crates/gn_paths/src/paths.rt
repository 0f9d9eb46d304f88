//! Laws of one router: where what it sends goes, where it comes from, and how often it is sent.

ghost use Rattle.gn_paths.specs.Paths.{AnswersGoBack, PushesGoBack};
ghost use Rattle.gn_paths.specs.Sends.{LifeFalls, NotSentAgain, NothingFromNowhere, RequestsSpread};

use std::alloc::Allocator;

/// The law that a Pong or Query Hit goes to where its request came from, or nowhere.
pub fn answers_go_back<A: Allocator>()
    ensures { AnswersGoBack A }
{}

/// The law that a Push goes to where the last Query Hit of its servent came from, or nowhere.
pub fn pushes_go_back<A: Allocator>()
    ensures { PushesGoBack A }
{}

/// The law that a new Ping or Query goes once to each other live connection, and that any other goes nowhere.
pub fn requests_spread<A: Allocator>()
    ensures { RequestsSpread A }
{}

/// The law that what is passed on has one Hop more, less TTL, and all else as it came.
pub fn life_falls<A: Allocator>()
    ensures { LifeFalls A }
{}

/// The law that nothing is sent again while it is remembered, nor before as many others were kept.
pub fn not_sent_again<A: Allocator>()
    ensures { NotSentAgain A }
{}

/// The law that each queued packet is an own Pong, the local servent's own, or one that another connection brought.
pub fn nothing_from_nowhere<A: Allocator>()
    ensures { NothingFromNowhere A }
{}
