//! What lines of a capture do to a replay.

ghost use Rattle.std.specs.Prelude.{◌≡◌, ◌<◌, ◌≤◌, ◌+◌, ◌++◌, ◌∷◌, [], List, length, slice_set, IfNone, IfSome, OnOk};
ghost use Rattle.std.specs.List.{slice_index_or};
ghost use Rattle.gn_replay.specs.declared.link.Link.TheVariants.{Ended};
ghost use Rattle.gn_replay.specs.Links.{AreLinks, LinkState};
ghost use Rattle.gn_replay.specs.Pieces.{awaits, joins};
ghost use Rattle.gn_replay.specs.Playing.{HasPlayed, with_links};
ghost use Rattle.gn_replay.specs.ReplayText.{link_added, piece_plays, plays};

use crate::link::Link;
use crate::playing::Play;
use crate::saying::Saying;
use gn_capture::Line;
use gn_inbound::Inbound;
use gn_rules::{Event, RouterCore};
use gn_shake::Role;
use std::alloc::{AllocError, Allocator};
use std::mem;

impl<A: Allocator + Copy, C: RouterCore<A>> Play<A, C> {
    /// Takes link `at`, counted from 0, out of the links.
    fn take_link(&mut self, at: usize) -> Link<A>
        requires { at < length self.old.links }
        ensures taken { result ≡ slice_index_or self.old.links at result }
        ensures left { self.new ≡ with_links self.old (slice_set self.old.links at Ended) }
    {
        mem::replace(&mut self.links[at], Link::Ended)
    }

    /// Puts a link back to its place, where there is one.
    #[tactic(auto, using(std::proofs::lemmas::List::set_past))]
    fn put_link(&mut self, at: usize, link: Link<A>)
        ensures { self.new ≡ with_links self.old (slice_set self.old.links at link) }
    {
        if at < self.links.len() {
            self.links[at] = link;
        }
    }

    /// The place of link i, counted from 1, where it is there.
    fn place_of(&self, i: u32) -> Option<usize>
        ensures place { IfSome result (λ at. i ≡ at + 1) }
        ensures there { IfSome result (λ at. at < length self.now.links) }
        ensures none { IfNone result (1 ≤ i → length self.now.links < i) }
    {
        let i = i as usize;
        if 1 <= i && i <= self.links.len() {
            Some(i - 1)
        } else {
            None
        }
    }

    /// Plays a piece of link i, counted from 1.
    fn play_piece(&mut self, i: u32, piece: &[u8]) -> Result<(), AllocError>
        ensures { OnOk result ((states : List LinkState) → AreLinks self.old.links states
            → HasPlayed self.old self.new (piece_plays self.old.settings self.old.past states i piece.now)) }
    {
        let Some(at) = self.place_of(i) else {
            return self.say(Saying::Ended(i));
        };
        let link = self.take_link(at);
        let kept = self.feed_link(i, link, piece)?;
        self.put_link(at, kept);
        Ok(())
    }

    /// Adds a link after the others.
    fn add_link(&mut self, link: Link<A>) -> Result<(), AllocError>
        ensures { OnOk result (self.new ≡ with_links self.old (self.old.links ++ link ∷ [])) }
    {
        self.links.push(link)?;
        Ok(())
    }

    /// Makes a link that needs no greeting.
    fn add_joined(&mut self) -> Result<(), AllocError>
        ensures { OnOk result ((states : List LinkState) → AreLinks self.old.links states
            → HasPlayed self.old self.new (link_added states (joins self.old.settings self.old.past))) }
    {
        let link = self.join()?;
        self.add_link(link)
    }

    /// Makes a link that awaits its greeting.
    fn add_greeted(&mut self) -> Result<(), AllocError>
        ensures { OnOk result ((states : List LinkState) → AreLinks self.old.links states
            → HasPlayed self.old self.new (link_added states (awaits self.old.past))) }
    {
        let inbound = Inbound::new(self.alloc, Role::Accepting)?;
        self.add_link(Link::Greeting(inbound))
    }

    /// Plays one line of a capture. Its text is printed, and not written yet.
    #[tactic(auto, using(crate::proofs::LineLemmas::lines))]
    pub(crate) fn play_line(&mut self, line: &Line<A>) -> Result<(), AllocError>
        ensures { OnOk result ((states : List LinkState) → AreLinks self.old.links states
            → HasPlayed self.old self.new (plays self.old.settings self.old.past states line.now)) }
    {
        match line {
            Line::Join => self.add_joined(),
            Line::Greeted => self.add_greeted(),
            Line::Piece { link, bytes } => self.play_piece(*link, bytes.as_slice()),
            Line::Route(t) => self.play_event(Event::Route(*t)),
            Line::RouteAll => self.route_all(),
            Line::Take(c) => self.play_event(Event::Take(*c)),
            Line::Close(c) => self.play_event(Event::Close(*c)),
            Line::Originate(request) => {
                self.play_event(Event::Originate(request.descriptor().copy()?))
            }
            Line::Stats => self.say_counters(),
        }
    }
}
