//! Laws of routers that are joined by links: of one link, and of a network of any size.

ghost use Rattle.gn_paths.specs.Networks.{AnswersCameBack, AnswersCrossBack, AnswersFollow, FloodsEnd};

use std::alloc::Allocator;

/// The law that an answer crosses a link only where its request crossed it the other way.
pub fn answers_cross_back<A: Allocator>()
    ensures { AnswersCrossBack A }
{}

/// The law that the request of an answer crossed their link before the answer did.
pub fn answers_follow<A: Allocator>()
    ensures { AnswersFollow A }
{}

/// The law that an answer came to any router of a network by the path that its request had gone.
pub fn answers_came_back<A: Allocator>()
    ensures { AnswersCameBack A }
{}

/// The law that where nothing is forgotten a flood ends after at most two packets a link.
pub fn floods_end<A: Allocator>()
    ensures { FloodsEnd A }
{}
