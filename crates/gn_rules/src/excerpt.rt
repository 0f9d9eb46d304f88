//! What is told of a reply.

ghost use Rattle.gn_rules.specs.declared.reply.Reply.{Reply};

use crate::reply::Reply;
use std::alloc::Allocator;

/// What is told of a reply to who doesn't get the reply itself.
pub trait Excerpt<A: Allocator>: Copy {
    /// It tells this of a reply.
    ghost tells: { Self → Reply A → Type 0 };

    /// Of this reply.
    fn of(reply: &Reply<A>) -> Self
        ensures { tells result reply.now };
}
