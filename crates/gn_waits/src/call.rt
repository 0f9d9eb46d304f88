//! A call that goes on beside its link.

use crate::handles::second_handle;
use crate::patience::Patience;
use crate::ways::Ways;
use gn_links::LinkFault;
use gn_shake::Role;
use std::alloc::{AllocError, Global};
use std::net::TcpStream;
use std::sync::{Arc, Condvar, Mutex, MutexGuard, Wait};

/// The answer of a call: whether there is one, and then the handles of its socket that the two halves of its link haven't taken.
#[derive(Drop)]
struct Answer {
    has_come: bool,
    read: Option<TcpStream>,
    written: Option<TcpStream>,
}

/// A call of a peer, for whose answer both halves of its link wait.
pub struct Call {
    answer: Mutex<Answer>,
    answered: Condvar,
}

impl Drop for Call {
    fn drop(self) {
        let Call {
            answer: _,
            answered: _,
        } = self;
    }
}

impl Call {
    /// A call that has no answer yet.
    fn new() -> Self {
        Call {
            answer: Mutex::new(Answer {
                has_come: false,
                read: None,
                written: None,
            }),
            answered: Condvar::new(),
        }
    }

    /// Waits for the answer.
    fn wait<R: Wait>(&self, rt: &R) -> MutexGuard<'_, Answer> {
        let mut answer = self.answer.lock(rt);
        for _ in rt.forever() {
            if answer.has_come {
                return answer;
            }
            answer = self.answered.wait(rt, answer);
        }
        answer
    }

    /// Waits for the answer. The handle of the half that is read; none where the peer never came.
    pub fn read_half<R: Wait>(&self, rt: &R) -> Option<TcpStream> {
        self.wait(rt).read.take()
    }

    /// Waits for the answer. The handle of the half that is written; none where the peer never came.
    pub fn written_half<R: Wait>(&self, rt: &R) -> Option<TcpStream> {
        self.wait(rt).written.take()
    }
}

/// By what the halves of a called link learn how its call ended. They wait until it is said.
#[derive(Drop)]
pub struct TcpCall {
    call: Arc<Call, Global>,
}

impl TcpCall {
    /// A call that goes on, and what its link has of it.
    pub fn new(alloc: Global) -> Result<(Self, Arc<Call, Global>), AllocError> {
        let call = Arc::new(alloc, Call::new())?;
        let other = Arc::try_clone(&call)?;
        Ok((TcpCall { call }, other))
    }

    /// The call was answered over this socket, and maybe there is a second handle of it: the halves of its link, of this role, go on
    /// over it, in these ways. Where its handles can't be had they learn that the peer never comes, and it is a failure.
    pub fn answer<R: Wait>(
        self,
        rt: &R,
        stream: TcpStream,
        other: Option<TcpStream>,
        role: Role,
        ways: Ways<'_>,
    ) -> Result<(), LinkFault> {
        match second_handle(&stream, other, &Patience::new(ways, role)) {
            Some(other) => {
                self.settle(rt, Some(stream), Some(other));
                Ok(())
            }
            None => {
                self.give_up(rt);
                Err(LinkFault)
            }
        }
    }

    /// The peer never comes.
    pub fn give_up<R: Wait>(self, rt: &R) {
        self.settle(rt, None, None);
    }

    /// The call was answered, and these are the halves' handles; none where the peer never comes.
    fn settle<R: Wait>(self, rt: &R, read: Option<TcpStream>, written: Option<TcpStream>) {
        let mut answer = self.call.answer.lock(rt);
        *answer = Answer {
            has_come: true,
            read,
            written,
        };
        drop(answer);
        self.call.answered.notify_all();
    }
}
