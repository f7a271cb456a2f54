//! Queries on their way to a reader's thread. No clause says what arrives: whoever reads the replies checks them.
use crate::queries::Sent;
use std::alloc::{AllocError, Global};
use std::collections::VecDeque;
use std::sync::{Condvar, Mutex, Wait};

#[derive(Drop)]
struct Post {
    queries: VecDeque<Sent>,
    closed: bool,
}

#[derive(Drop)]
pub(crate) struct Mailbox {
    post: Mutex<Post>,
    changed: Condvar,
}

impl Mailbox {
    pub(crate) fn new(alloc: Global) -> Mailbox {
        Mailbox {
            post: Mutex::new(Post {
                queries: VecDeque::new(alloc),
                closed: false,
            }),
            changed: Condvar::new(),
        }
    }

    /// Makes room for one query more.
    pub(crate) fn make_room<R: Wait>(&self, rt: &R) -> Result<(), AllocError> {
        self.post.lock(rt).queries.reserve(1)
    }

    /// Sends a query on.
    pub(crate) fn send<R: Wait>(&self, rt: &R, sent: Sent) -> Result<(), AllocError> {
        self.post.lock(rt).queries.push_back(sent)?;
        self.changed.notify_one();
        Ok(())
    }

    /// No query comes from now on.
    pub(crate) fn close<R: Wait>(&self, rt: &R) {
        self.post.lock(rt).closed = true;
        self.changed.notify_all();
    }

    /// Waits for the next query. None once the mailbox is closed and empty.
    pub(crate) fn receive<R: Wait>(&self, rt: &R) -> Option<Sent> {
        let mut post = self.changed.wait_while(rt, self.post.lock(rt), |post| {
            post.queries.is_empty() && !post.closed
        });
        post.queries.pop_front()
    }
}
