//! Requests that wait for the viewer.

use http_pages::Page;
use play_viewer::Asked;
use std::alloc::{AllocError, Global};
use std::collections::VecDeque;
use std::net::TcpListener;
use std::sync::atomic::{AtomicBool, Ordering};
use std::sync::{Arc, Condvar, Mutex, Wait};
use std::time::{Clock, Duration};

/// A listening socket, and the requests of all its connections, in the order in which they came.
#[derive(Drop)]
pub struct Door {
    waiting: Mutex<VecDeque<Request>>,
    /// Notified when a request comes.
    came: Condvar,
    /// The listening socket, until the thread takes it that accepts connections.
    listener: Mutex<Option<TcpListener>>,
    /// Notified when the listening socket is there.
    opened: Condvar,
    /// Whether no more connections are accepted, which was reported.
    has_failed: AtomicBool,
}

/// A request, and where its answer is put.
#[derive(Drop)]
pub struct Request {
    pub asked: Asked,
    pub place: Arc<Place, Global>,
}

/// Where a connection waits for the answer to its request.
#[derive(Drop)]
pub struct Place {
    answer: Mutex<Option<Answer>>,
    /// Notified when the answer is there.
    given: Condvar,
}

/// The page that was asked for, or none.
#[derive(Drop)]
struct Answer(Option<Page>);

impl Door {
    /// Returns a door at which no request waits.
    pub fn shared(alloc: Global) -> Result<Arc<Door, Global>, AllocError> {
        let door = Door {
            waiting: Mutex::new(VecDeque::new(alloc)),
            came: Condvar::new(),
            listener: Mutex::new(None),
            opened: Condvar::new(),
            has_failed: AtomicBool::new(false),
        };
        Ok(Arc::new(alloc, door)?)
    }

    /// Hands the listening socket out.
    pub fn open<R: Wait>(&self, rt: &R, listener: TcpListener) {
        *self.listener.lock(rt) = Some(listener);
        self.opened.notify_one();
    }

    /// Waits for the listening socket, and takes it.
    pub fn listener<R: Wait>(&self, rt: &R) -> Option<TcpListener> {
        let listener = self.listener.lock(rt);
        let mut listener = self
            .opened
            .wait_while(rt, listener, |listener| listener.is_none());
        listener.take()
    }

    /// Notes that no more connections are accepted.
    pub fn fail(&self) {
        self.has_failed.store(true, Ordering::SeqCst);
    }

    /// Returns whether no more connections are accepted.
    pub fn has_failed(&self) -> bool {
        self.has_failed.load(Ordering::SeqCst)
    }

    /// Adds a request.
    pub fn put<R: Wait>(&self, rt: &R, request: Request) -> Result<(), AllocError> {
        self.waiting.lock(rt).push_back(request)?;
        self.came.notify_one();
        Ok(())
    }

    /// Returns how many requests wait.
    pub fn waiting<R: Wait>(&self, rt: &R) -> usize {
        self.waiting.lock(rt).len()
    }

    /// Takes the first request that waits. If there is none, it waits for one, for `limit` at most.
    pub fn next<R: Wait + Clock>(&self, rt: &R, limit: Duration) -> Option<Request> {
        let waiting = self.waiting.lock(rt);
        let (mut waiting, _) = self
            .came
            .wait_timeout_while(rt, waiting, limit, |requests| requests.is_empty());
        waiting.pop_front()
    }
}

impl Place {
    /// Returns a place without an answer.
    pub fn new() -> Place {
        Place {
            answer: Mutex::new(None),
            given: Condvar::new(),
        }
    }

    /// Puts the answer here.
    pub fn put<R: Wait>(&self, rt: &R, page: Option<Page>) {
        *self.answer.lock(rt) = Some(Answer(page));
        self.given.notify_one();
    }

    /// Waits for the answer, and takes it.
    pub fn wait<R: Wait>(&self, rt: &R) -> Option<Page> {
        let answer = self.answer.lock(rt);
        let mut answer = self.given.wait_while(rt, answer, |answer| answer.is_none());
        let Answer(page) = answer.take()?;
        page
    }
}
