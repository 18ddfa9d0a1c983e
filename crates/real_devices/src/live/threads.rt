//! Starting the threads of live outputs.
use crate::live::door::VisitSender;
use crate::live::listener::ReaderListener;
use crate::live::pipe::{OpenPipe, PipeDoor};
use crate::live::thread::serve;
use live_output::{FrameWindow, MAX_READERS};
use std::alloc::Global;
use std::io;
use std::net::TcpListener;
use std::thread::{self, Threads};

/// What the thread of a live output is given, besides its pipe or listener.
#[derive(Drop)]
pub struct ThreadEnds {
    pub(crate) window: FrameWindow,
    pub(crate) sender: VisitSender,
}

/// The runtime of the threads of live outputs. It is one type, since the types that a thread is given must be known
/// where the thread is started.
pub trait LiveRuntime {
    /// Starts the thread that writes to a pipe.
    fn start_pipe<S: Threads>(
        &self,
        threads: &S,
        alloc: Global,
        pipe: OpenPipe,
        ends: ThreadEnds,
    ) -> io::Result<()>;

    /// Starts the thread that writes to the readers of a listening socket.
    fn start_listener<S: Threads>(
        &self,
        threads: &S,
        alloc: Global,
        listener: TcpListener,
        ends: ThreadEnds,
    ) -> io::Result<()>;
}

impl LiveRuntime for HostRuntime {
    fn start_pipe<S: Threads>(
        &self,
        threads: &S,
        alloc: Global,
        pipe: OpenPipe,
        ends: ThreadEnds,
    ) -> io::Result<()> {
        let door = PipeDoor::new(*self, alloc, pipe);
        let ThreadEnds { window, sender } = ends;
        start(threads, door, window, sender)
    }

    fn start_listener<S: Threads>(
        &self,
        threads: &S,
        alloc: Global,
        listener: TcpListener,
        ends: ThreadEnds,
    ) -> io::Result<()> {
        let door = ReaderListener::new(*self, alloc, listener)?;
        let ThreadEnds { window, sender } = ends;
        start(threads, door, window, sender)
    }
}

/// The work of a thread that is given two values.
trait Work<A, B> {
    fn run(self, first: A, second: B);
}

impl Work<FrameWindow, VisitSender> for PipeDoor<HostRuntime> {
    fn run(self, first: FrameWindow, second: VisitSender) {
        let (rt, alloc) = self.runtime();
        serve(rt, alloc, first, 1, self, second)
    }
}

impl Work<FrameWindow, VisitSender> for ReaderListener<HostRuntime> {
    fn run(self, first: FrameWindow, second: VisitSender) {
        let (rt, alloc) = self.runtime();
        serve(rt, alloc, first, MAX_READERS, self, second)
    }
}

/// Starts a thread that does `work` with the two values.
fn start<
    S: Threads,
    A: Send + Drop + 'static,
    B: Send + Drop + 'static,
    K: Work<A, B> + Send + Drop + 'static,
>(threads: &S, work: K, first: A, second: B) -> io::Result<()> {
    thread::spawn(threads, move || { work.run(first, second) })?;
    Ok(())
}
