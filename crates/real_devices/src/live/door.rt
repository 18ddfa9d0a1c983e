//! How readers come to a live output.
use crate::live::shared::Shared;
use live_output::LiveOutput;
use rtrb::Producer;
use std::alloc::Global;
use std::net::SocketAddr;
use std::sync::Arc;

/// What a reader did, or what happened to the path of a pipe.
#[derive(Clone, Copy, Debug, Drop, PartialEq, Eq)]
pub enum Visit {
    /// A reader came, from this address if it has one.
    Came(Option<SocketAddr>),
    /// A reader left, with its address if it has one.
    Left(Option<SocketAddr>),
    /// Another pipe has the path now, and is the output from then on.
    NewPipe,
    /// No pipe has the path any more.
    NoPipe,
}

/// The thread's side of what it shares with the run: visits and counts.
#[derive(Drop)]
pub struct VisitSender {
    shared: Arc<Shared, Global>,
    visits: Producer<Visit>,
}

impl VisitSender {
    /// Returns a sender over these two.
    pub(crate) fn new(shared: Arc<Shared, Global>, visits: Producer<Visit>) -> VisitSender {
        VisitSender { shared, visits }
    }

    /// Returns what the thread shares with the run.
    pub(crate) fn shared(&self) -> &Shared {
        &self.shared
    }

    /// Sends a visit, or drops it if there is no room.
    pub(crate) fn send(&mut self, visit: Visit) {
        let _ = self.visits.push(visit);
    }
}

/// Where the readers of a live output come. The output writes to each by a `W`.
pub(crate) trait ReaderDoor<W>: Drop {
    /// Waits until the first reader comes, or somebody ends the wait.
    fn wait_for_first(&mut self);

    /// Adds the readers that came.
    fn look(&mut self, output: &mut LiveOutput<W>, sender: &mut VisitSender);

    /// Notes that a reader is there: it took something, or has no room for more.
    fn note_there(&mut self, sender: &mut VisitSender);

    /// Takes back the `W` of the reader at place `at`, which has left.
    fn leave(&mut self, at: usize, stream: W, sender: &mut VisitSender);
}
