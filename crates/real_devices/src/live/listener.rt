//! The readers that connect over TCP.
use crate::live::door::{ReaderDoor, Visit, VisitSender};
use crate::pace::millis;
use live_output::{LiveOutput, MAX_READERS};
use std::alloc::{AllocError, Global};
use std::net::{SocketAddr, TcpListener, TcpStream};
use std::time::Clock;

/// How many milliseconds lie between two looks for new connections.
const LOOK_MILLIS: u64 = 20;

/// A listening socket of a live output, and its readers.
#[derive(Drop)]
pub(crate) struct ReaderListener<T> {
    rt: T,
    alloc: Global,
    listener: TcpListener,
    /// The addresses of the readers, in the order of their places.
    clients: Vec<SocketAddr>,
    /// The millisecond of the clock from which on it looks again.
    due: u64,
}

impl<T: Clock + Drop> ReaderListener<T> {
    /// Returns a door over a socket whose `accept` does not wait.
    pub(crate) fn new(
        rt: T,
        alloc: Global,
        listener: TcpListener,
    ) -> Result<ReaderListener<T>, AllocError> {
        Ok(ReaderListener {
            rt,
            alloc,
            listener,
            clients: Vec::with_capacity(alloc, MAX_READERS)?,
            due: 0,
        })
    }

    /// Returns its runtime and its allocator.
    pub(crate) fn runtime(&self) -> (T, Global)
    where
        T: Copy,
    {
        (self.rt, self.alloc)
    }

    /// Adds a reader that connected. If there are `MAX_READERS` already, or the connection cannot be set up, it is
    /// closed.
    fn welcome(
        &mut self,
        stream: TcpStream,
        client: SocketAddr,
        output: &mut LiveOutput<TcpStream>,
        sender: &mut VisitSender,
    ) {
        if self.clients.len() >= MAX_READERS || stream.set_nonblocking(true).is_err() {
            return;
        }
        if output.add(stream).is_err() {
            return;
        }
        let _ = self.clients.push(client);
        sender.shared().want(true);
        sender.send(Visit::Came(Some(client)));
    }
}

impl<T: Clock + Drop> ReaderDoor<TcpStream> for ReaderListener<T> {
    /// Does not wait: whoever connects during the run gets the next frame.
    fn wait_for_first(&mut self) {}

    fn look(&mut self, output: &mut LiveOutput<TcpStream>, sender: &mut VisitSender) {
        let now = millis(&self.rt);
        if now < self.due {
            return;
        }
        self.due = now.saturating_add(LOOK_MILLIS);
        for _ in 0..MAX_READERS {
            match self.listener.accept() {
                Ok((stream, client)) => self.welcome(stream, client, output, sender),
                Err(_) => return,
            }
        }
    }

    fn note_there(&mut self, _sender: &mut VisitSender) {}

    /// Closes the connection.
    fn leave(&mut self, at: usize, stream: TcpStream, sender: &mut VisitSender) {
        drop(stream);
        if at < self.clients.len() {
            let client = self.clients.remove(at);
            sender.shared().want(!self.clients.is_empty());
            sender.send(Visit::Left(Some(client)));
        }
    }
}
