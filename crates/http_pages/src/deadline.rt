//! A connection whose requests have a limit of time.
use std::cell::Cell;
use std::io::{self, Error, ErrorKind, Read, Write};
use std::net::TcpStream;
use std::time::{Clock, Duration, Instant};

/// For how many seconds a client may take to send a request and to read its answer.
const REQUEST_SECONDS: u64 = 10;

/// A connection, and the moment until which the present request has to be read and its answer written.
#[derive(Drop)]
pub(crate) struct Timed<'a, C> {
    stream: &'a TcpStream,
    clock: &'a C,
    end: Cell<Instant>,
    /// Whether an answer was written since the last read.
    has_answered: Cell<bool>,
}

impl<'a, C: Clock> Timed<'a, C> {
    /// Begins to wait for the first request.
    pub(crate) fn begin(clock: &'a C, stream: &'a TcpStream) -> io::Result<Timed<'a, C>> {
        let end = end_of_request(clock)?;
        Ok(Timed {
            stream,
            clock,
            end: Cell::new(end),
            has_answered: Cell::new(false),
        })
    }

    /// Returns how long the present request may still take, or that its time is over.
    fn left(&self) -> io::Result<Duration> {
        let left = self.end.get().duration_since(Instant::now(self.clock)?);
        if left.is_zero() {
            return Err(Error::from(ErrorKind::TimedOut));
        }
        Ok(left)
    }
}

/// Returns when a request that is awaited from now on has to be answered.
fn end_of_request<C: Clock>(clock: &C) -> io::Result<Instant> {
    let now = Instant::now(clock)?;
    Ok(
        now.checked_add(Duration::from_secs(REQUEST_SECONDS))
            .unwrap_or(now),
    )
}

/// The reading side. A read after an answer waits for the next request.
#[derive(Drop)]
pub(crate) struct TimedReader<'a, C>(pub(crate) &'a Timed<'a, C>);

impl<C: Clock> Read for TimedReader<'_, C> {
    fn read(&mut self, buf: &mut [u8]) -> io::Result<usize> {
        let timed = self.0;
        if timed.has_answered.replace(false) {
            timed.end.set(end_of_request(timed.clock)?);
        }
        timed.stream.set_read_timeout(Some(timed.left()?))?;
        let mut stream = timed.stream;
        stream.read(buf)
    }
}

/// The writing side.
#[derive(Drop)]
pub(crate) struct TimedWriter<'a, C>(pub(crate) &'a Timed<'a, C>);

impl<C: Clock> Write for TimedWriter<'_, C> {
    fn write(&mut self, buf: &[u8]) -> io::Result<usize> {
        let timed = self.0;
        timed.has_answered.set(true);
        timed.stream.set_write_timeout(Some(timed.left()?))?;
        let mut stream = timed.stream;
        stream.write(buf)
    }

    fn flush(&mut self) -> io::Result<()> {
        Ok(())
    }
}
