//! A listening socket whose clients get pages.
use crate::answering::answer_requests;
use crate::deadline::{Timed, TimedReader, TimedWriter};
use crate::pages::Pages;
use crate::seats::{Seat, Seats};
use crate::site::Site;
use std::alloc::{AllocGlobal, Global};
use std::hash::RandomState;
use std::io::{self, ErrorKind, Read};
use std::net::{Shutdown, TcpListener, TcpStream};
use std::random::RandomSource;
use std::thread::{self, Threads};
use std::time::{Clock, Duration, Instant};

/// How many times in a row a connection cannot be accepted before that is returned as an error.
const MAX_FAILURES: u32 = 100;

/// For how many milliseconds no connection is accepted after that failed.
const PAUSE_MILLIS: u64 = 100;

/// For how many milliseconds what a client still sends is read and dropped before its connection is closed. If input were left
/// unread, the system would discard answers that the client has not read yet. The last read may add as long again.
const FAREWELL_MILLIS: u64 = 500;

/// The most pieces of input that are read and dropped then.
const FAREWELL_PIECES: u32 = 256;

/// Answers the clients of a listening socket, each in a thread of its own. While `MAX_CLIENTS` are connected, the connection of a
/// further one is closed at once, and so is one for which no thread or no memory can be had. It returns only if no connection
/// could be accepted for a hundred times in a row, with the last error.
pub fn serve_pages<
    R: Threads + Clock + AllocGlobal + RandomSource + Copy + Send + Drop + 'static,
    P: Pages,
>(rt: &R, listener: &TcpListener, pages: &P) -> io::Result<()> {
    let seats = Seats::new(rt.alloc())?;
    listener.set_nonblocking(false)?;
    let mut failures: u32 = 0;
    for stream in listener.incoming() {
        match stream {
            Ok(stream) => {
                failures = 0;
                let _ = start(rt, &seats, pages, stream);
            }
            Err(error) => {
                failures = failures.saturating_add(1);
                if failures >= MAX_FAILURES {
                    return Err(error);
                }
                thread::sleep(rt, Duration::from_millis(PAUSE_MILLIS));
            }
        }
    }
    Ok(())
}

/// Starts the thread of a connection, if a seat is free.
fn start<R: Threads + Clock + AllocGlobal + RandomSource + Copy + Send + Drop + 'static, P: Pages>(
    rt: &R,
    seats: &Seats,
    pages: &P,
    stream: TcpStream,
) -> io::Result<()> {
    let Some(seat) = seats.take()? else {
        return Ok(());
    };
    let theirs = pages.share()?;
    let rt = *rt;
    thread::spawn(&rt, move || { answer_client(&rt, theirs, stream, seat) })?;
    Ok(())
}

/// Answers a client, and closes its connection. Its seat is free after that.
fn answer_client<R: Clock + AllocGlobal + RandomSource, P: Pages>(
    rt: &R,
    pages: P,
    stream: TcpStream,
    _seat: Seat,
) {
    if converse(rt, pages, &stream).is_ok() && stream.shutdown(Shutdown::Write).is_ok() {
        let _ = drop_input(rt, &stream);
    }
}

/// Answers the requests of a client.
fn converse<R: Clock + AllocGlobal + RandomSource, P: Pages>(
    rt: &R,
    pages: P,
    stream: &TcpStream,
) -> io::Result<()> {
    stream.set_nodelay(true)?;
    let timed = Timed::begin(rt, stream)?;
    let mut site = Site {
        alloc: rt.alloc(),
        pages,
    };
    let keys = RandomState::new(rt)?;
    answer_requests(
        keys,
        &mut site,
        &mut TimedReader(&timed),
        &mut TimedWriter(&timed),
    )
}

/// Reads and drops what comes, until the client ends the connection or half a second is over.
fn drop_input<T: Clock>(time: &T, stream: &TcpStream) -> io::Result<()> {
    let limit = Duration::from_millis(FAREWELL_MILLIS);
    stream.set_read_timeout(Some(limit))?;
    let start = Instant::now(time)?;
    let mut input = stream;
    let mut buf = [0; 4_096];
    for _ in 0..FAREWELL_PIECES {
        match input.read(&mut buf) {
            Ok(0) => return Ok(()),
            Ok(_) => {}
            Err(error) if error.kind() == ErrorKind::Interrupted => {}
            Err(error) => return Err(error),
        }
        if start.elapsed(time)? >= limit {
            return Ok(());
        }
    }
    Ok(())
}
