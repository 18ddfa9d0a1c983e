//! Starting live outputs.
use crate::live::door::VisitSender;
use crate::live::pipe::{OpenPipe, is_pipe, open_again};
use crate::live::shared::Shared;
use crate::live::sink::{LiveSink, VISITS};
use crate::live::threads::{LiveRuntime, ThreadEnds};
use crate::signals::Signals;
use live_output::{MAX_READERS, queue};
use play_types::Config;
use rtrb::RingBuffer;
use std::alloc::{AllocError, Global};
use std::fs::File;
use std::io;
use std::net::TcpListener;
use std::rt::Files;
use std::sync::Arc;
use std::thread::{self, Threads};
use std::time::{Clock, Duration};

/// The beginning of the path of an output that listens, before its address.
const TCP: &str = "tcp://";

/// How many times the start looks whether all pipes have their first readers. With `FIRST_LOOK_MILLIS` milliseconds
/// between two looks that is two seconds.
const FIRST_LOOKS: u32 = 200;

const FIRST_LOOK_MILLIS: u64 = 10;

/// Returns the address that an output listens on, if it listens.
pub(crate) fn address_of(output: &str) -> Option<&str> {
    output.strip_prefix(TCP)
}

/// Returns how many outputs of a configuration are live.
pub(crate) fn count_live<R: Files>(rt: &R, config: &Config) -> u32 {
    let mut count: u32 = 0;
    for channel in config.channels().iter() {
        let output = channel.output().as_str();
        if address_of(output).is_some() || is_pipe(rt, output) {
            count = count.saturating_add(1);
        }
    }
    count
}

/// Starts the output of a pipe that was opened, whose frames have `size` bytes.
pub(crate) fn start_pipe<R: Threads, T: LiveRuntime>(
    rt: &R,
    host: &T,
    alloc: Global,
    size: usize,
    pipe: OpenPipe,
    firsts: &mut FirstReaders,
) -> io::Result<LiveSink> {
    let held = pipe.end.try_clone()?;
    let (sink, ends) = make_ends(alloc, size, 1, true)?;
    firsts.add(held, sink.share()?)?;
    host.start_pipe(rt, alloc, pipe, ends)?;
    Ok(sink)
}

/// Starts the output of a listening socket, whose frames have `size` bytes.
pub(crate) fn start_listener<R: Threads, T: LiveRuntime>(
    rt: &R,
    host: &T,
    alloc: Global,
    size: usize,
    listener: TcpListener,
) -> io::Result<LiveSink> {
    listener.set_nonblocking(true)?;
    let (sink, ends) = make_ends(alloc, size, MAX_READERS, false)?;
    host.start_listener(rt, alloc, listener, ends)?;
    Ok(sink)
}

/// Returns the two sides of an output for frames of `size` bytes and at most `places` readers.
fn make_ends(
    alloc: Global,
    size: usize,
    places: usize,
    is_wanted: bool,
) -> Result<(LiveSink, ThreadEnds), AllocError> {
    let (cutter, window) = queue(alloc, size.max(1), places)?;
    let (tells, visits) = RingBuffer::new(alloc, VISITS)?;
    let shared = Arc::new(alloc, Shared::new(is_wanted))?;
    let sender = VisitSender::new(Arc::try_clone(&shared)?, tells);
    let sink = LiveSink::new(cutter, visits, shared);
    Ok((sink, ThreadEnds { window, sender }))
}

/// The pipes whose first readers are waited for.
#[derive(Drop)]
pub(crate) struct FirstReaders {
    alloc: Global,
    pipes: Vec<FirstReader>,
}

/// A pipe whose first reader is waited for.
#[derive(Drop)]
struct FirstReader {
    end: File,
    shared: Arc<Shared, Global>,
}

impl FirstReaders {
    /// Returns an empty set of pipes.
    pub(crate) fn new(alloc: Global) -> FirstReaders {
        FirstReaders {
            alloc,
            pipes: Vec::new(alloc),
        }
    }

    /// Adds a pipe.
    fn add(&mut self, end: File, shared: Arc<Shared, Global>) -> Result<(), AllocError> {
        match self.pipes.push(FirstReader { end, shared }) {
            Ok(()) => Ok(()),
            Err(_) => Err(AllocError),
        }
    }

    /// Waits until each pipe has a reader, for two seconds at most, or until a signal asks for the end. Returns whether
    /// each has one.
    pub(crate) fn wait<R: Clock>(&self, rt: &R, signals: &Signals) -> bool {
        for _ in 0..FIRST_LOOKS {
            if signals.pending().is_some() {
                break;
            }
            if self.have_waited() {
                return true;
            }
            thread::sleep(rt, Duration::from_millis(FIRST_LOOK_MILLIS));
        }
        false
    }

    /// Makes the threads of all pipes go on without a reader, by opening each pipe to read for a moment. Nothing was
    /// written to it yet.
    pub(crate) fn go_on<R: Files<File = File> + Clock>(&self, rt: &R) {
        for pipe in &self.pipes {
            if pipe.shared.has_waited() {
                continue;
            }
            let Ok(both) = open_again(rt, self.alloc, &pipe.end) else {
                continue;
            };
            for _ in 0..FIRST_LOOKS {
                if pipe.shared.has_waited() {
                    break;
                }
                thread::sleep(rt, Duration::from_millis(1));
            }
            drop(both);
        }
    }

    fn have_waited(&self) -> bool {
        self.pipes.iter().all(|pipe| pipe.shared.has_waited())
    }
}
