//! A connection over TCP.
ghost use Rattle.std.specs.Prelude.{◌≡◌, ◌<◌, ℕ, List, IfOk, length};
ghost use Rattle.play_outside.specs.Sink.{Writes};
ghost use Rattle.play_outside.specs.Link.{LinkReads, after_failed_read, after_idle};
ghost use Rattle.real_devices.specs.Fresh.{quiet_sink};
ghost use Rattle.real_devices.specs.State.{held_of, link_state, stream_of, unread_by};
ghost use Rattle.real_devices.specs.Stream.{AddsTo, GivesFrom};

use crate::complaint::complain_of_client;
use crate::held_bytes::HeldBytes;
use crate::patience::{Patience, write_some};
use crate::place::{Place, Seat};
use crate::watch::{Watch, moment};
use play_outside::{Link, LinkStep, Sink, WriteStep};
use std::io::{self, Eprint, Error, ErrorKind, Read, Write};
use std::net::{OpenStream, Shutdown, SocketAddr};
use std::time::{Clock, Duration, Instant};

/// For how many milliseconds one call of the system waits for a client.
const WAIT_MILLIS: u64 = 100;

/// For how many milliseconds input of a client is read and dropped before its connection is closed. The last read may
/// add `WAIT_MILLIS`.
const FAREWELL_MILLIS: u64 = 400;

/// The most pieces of input that are read and dropped then.
const FAREWELL_PIECES: u32 = 256;

/// Why a connection is ended whose client takes too little.
const SLOW: &str = "kept its replies waiting for ten seconds";

/// Why a connection is ended for another client.
const SILENT: &str = "said no command for ten minutes while no connection was free";

/// A connection to a client. It reports on standard error why a call failed. Its state does not hold what was read or
/// taken.
#[derive(Drop)]
pub struct TcpLink<S, R> {
    stream: S,
    client: SocketAddr,
    rt: R,
    seat: Seat,
    /// Bytes that were read and not handed on yet.
    held: HeldBytes,
    /// How long the replies to what was read last may still wait.
    patience: Patience,
    watch: Watch,
    faults: u64,
    idles: u64,
    mark: u64,
}

impl<S: Read + Write + OpenStream + Drop, R: Clock + Eprint + Drop> TcpLink<S, R> {
    /// Takes a connection, whose calls wait for the client for a tenth of a second each. The link takes `place`, which
    /// is no longer free, and has this mark. No call of it was made yet. An error of the system is returned, and leaves
    /// the place as it is.
    pub fn new(
        stream: S,
        client: SocketAddr,
        rt: R,
        place: Place,
        mark: u64,
    ) -> io::Result<TcpLink<S, R>>
        ensures { IfOk result (λ link. link_state link ≡ quiet_sink mark) }
    {
        stream.set_nodelay(true)?;
        let wait = Some(Duration::from_millis(WAIT_MILLIS));
        stream.set_read_timeout(wait)?;
        stream.set_write_timeout(wait)?;
        let now = moment(&rt)?;
        Ok(TcpLink {
            stream,
            client,
            rt,
            seat: Seat::take(place, now),
            held: HeldBytes::new(),
            patience: Patience::CLIENT,
            watch: Watch::begin(now),
            faults: 0,
            idles: 0,
            mark,
        })
    }

    /// Ends the connection. If no call has failed, its writing side is shut down first, and input of the client is read
    /// and dropped for a moment: if input is left unread at the close, the system discards replies that the client has
    /// not read yet.
    pub(crate) fn close<T: Clock>(self, time: &T) {
        let mut stream = self.stream;
        if self.faults == 0 && stream.shutdown(Shutdown::Write).is_ok() {
            drop_input(&mut stream, time);
        }
    }

    /// Notes that nothing has come yet.
    fn find_nothing(&mut self, now: u64) -> LinkStep
        ensures again { result ≡ LinkStep.Again }
        ensures state { link_state self.new ≡ after_idle (link_state self.old) }
        ensures stream { stream_of self.new ≡ stream_of self.old }
        ensures held { held_of self.new ≡ held_of self.old }
    {
        self.watch.look(now);
        self.idles = self.idles.saturating_add(1);
        LinkStep::Again
    }

    /// Finds nothing; or fails, if the client has sent no command for ten minutes, no place is free, and no other
    /// client has sent none for longer.
    fn rest(&mut self, now: u64) -> LinkStep
        ensures reads { (buffer : List ℕ) → LinkReads result buffer (link_state self.old) (link_state self.new) }
        ensures stream { (buffer : List ℕ)
            → GivesFrom result buffer (unread_by S.remaining self.old) (unread_by S.remaining self.new) }
    {
        if self.watch.is_silent(now) && self.seat.gives_way(self.watch.spoke()) {
            self.fail(&Error::new(ErrorKind::TimedOut, SILENT));
            return LinkStep::Failed;
        }
        self.find_nothing(now)
    }

    /// Makes a read that skips the stream. It cannot fail if the last read brought a command, since more may wait.
    fn pass_over(&mut self, now: u64) -> LinkStep
        ensures reads { (buffer : List ℕ) → LinkReads result buffer (link_state self.old) (link_state self.new) }
        ensures stream { (buffer : List ℕ)
            → GivesFrom result buffer (unread_by S.remaining self.old) (unread_by S.remaining self.new) }
    {
        if self.watch.has_asked() {
            return self.find_nothing(now);
        }
        self.rest(now)
    }

    /// Notes what was read from the stream. While a command is being answered its client does not count as silent.
    fn hear(&mut self, now: u64)
        ensures state { link_state self.new ≡ link_state self.old }
        ensures stream { stream_of self.new ≡ stream_of self.old }
        ensures held { held_of self.new ≡ held_of self.old }
    {
        self.watch.hear(self.held.as_slice(), now);
        if self.watch.has_asked() {
            self.seat.be_busy();
        }
    }

    /// Writes a prefix of the piece, if the patience allows.
    fn send(&mut self, piece: &[u8]) -> WriteStep
        requires { 0 < length piece.now }
        ensures writes { Writes result piece.now (link_state self.old) (link_state self.new) }
        ensures stream { AddsTo result piece.now (S.contents (stream_of self.old)) (S.contents (stream_of self.new)) }
    {
        if self.patience.is_spent() {
            self.fail(&Error::new(ErrorKind::TimedOut, SLOW));
            return WriteStep::Failed;
        }
        match write_some(&mut self.stream, piece, &mut self.patience) {
            Ok(count) => {
                self.patience.count(count, piece.len());
                WriteStep::Took(count)
            }
            Err(error) if is_pause(error.kind()) => {
                self.fail(&Error::new(ErrorKind::TimedOut, SLOW));
                WriteStep::Failed
            }
            Err(error) => {
                self.fail(&error);
                WriteStep::Failed
            }
        }
    }

    /// Reads what has come, or finds that nothing has.
    #[tactic(auto, using(crate::proofs::Held::held_at_end))]
    fn look(&mut self, buf: &mut [u8]) -> LinkStep
        requires { 0 < length buf.old }
        ensures reads { LinkReads result buf.new (link_state self.old) (link_state self.new) }
        ensures stream { GivesFrom result buf.new (unread_by S.remaining self.old) (unread_by S.remaining self.new) }
    {
        let now = match moment(&self.rt) {
            Ok(now) => now,
            Err(error) => {
                self.fail(&error);
                return LinkStep::Failed;
            }
        };
        self.seat.be_silent(self.watch.spoke());
        if self.watch.is_look_due(now) {
            return self.pass_over(now);
        }
        if !self.held.is_empty() {
            return self.hand_on(buf);
        }
        self.patience = Patience::CLIENT;
        match self.held.fill(&mut self.stream) {
            Ok(0) => LinkStep::End,
            Ok(_) => {
                self.hear(now);
                self.hand_on(buf)
            }
            Err(error) if is_pause(error.kind()) => self.rest(now),
            Err(error) => {
                self.fail(&error);
                LinkStep::Failed
            }
        }
    }

    /// Hands on the first line of the bytes that are held.
    fn hand_on(&mut self, buf: &mut [u8]) -> LinkStep
        requires room { 0 < length buf.old }
        requires some { 0 < length (held_of self.old) }
        ensures reads { LinkReads result buf.new (link_state self.old) (link_state self.new) }
        ensures stream { GivesFrom result buf.new (unread_by S.remaining self.old) (unread_by S.remaining self.new) }
    {
        LinkStep::Got(self.held.give_line(buf))
    }

    /// Counts a failed call, and reports why it failed.
    fn fail(&mut self, error: &Error)
        ensures state { link_state self.new ≡ after_failed_read (link_state self.old) }
        ensures stream { stream_of self.new ≡ stream_of self.old }
        ensures held { held_of self.new ≡ held_of self.old }
    {
        complain_of_client(&self.rt, self.seat.group().clients(), &self.client, error);
        self.faults = self.faults.saturating_add(1);
    }
}

/// Reads and drops what comes, until the end or for half a second at most.
fn drop_input<S: Read, T: Clock>(stream: &mut S, time: &T) {
    let Ok(start) = Instant::now(time) else {
        return;
    };
    let mut buf = [0; 4_096];
    for _ in 0..FAREWELL_PIECES {
        match stream.read(&mut buf) {
            Ok(0) => return,
            Ok(_) => {}
            Err(error) if is_pause(error.kind()) => {}
            Err(_) => return,
        }
        match start.elapsed(time) {
            Ok(spent) if spent < Duration::from_millis(FAREWELL_MILLIS) => {}
            _ => return,
        }
    }
}

/// Returns whether an error means that nothing has come yet.
pub(crate) fn is_pause(kind: ErrorKind) -> bool {
    matches!(
        kind,
        ErrorKind::WouldBlock | ErrorKind::TimedOut | ErrorKind::Interrupted
    )
}

impl<S: Read + Write + OpenStream + Drop, R: Clock + Eprint + Drop> Sink for TcpLink<S, R> {
    ghost state = { link_state };

    /// Writes a prefix of the piece. An interrupted write is made again, but for the last of `INTERRUPTIONS`
    /// interruptions, and so is one of which the client took nothing in its time. Between two reads the writes wait
    /// `WRITE_WAITS` times at most, and `RESTORED_WAITS` times more for each `RESTORING_BYTES` bytes that were taken.
    fn write(&mut self, piece: &[u8]) -> WriteStep
        requires { 0 < length piece.now }
        ensures writes { Writes result piece.now (link_state self.old) (link_state self.new) }
        ensures stream { AddsTo result piece.now (S.contents (stream_of self.old)) (S.contents (stream_of self.new)) }
    {
        self.seat.group().begin_call();
        let step = self.send(piece);
        self.seat.group().end_call();
        step
    }
}

impl<S: Read + Write + OpenStream + Drop + Send, R: Clock + Eprint + Drop + Send> Link
    for TcpLink<S, R> {
    /// Reads the next line of what has come, or the beginning of one that has not ended, and waits for a tenth of a
    /// second if nothing has come. The end of that wait and an interruption are no failures: the read returns `Again`.
    /// Once a second it returns `Again` without reading the stream. If the client has sent no command for
    /// `SILENT_SECONDS`, no place is free, and no other client has sent none for longer, the read fails when it finds
    /// nothing, or when it skips the stream and the last read brought no command.
    fn read(&mut self, buf: &mut [u8]) -> LinkStep
        requires { 0 < length buf.old }
        ensures reads { LinkReads result buf.new (link_state self.old) (link_state self.new) }
        ensures stream { GivesFrom result buf.new (unread_by S.remaining self.old) (unread_by S.remaining self.new) }
    {
        self.seat.group().begin_call();
        let step = self.look(buf);
        self.seat.group().end_call();
        step
    }
}
