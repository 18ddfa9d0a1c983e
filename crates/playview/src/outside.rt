//! What a viewer waits for.
ghost use Rattle.std.specs.Prelude.{◌≤◌, IfSome, length};
ghost use Rattle.playview.specs.Pieces.{IsStepWithin};

use crate::door::{Door, Place, Request};
use crate::input::{LogInput, Piece};
use crate::looks::Looks;
use crate::receivers::{Receiver, send_all};
use crate::said::say_asked;
use http_pages::Page;
use play_viewer::DeskStep;
use std::alloc::Global;
use std::fs::File;
use std::io::Eprint;
use std::rt::Files;
use std::sync::{Arc, Wait};
use std::time::{Clock, Duration};

/// For how many milliseconds a request is waited for, from one look for more of the log to the next.
const LOOK_MILLIS: u64 = 20;

/// How many looks have to find nothing after a read that filled its room.
const MOST_LOOKS: u32 = 10;

/// After a moment without bytes, this many are read in pieces of `SMALL_PIECE` bytes at most. The viewer makes the frames of
/// their ticks, some in each line, and requests are answered between pieces.
const SMALL_BYTES: usize = 16_384;

const SMALL_PIECE: usize = 16;

/// The log, the requests of browsers, the receivers of status messages, and the signals that end the viewer.
#[derive(Drop)]
pub struct Outside {
    log: LogInput,
    door: Arc<Door, Global>,
    receivers: Vec<Receiver>,
    signals: Looks,
    /// Where the answer to the request is put that was returned last.
    place: Option<Arc<Place, Global>>,
    /// How many more looks have to find nothing before the viewer is told that the log has no more for now. It is 0 if
    /// nothing was read since it was told so.
    looks: u32,
    /// How many requests are answered before the next look for more of the log: those that waited after the last read.
    due: usize,
    /// How many more bytes are read in small pieces.
    small: usize,
}

impl Outside {
    /// Returns what a viewer waits for, over a log, the requests that come through a door, and receivers.
    pub fn new(
        log: LogInput,
        door: Arc<Door, Global>,
        receivers: Vec<Receiver>,
        signals: Looks,
    ) -> Outside {
        Outside {
            log,
            door,
            receivers,
            signals,
            place: None,
            looks: 0,
            due: 0,
            small: 0,
        }
    }

    /// Waits for what comes next: a signal, bytes of the log, that it has no more for now, or a request. It fails if no more
    /// connections are accepted.
    pub fn next<R: Files<File = File> + Wait + Clock + Eprint>(
        &mut self,
        rt: &R,
        room: &mut [u8],
    ) -> DeskStep
        ensures { IsStepWithin (length room.new) result }
    {
        for _ in rt.forever() {
            if let Some(signal) = self.signals.pending(rt) {
                say_asked(rt, signal);
                return DeskStep::Ended;
            }
            if self.door.has_failed() {
                return DeskStep::Failed;
            }
            if let Some(step) = self.look(rt, room) {
                return step;
            }
        }
        unreachable!()
    }

    /// Looks for bytes of the log and for a request. Requests that wait after a read are answered before the next one, so that
    /// no log, however fast it grows, keeps them waiting.
    fn look<R: Files<File = File> + Wait + Clock + Eprint>(
        &mut self,
        rt: &R,
        room: &mut [u8],
    ) -> Option<DeskStep>
        ensures { IfSome result (IsStepWithin (length room.new)) }
    {
        if self.due > 0 {
            self.due -= 1;
            if let Some(asked) = self.asked_within(rt, 0) {
                return Some(asked);
            }
        }
        let most = self.most_of(room.len());
        match self.log.read(rt, &mut room[..most]) {
            Piece::Bytes(count) => {
                self.note(count, count == room.len());
                self.due = self.door.waiting(rt);
                Some(DeskStep::Read(count))
            }
            Piece::Nothing => self.rest(rt),
            Piece::Failed => Some(DeskStep::Failed),
        }
    }

    /// Returns how many bytes of a room the next read may fill.
    fn most_of(&self, room: usize) -> usize
        ensures { result ≤ room }
    {
        if self.small > 0 {
            SMALL_PIECE.min(room)
        } else {
            room
        }
    }

    /// Notes a read of `count` bytes, and whether it filled its room. After one that did, a moment without bytes is not taken
    /// for the end of what there is.
    fn note(&mut self, count: usize, is_full: bool) {
        self.small = self.small.saturating_sub(count);
        self.looks = if is_full {
            MOST_LOOKS
        } else {
            self.looks.max(1)
        };
    }

    /// Returns that the log has no more for now, if that is not known yet, and else waits for a request.
    fn rest<R: Wait + Clock>(&mut self, rt: &R) -> Option<DeskStep>
        ensures { IfSome result (IsStepWithin 0) }
    {
        if self.looks == 1 {
            self.looks = 0;
            self.small = SMALL_BYTES;
            return Some(DeskStep::Waits);
        }
        self.looks = self.looks.saturating_sub(1);
        self.asked_within(rt, LOOK_MILLIS)
    }

    /// Takes the next request, and waits for one for `millis` milliseconds at most.
    fn asked_within<R: Wait + Clock>(&mut self, rt: &R, millis: u64) -> Option<DeskStep>
        ensures { IfSome result (IsStepWithin 0) }
    {
        let request = self.door.next(rt, Duration::from_millis(millis))?;
        let Request { asked, place } = request;
        self.place = Some(place);
        Some(DeskStep::Asked(asked))
    }

    /// Answers the request that came last.
    pub fn answer<R: Wait>(&mut self, rt: &R, page: Option<Page>) {
        if let Some(place) = self.place.take() {
            place.put(rt, page);
        }
    }

    /// Sends each datagram to each receiver.
    pub fn send<E: Eprint>(&mut self, errors: &E, datagrams: &[Vec<u8>]) {
        send_all(errors, &mut self.receivers, datagrams);
    }
}
