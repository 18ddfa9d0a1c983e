//! The frames of a film, made while the history is played again.
ghost use Rattle.std.specs.Prelude.{◌≡◌, ◌<◌, ◌≤◌, ◌++◌, ◌∷◌, [], None, OnOk};
ghost use Rattle.play_types.specs.History.{stop_at, ticks};
ghost use Rattle.play_types.specs.Scene.{IsConfigured};
ghost use Rattle.play_types.specs.declared.event.Event.TheVariants.{Tick};
ghost use Rattle.play_types.specs.declared.event.TheConstants.{MAX_TICKS};
ghost use Rattle.play_outside.specs.Sink.{Sends};
ghost use Rattle.play_recorder.specs.Recording.{Records, recorded_after, recorded_at};
ghost use Rattle.play_recorder.specs.declared.recorder.FilmFault.TheVariants as fault;
ghost use Rattle.play_recorder.specs.inner.Needed.{NeedsNoneOf, first_needed};
ghost use Rattle.play_recorder.specs.inner.Frames.{Follows, IsReady, bytes_in, channels_in, events_in, setup_in};
ghost use Rattle.play_recorder.specs.inner.Recorder.{WritesText, header_in};
ghost use Rattle.play_recorder.specs.inner.Replay.{CanPlay};

use crate::each_event::each_event;
use crate::film::Film;
use crate::frame_replay::FrameReplay;
use crate::recording::Recorded;
use crate::watcher::Watcher;
use clip_format::send_header;
use frame_writer::write_raw;
use play_journal::Journal;
use play_outside::{Sent, Sink, WriteFailed};
use play_types::{Event, MULTIPLIED, channel_index};
use std::alloc::{AllocError, Global};
use std::thread::Threads;

/// Why a film is not written to its end.
#[derive(Clone, Copy, Debug, PartialEq, Eq)]
pub(crate) enum FilmFault {
    /// The output failed.
    Failed,
    /// Memory ran out.
    OutOfMemory,
}

impl From<WriteFailed> for FilmFault {
    ghost from_gives = { λ _ reason. reason ≡ fault.Failed };

    fn from(_failed: WriteFailed) -> FilmFault {
        FilmFault::Failed
    }
}

impl From<AllocError> for FilmFault {
    ghost from_gives = { λ _ reason. reason ≡ fault.OutOfMemory };

    fn from(_error: AllocError) -> FilmFault {
        FilmFault::OutOfMemory
    }
}

/// The recorder of a film: the journal, and the history as far as it was played again, with the frames of its last tick.
#[derive(Drop)]
pub(crate) struct Recorder<'a> {
    pub(crate) film: &'a Film,
    pub(crate) journal: &'a Journal,
    pub(crate) replay: FrameReplay<'a>,
}

impl<'a> Recorder<'a> {
    /// Plays the events of the journal in order, and writes the file of the film meanwhile: its header, and then the frames of the recorded
    /// ticks.
    pub(crate) fn write<R: Threads + Sync, K: Sink, W: Watcher>(
        &mut self,
        rt: &R,
        alloc: Global,
        to: &mut K,
        watcher: &mut W,
    ) -> Recorded
        requires ready { IsReady self.old.replay }
        requires new { events_in self.old.replay ≡ [] }
        requires channel { IsConfigured (channels_in self.old.replay) self.old.film.now.channel }
        requires can { CanPlay self.old.replay.played.stage self.old.journal.now.events }
        requires needed { self.old.replay.skipped ≤ first_needed self.old.film.now self.old.journal.now.events }
        ensures { Records result
            (header_in self.old ++ recorded_after (setup_in self.old.replay) self.old.film.now [] self.old.journal.now.events)
            (K.state to.old) (K.state to.new) }
    {
        match self.write_header(to) {
            Sent::Failed => Recorded::Failed,
            Sent::All => match self.write_frames(rt, alloc, to, watcher) {
                Ok(()) => Recorded::All,
                Err(FilmFault::Failed) => Recorded::Failed,
                Err(FilmFault::OutOfMemory) => Recorded::OutOfMemory,
            },
        }
    }

    /// Writes the header of the file of the film.
    fn write_header<K: Sink>(&self, to: &mut K) -> Sent
        requires { IsConfigured (channels_in self.now.replay) self.now.film.now.channel }
        ensures { Sends result (header_in self.now) (K.state to.old) (K.state to.new) }
    {
        let film = self.film;
        let at = channel_index(film.channel);
        let size = self.replay.config.channels().get(at).unwrap().geometry();
        send_header(MULTIPLIED, size, film.frames, to)
    }

    /// Plays the events of the journal in order, and writes the frames of the recorded ticks.
    fn write_frames<R: Threads + Sync, K: Sink, W: Watcher>(
        &mut self,
        rt: &R,
        alloc: Global,
        to: &mut K,
        watcher: &mut W,
    ) -> Result<(), FilmFault>
        requires ready { IsReady self.old.replay }
        requires new { events_in self.old.replay ≡ [] }
        requires channel { IsConfigured (channels_in self.old.replay) self.old.film.now.channel }
        requires can { CanPlay self.old.replay.played.stage self.old.journal.now.events }
        requires needed { self.old.replay.skipped ≤ first_needed self.old.film.now self.old.journal.now.events }
        ensures { WritesText result (recorded_after (setup_in self.old.replay) self.old.film.now [] self.old.journal.now.events) (K.state to.old) (K.state to.new) }
    {
        let journal = self.journal;
        for event in each_event(journal) {
            if self
                .film
                .is_over(self.replay.played.stage.journal().ticks())
            {
                return Ok(());
            }
            self.write_event(rt, alloc, event, to)?;
            self.tell(watcher);
        }
        Ok(())
    }

    /// Reports how many ticks were made again, of how many, and how many frames were written.
    fn tell<W: Watcher>(&self, watcher: &mut W) {
        let made = self.replay.played.stage.journal().ticks();
        let film = self.film;
        let frames = u64::from(film.frames);
        let written = made.saturating_sub(film.first).min(frames);
        watcher.watch(made, film.first.saturating_add(frames), written as u32);
    }

    /// Plays an event, and writes the frame of a recorded tick.
    fn write_event<R: Threads + Sync, K: Sink>(
        &mut self,
        rt: &R,
        alloc: Global,
        event: &Event,
        to: &mut K,
    ) -> Result<(), FilmFault>
        requires ready { IsReady self.old.replay }
        requires channel { IsConfigured (channels_in self.old.replay) self.old.film.now.channel }
        requires can { CanPlay self.old.replay.played.stage (events_in self.old.replay ++ event.now ∷ []) }
        requires needed { NeedsNoneOf self.old.replay.skipped self.old.film.now (events_in self.old.replay) event.now }
        ensures ready { OnOk result (IsReady self.new.replay) }
        ensures follows { OnOk result (Follows event.now self.old.replay self.new.replay) }
        ensures film { self.new.film.now ≡ self.old.film.now }
        ensures written { WritesText result (recorded_at (setup_in self.old.replay) self.old.film.now (events_in self.old.replay) event.now)
            (K.state to.old) (K.state to.new) }
    {
        match event {
            Event::Tick => self.write_tick(rt, to),
            Event::Do(..) | Event::Batch(..) | Event::Stop(_) => {
                self.replay.event(rt, alloc, event)?;
                Ok(())
            }
        }
    }

    /// Makes the next tick, and writes its frame if it is recorded.
    fn write_tick<R: Threads + Sync, K: Sink>(
        &mut self,
        rt: &R,
        to: &mut K,
    ) -> Result<(), FilmFault>
        requires ready { IsReady self.old.replay }
        requires running { stop_at (events_in self.old.replay) ≡ None }
        requires channel { IsConfigured (channels_in self.old.replay) self.old.film.now.channel }
        requires time { ticks (events_in self.old.replay) < MAX_TICKS }
        requires needed { NeedsNoneOf self.old.replay.skipped self.old.film.now (events_in self.old.replay) Tick }
        ensures ready { OnOk result (IsReady self.new.replay) }
        ensures follows { OnOk result (Follows Tick self.old.replay self.new.replay) }
        ensures film { self.new.film.now ≡ self.old.film.now }
        ensures written { WritesText result (recorded_at (setup_in self.old.replay) self.old.film.now (events_in self.old.replay) Tick)
            (K.state to.old) (K.state to.new) }
    {
        let before = self.replay.played.stage.journal().ticks();
        self.replay.tick(rt);
        if !self.film.has(before) {
            return Ok(());
        }
        self.write_frame(to)?;
        Ok(())
    }

    /// Writes what the channel of the film shows and sounds at the last tick.
    fn write_frame<K: Sink>(&self, to: &mut K) -> Sent
        requires ready { IsReady self.now.replay }
        requires channel { IsConfigured (channels_in self.now.replay) self.now.film.now.channel }
        ensures { Sends result (bytes_in self.now.replay self.now.film.now.channel) (K.state to.old) (K.state to.new) }
    {
        let film = self.film;
        let channel = film.channel;
        let picture = self.replay.renderer.frame(channel);
        let sound = self.replay.renderer.sound(channel);
        write_raw(picture, sound, to)
    }
}
