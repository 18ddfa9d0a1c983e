//! The file of a film, made from the history.
ghost use Rattle.std.specs.Prelude.{◌≡◌, ◌≤◌, IfOk, List, ℕ, Some, length};
ghost use Rattle.play_types.specs.ClipFile.{clip_bytes};
ghost use Rattle.play_types.specs.History.{held};
ghost use Rattle.history_model.specs.recordings.Film.{film_span, filmed};
ghost use Rattle.play_types.specs.Scene.{IsConfigured};
ghost use Rattle.play_recorder.specs.Recording.{AreServedEvents, Records, setup_with};
ghost use Rattle.play_recorder.specs.inner.Frames.{IsReady};
ghost use Rattle.play_recorder.specs.inner.Needed.{first_needed};
ghost use Rattle.play_recorder.specs.inner.Replay.{new_stage};

use crate::film::Film;
use crate::first_needed::first_needed;
use crate::frame_replay::FrameReplay;
use crate::recorder::Recorder;
use crate::watcher::{Unwatched, Watcher};
use clip_format::MediaTable;
use play_journal::Journal;
use play_outside::Sink;
use play_types::Config;
use std::alloc::{AllocError, Global};
use std::thread::Threads;

/// How the writing of a film ended.
#[derive(Clone, Copy, Debug, PartialEq, Eq)]
pub enum Recorded {
    /// The whole file was written.
    All,
    /// The output failed, and a prefix of the file was written.
    Failed,
    /// Memory ran out, and a prefix of the file was written.
    OutOfMemory,
}

/// What a film is made from: the configuration and the clips of the history, its journal, the film that was found in it, and the number
/// of threads that make the frames.
#[derive(Clone, Copy)]
pub struct FilmSource<'a> {
    pub config: &'a Config,
    pub media: &'a MediaTable,
    pub journal: &'a Journal,
    pub film: &'a Film,
    pub workers: u32,
}

/// Writes the clip file of a film that was found in this journal: version 1, the size of the channel, and what the channel shows and
/// sounds at each recorded tick. The events are played again, first without frames, to find from which tick on the film needs frames, and
/// then with the frames from there on. No frame but the last one is kept.
///
/// `media` has the clips that the history was made with, and `workers`, 1 to 64, is the number of threads that make the frames. The
/// layers, channels and routes in the journal must be of configured channels, and its commands must be no more than the limit of the
/// configuration's journal.
pub fn write_film<R: Threads + Sync, K: Sink>(
    rt: &R,
    alloc: Global,
    config: &Config,
    media: &MediaTable,
    journal: &Journal,
    film: &Film,
    workers: u32,
    to: &mut K,
) -> Recorded
    requires found { (name : List ℕ) × (film_span journal.now.events name ≡ Some film.now) }
    requires some_workers { 1 ≤ workers }
    requires few_workers { workers ≤ 64 }
    requires served { AreServedEvents (length config.now.channels) journal.now.events }
    requires room { held journal.now.events ≤ config.now.journal_limit }
    ensures { Records result (clip_bytes (filmed (setup_with config.now media.now) journal.now.events film.now)) (K.state to.old) (K.state to.new) }
{
    let source = FilmSource {
        config,
        media,
        journal,
        film,
        workers,
    };
    source.write_watched(rt, alloc, to, &mut Unwatched)
}

impl<'a> FilmSource<'a> {
    /// Writes the clip file of the film, as [`write_film`] does, and reports the progress to `watcher` after each event.
    pub fn write_watched<R: Threads + Sync, K: Sink, W: Watcher>(
        self,
        rt: &R,
        alloc: Global,
        to: &mut K,
        watcher: &mut W,
    ) -> Recorded
        requires found { (name : List ℕ) × (film_span self.journal.now.events name ≡ Some self.film.now) }
        requires some_workers { 1 ≤ self.workers }
        requires few_workers { self.workers ≤ 64 }
        requires served { AreServedEvents (length self.config.now.channels) self.journal.now.events }
        requires room { held self.journal.now.events ≤ self.config.now.journal_limit }
        ensures { Records result (clip_bytes (filmed (setup_with self.entry.config.now self.entry.media.now) self.entry.journal.now.events self.entry.film.now))
            (K.state to.old) (K.state to.new) }
    {
        let _held = self.journal.held();
        match self.recorder(alloc) {
            Ok(mut recorder) => {
                let recorded = recorder.write(rt, alloc, to, watcher);
                drop(recorder);
                recorded
            }
            Err(AllocError) => Recorded::OutOfMemory,
        }
    }

    /// Creates the recorder of the film, which makes no frames before those that the film needs.
    fn recorder(self, alloc: Global) -> Result<Recorder<'a>, AllocError>
        requires channel { IsConfigured (length self.config.now.channels) self.film.now.channel }
        requires some_workers { 1 ≤ self.workers }
        requires few_workers { self.workers ≤ 64 }
        requires served { AreServedEvents (length self.config.now.channels) self.journal.now.events }
        requires room { held self.journal.now.events ≤ self.config.now.journal_limit }
        ensures ready { IfOk result (λ recorder. IsReady recorder.replay) }
        ensures new { IfOk result (λ recorder. recorder.replay.played.stage ≡ new_stage self.entry.config.now) }
        ensures config { IfOk result (λ recorder. recorder.replay.config.now ≡ self.entry.config.now) }
        ensures media { IfOk result (λ recorder. recorder.replay.media.now ≡ self.entry.media.now) }
        ensures film { IfOk result (λ recorder. recorder.film.now ≡ self.entry.film.now) }
        ensures journal { IfOk result (λ recorder. recorder.journal.now ≡ self.entry.journal.now) }
        ensures needed { IfOk result (λ recorder. recorder.replay.skipped ≡ first_needed self.entry.film.now self.entry.journal.now.events) }
    {
        let skipped = first_needed(alloc, self.config, self.journal, self.film)?;
        let (config, media) = (self.config, self.media);
        Ok(Recorder {
            film: self.film,
            journal: self.journal,
            replay: FrameReplay::new(alloc, config, media, self.workers, skipped)?,
        })
    }
}
