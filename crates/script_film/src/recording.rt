//! Scripts that are played for the film of a recording.
ghost use Rattle.std.specs.Prelude.{◌≡◌, ◌≤◌, IfOk, false};
ghost use Rattle.play_types.specs.History.{held};
ghost use Rattle.play_recorder.specs.Recording.{AreServedEvents};
ghost use Rattle.script_player.specs.Ending.{fault_in};
ghost use Rattle.script_film.specs.Recording.{film_of};
ghost use Rattle.script_player.specs.Playouts.{playout_of};
ghost use Rattle.script_film.specs.Recording.{RecordsFilm};
ghost use Rattle.script_player.specs.Player.{channels_in, events_in};
ghost use Rattle.script_film.specs.inner.Recorded.{ReplaysScript, WritesFilm, fault_of_film};

use play_outside::{PlainSink, Sink, Source};
use play_recorder::{Film, FilmSource, Recorded, Watcher, find_film};
use play_types::{ChannelList, Config, RecName, Text};
use script_player::{Player, ScriptPlayer, Teller, Unshown};
use server_setup::{RunFault, ServerSetup};
use std::alloc::{AllocError, Global};
use std::thread::Threads;

/// The bytes of a clip file before its frames.
const HEADER_BYTES: u64 = 20;

/// The name of the recording whose film is written, and the number of threads that make its frames, 1 to 64.
#[derive(Clone, Copy, Debug)]
pub struct FilmOptions {
    pub name: RecName,
    pub workers: u32,
}

/// Reports the progress of writing a film to a teller.
#[derive(Drop)]
struct FilmWatcher<'a, T> {
    teller: &'a mut T,
}

impl<T: Teller> Watcher for FilmWatcher<'_, T> {
    fn watch(&mut self, ticks: u64, all: u64, frames: u32) {
        self.teller.tell_film(ticks, all, frames);
    }
}

/// A script whose film will be written: its channels and clips, which film it is, and who receives reports.
#[derive(Drop)]
pub struct FilmRun<'a, T> {
    /// The channels and the clips.
    pub setup: ServerSetup,
    /// Which film is written, and how its frames are made.
    pub options: FilmOptions,
    /// Who receives reports.
    pub teller: &'a mut T,
}

impl<T: Teller> FilmRun<'_, T> {
    /// Reads a script to its end, executes its lines with nothing written, and then writes the clip file of the film that was recorded
    /// under the name. The words for which lines are refused, the progress of writing the film, and the length of its file are reported
    /// to the teller.
    ///
    /// A line that would be answered with 500 or 501 ends the run with `OutOfMemory`. A history without a film of the name is refused
    /// with `Record`, and nothing is written.
    pub fn record<R: Threads + Sync, I: Source, K: Sink>(
        self,
        rt: &R,
        alloc: Global,
        input: &mut I,
        out: &mut K,
    ) -> Result<(), RunFault>
        requires some_workers { 1 ≤ self.options.workers }
        requires few_workers { self.options.workers ≤ 64 }
        ensures { RecordsFilm (film_of self.entry.setup self.entry.options.name) (fault_in result)
            (record { input = I.state input.old; out = K.state out.old })
            (record { input = I.state input.new; out = K.state out.new }) }
    {
        let FilmRun {
            setup,
            options,
            teller,
        } = self;
        let player = replayed(alloc, setup, input, teller)?;
        let recording = Recording {
            player: &player,
            options,
        };
        recording.write(rt, alloc, out, teller)
    }
}

/// Reads a script to its end, executes its lines with nothing written, and returns its player, which has the history.
fn replayed<I: Source, T: Teller>(
    alloc: Global,
    setup: ServerSetup,
    input: &mut I,
    teller: &mut T,
) -> Result<Player, RunFault>
    ensures { ReplaysScript (playout_of setup false) result (I.state input.old) (I.state input.new) }
{
    let player = Player::new(alloc, setup, false, true)?;
    let mut replay = ScriptPlayer::new(alloc, player, Unshown, teller);
    let mut nowhere = PlainSink::new(0);
    replay.play(alloc, input, &mut nowhere).outcome()?;
    let ScriptPlayer { script, .. } = replay;
    Ok(script.player)
}

/// A recording in the history of a player.
#[derive(Clone, Copy)]
struct Recording<'a> {
    player: &'a Player,
    options: FilmOptions,
}

impl Recording<'_> {
    /// Writes the clip file of the film that was recorded under the name, if the history has one. The progress and the length of the file
    /// are reported to `teller`.
    fn write<R: Threads + Sync, K: Sink, T: Teller>(
        self,
        rt: &R,
        alloc: Global,
        out: &mut K,
        teller: &mut T,
    ) -> Result<(), RunFault>
        requires some_workers { 1 ≤ self.options.workers }
        requires few_workers { self.options.workers ≤ 64 }
        requires served { AreServedEvents (channels_in self.player.now) (events_in self.player.now) }
        requires room { held (events_in self.player.now) ≤ self.player.now.setup.config.journal_limit }
        ensures { WritesFilm self.entry.player.now self.entry.options.name (fault_in result) (K.state out.old) (K.state out.new) }
    {
        let Recording { player, options } = self;
        let setup = &player.setup;
        let journal = player.stage.journal();
        match find_film(alloc, &setup.config, journal, options.name)? {
            Some(film) => {
                let source = FilmSource {
                    config: &setup.config,
                    media: &setup.media,
                    journal,
                    film: &film,
                    workers: options.workers,
                };
                let recorded = source.write_watched(rt, alloc, out, &mut FilmWatcher { teller });
                tell_length(recorded, &setup.config, &film, teller);
                outcome(recorded)
            }
            None => Err(RunFault::Record(text_of(alloc, &options.name)?)),
        }
    }
}

/// Reports how long the file of a film is, if all of it was written.
fn tell_length<T: Teller>(recorded: Recorded, config: &Config, film: &Film, teller: &mut T) {
    match recorded {
        Recorded::All => {
            let bytes = file_len(config.channels(), film);
            teller.tell_recorded(bytes, config.media().as_str());
        }
        Recorded::Failed | Recorded::OutOfMemory => {}
    }
}

/// Returns the length of the file of a film, in bytes.
fn file_len(channels: &ChannelList, film: &Film) -> u64 {
    match channels.get(usize::from(film.channel.saturating_sub(1))) {
        Some(channel) => {
            let frame = channel.geometry().frame_bytes();
            HEADER_BYTES.saturating_add(u64::from(film.frames).saturating_mul(frame))
        }
        None => 0,
    }
}

/// Returns the fault with which the writing of a film ended as an error.
fn outcome(recorded: Recorded) -> Result<(), RunFault>
    ensures { fault_in result ≡ fault_of_film recorded }
{
    match recorded {
        Recorded::All => Ok(()),
        Recorded::Failed => Err(RunFault::Device),
        Recorded::OutOfMemory => Err(RunFault::OutOfMemory),
    }
}

/// Returns the name of a recording as a text.
fn text_of(alloc: Global, name: &RecName) -> Result<Text, AllocError>
    ensures { IfOk result (λ text. text ≡ name.now) }
{
    Text::copy(alloc, str::from_utf8(name.as_bytes()).unwrap())
}
