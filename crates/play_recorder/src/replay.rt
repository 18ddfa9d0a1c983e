//! A history that is played once more.
ghost use Rattle.std.specs.Prelude.{◌≡◌, ◌+◌, ◌<◌, ◌≤◌, ◌++◌, ◌∷◌, [], All, IfOk, None, OnOk, length, map};
ghost use Rattle.std.specs.List.{range_with_len};
ghost use Rattle.play_types.specs.History.{held, stop_at, ticks};
ghost use Rattle.play_types.specs.declared.event.Event.TheVariants.{Batch, Do, Stop, Tick};
ghost use Rattle.play_types.specs.declared.event.TheConstants.{MAX_TICKS};
ghost use Rattle.history_model.specs.commands.Channels.{IsServed};
ghost use Rattle.history_model.specs.pictures.Scene.{scene};
ghost use Rattle.history_model.specs.stage.Acts.{is_refused};
ghost use Rattle.stage_core.specs.Stage.{after_event};
ghost use Rattle.play_recorder.specs.Finder.{is_refusal};
ghost use Rattle.play_recorder.specs.inner.Replay.{CanPlay, HasScenes, events_in, new_stage};

use play_types::{Answer, Cmd, CmdList, Config, Event, Scenes, Tag};
use stage_core::{ApplyFault, Stage};
use std::alloc::{AllocError, Global};

/// A history that is played once more: the stage with the events so far, and the scenes of its last tick.
#[derive(Drop)]
pub(crate) struct Replay {
    pub(crate) stage: Stage,
    pub(crate) scenes: Scenes,
}

impl Replay {
    /// Creates a replay of no events, with memory for the live layers and the scenes of all channels.
    pub(crate) fn new(alloc: Global, config: &Config) -> Result<Replay, AllocError>
        ensures stage { IfOk result (λ replay. replay.stage ≡ new_stage config.now) }
        ensures scenes { IfOk result HasScenes }
    {
        let scenes = Scenes::new(alloc, config)?;
        let stage = Stage::new(alloc, config)?;
        Ok(Replay { stage, scenes })
    }

    /// Applies an event of the history again, and returns the answer to it, which is `Done` for a tick and a stop.
    pub(crate) fn event(&mut self, alloc: Global, event: &Event) -> Result<Answer, AllocError>
        requires scenes { HasScenes self.old }
        requires can { CanPlay self.old.stage (events_in self.old ++ event.now ∷ []) }
        ensures scenes { OnOk result (HasScenes self.new) }
        ensures made { OnOk result (self.new.stage ≡ after_event event.now self.old.stage) }
        ensures answer { IfOk result (λ answer. is_refusal answer ≡ is_refused (events_in self.old) event.now) }
    {
        match event {
            Event::Do(tag, cmd) => self.apply(alloc, *tag, *cmd),
            Event::Batch(tag, cmds) => self.apply_batch(alloc, *tag, cmds),
            Event::Tick => {
                self.tick();
                Ok(Answer::Done)
            }
            Event::Stop(tag) => {
                self.stop(*tag);
                Ok(Answer::Done)
            }
        }
    }

    /// Makes the next tick and its scenes.
    pub(crate) fn tick(&mut self)
        requires scenes { HasScenes self.old }
        requires running { stop_at (events_in self.old) ≡ None }
        requires time { ticks (events_in self.old) < MAX_TICKS }
        ensures scenes { self.new.scenes ≡ map (scene (events_in self.old)) (range_with_len 1 self.old.stage.channels) }
        ensures made { self.new.stage ≡ after_event Tick self.old.stage }
    {
        self.stage.tick(&mut self.scenes).unwrap();
    }

    /// Applies a command of the history again, and returns the answer to it.
    fn apply(&mut self, alloc: Global, tag: Tag, cmd: Cmd) -> Result<Answer, AllocError>
        requires running { stop_at (events_in self.old) ≡ None }
        requires served { IsServed self.old.stage.channels cmd }
        requires room { held (events_in self.old) + 1 ≤ self.old.stage.journal.limit }
        ensures scenes { self.new.scenes ≡ self.old.scenes }
        ensures made { OnOk result (self.new.stage ≡ after_event (Do tag cmd) self.old.stage) }
        ensures answer { IfOk result (λ answer. is_refusal answer ≡ is_refused (events_in self.old) (Do tag cmd)) }
    {
        match self.stage.apply(alloc, tag, cmd) {
            Ok(answer) => Ok(answer),
            Err(ApplyFault::OutOfMemory) => Err(AllocError),
            Err(ApplyFault::JournalFull { .. } | ApplyFault::Ended { .. }) => unreachable!(),
        }
    }

    /// Applies a batch of the history again, and returns the answer to it.
    fn apply_batch(&mut self, alloc: Global, tag: Tag, cmds: &CmdList) -> Result<Answer, AllocError>
        requires running { stop_at (events_in self.old) ≡ None }
        requires some { 0 < length cmds.now }
        requires served { All (IsServed self.old.stage.channels) cmds.now }
        requires room { held (events_in self.old) + length cmds.now ≤ self.old.stage.journal.limit }
        ensures scenes { self.new.scenes ≡ self.old.scenes }
        ensures made { OnOk result (self.new.stage ≡ after_event (Batch tag cmds.now) self.old.stage) }
        ensures answer { IfOk result (λ answer. is_refusal answer ≡ is_refused (events_in self.old) (Batch tag cmds.now)) }
    {
        match self.stage.apply_batch(alloc, tag, cmds.as_slice()) {
            Ok(answer) => Ok(answer),
            Err(ApplyFault::OutOfMemory) => Err(AllocError),
            Err(ApplyFault::JournalFull { .. } | ApplyFault::Ended { .. }) => unreachable!(),
        }
    }

    /// Ends the history again.
    fn stop(&mut self, tag: Tag)
        requires { stop_at (events_in self.old) ≡ None }
        ensures scenes { self.new.scenes ≡ self.old.scenes }
        ensures made { self.new.stage ≡ after_event (Stop tag) self.old.stage }
    {
        self.stage.stop(tag).unwrap();
    }
}
