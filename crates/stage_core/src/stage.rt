//! The stage over its own journal.
ghost use Rattle.std.specs.Prelude.{◌≡◌, ℕ, ◌+◌, ◌<◌, ◌≤◌, [], All, IfOk, IfErr, IfSome, OnOk, OnErr, None, Some, false, length, map, slice_get};
ghost use Rattle.std.specs.List.{range_with_len};
ghost use Rattle.play_types.specs.Answer.{micros_of};
ghost use Rattle.play_types.specs.History.{stop_at, ticks};
ghost use Rattle.play_types.specs.Scene.{IsConfigured};
ghost use Rattle.play_types.specs.declared.event.Event.TheVariants.{Batch, Do, Stop, Tick};
ghost use Rattle.play_types.specs.declared.place.TheConstants.{MAX_LIVE_LAYERS};
ghost use Rattle.history_model.specs.pictures.Media.{Setup};
ghost use Rattle.history_model.specs.pictures.Scene.{scene};
ghost use Rattle.history_model.specs.stage.Answer.{StageAnswer, answer, command_answer, number_count};
ghost use Rattle.history_model.specs.stage.Value.{value};
ghost use Rattle.history_model.specs.commands.Channels.{IsServed};
ghost use Rattle.stage_core.specs.Seen.{seen_layers};
ghost use Rattle.stage_core.specs.Stage.{HasRoom, HasTime, IsNoTick, IsNotTaken, after_event};

use crate::fault::{ApplyFault, Ended, TickFault};
use crate::live_state::LiveState;
use crate::needed::reserve_for;
use crate::seen::LayerView;
use crate::settle::{settle, settle_all};
use crate::status::statuses;
use mixer_state::Mixer;
use play_journal::Journal;
use play_types::{
    Answer, Cmd, CommandShape, Config, MAX_TICKS, Micros, Place, Prop, Query, Scenes, Tag,
};
use route_graph::Routes;
use std::alloc::{AllocError, Global};
use std::marker::Model;
use std::slice;

/// The stage of a server, with the journal of its events.
///
/// Contracts see its journal and the number of its channels. The answer to an event and the scenes of a tick are those that the
/// definitions give for the journal before that event. The time that an event takes grows with the number of live places, of
/// mixer settings that were applied and not reset, and of commands of the event, and not with the length of the journal.
#[derive(Debug, Drop)]
pub struct Stage {
    journal: Journal,
    live: LiveState,
    // The live state before a batch, while the batch is tested for refusal.
    saved: LiveState,
    mixer: Mixer,
    routes: Routes,
}

impl Model for Stage {
    ghost use Rattle.std.specs.Prelude.{length};
    ghost use Rattle.stage_core.specs.Stage.{StageView};
    ghost use Rattle.stage_core.specs.Kept.{IsStage};

    ghost Value = { StageView };

    ghost view = { λ s. record { journal = s.journal; channels = length s.live.places } };

    ghost invariant = { λ s. IsStage s.journal.events s.live s.saved s.mixer s.routes };
}

impl Stage {
    /// Creates a stage without events, with the channels and the journal limit of a configuration, and allocates the memory for
    /// all live places and waiting settings of each channel.
    pub fn new(alloc: Global, config: &Config) -> Result<Stage, AllocError>
        ensures { IfOk result (λ stage. stage
            ≡ record { journal = record { limit = config.now.journal_limit; events = [] }; channels = length config.now.channels }) }
    {
        let count = config.channels().len();
        Ok(Stage {
            journal: Journal::new(alloc, config.journal_limit())?,
            live: LiveState::new(alloc, count)?,
            saved: LiveState::new(alloc, count)?,
            mixer: Mixer::new(alloc, count as u8)?,
            routes: Routes::new(alloc, count as u8)?,
        })
    }

    /// Adds a command to the journal, executes it, and returns its answer. The answer to a query is the value or the statuses
    /// that it asks for. The answer to another command is `Refused` if a channel would have more than 64 live layers or more
    /// than 1,024 waiting settings, and `Done` otherwise. A refused command is in the journal too, and changes nothing else.
    ///
    /// Each place, channel and route that the command names must be of a channel of the stage. The call fails if the journal
    /// holds a stop, which is tested first, then if the journal is full, and then if memory runs out. After a fault the stage
    /// and its journal are as before.
    pub fn apply(&mut self, alloc: Global, tag: Tag, cmd: Cmd) -> Result<Answer, ApplyFault>
        requires { IsServed self.old.channels cmd }
        ensures answer { IfOk result (λ reply. (setup : Setup) → length setup.channels ≡ self.old.channels →
            answer setup self.old.journal.events (Do tag cmd) ≡ StageAnswer.Answered reply) }
        ensures journal { OnOk result (self.new ≡ after_event (Do tag cmd) self.old) }
        ensures room { OnOk result (HasRoom self.old.journal 1) }
        ensures err { OnErr result (self.new ≡ self.old) }
        ensures fault { IfErr result (λ fault. IsNotTaken self.old.journal 1 fault) }
    {
        self.room_for(1)?;
        let reply = self.reply(&cmd);
        let ticks = self.journal.ticks();
        // The mixer's memory is taken before anything changes.
        let waiting = self.live.waiting();
        if reserve_for(alloc, &mut self.mixer, slice::from_ref(&cmd), waiting).is_err() {
            return Err(ApplyFault::OutOfMemory);
        }
        self.journal.push(alloc, tag, cmd)?;
        if self.live.apply(&cmd) {
            return Ok(Answer::Refused);
        }
        settle(alloc, &mut self.mixer, &cmd, ticks);
        Ok(reply)
    }

    /// Adds a batch to the journal as one event, and executes its commands in order. If one of them is refused after the ones
    /// before it, the answer is `Refused`, and the batch changes nothing but the journal. Otherwise the answer is `Done`.
    ///
    /// The batch must not be empty, and its commands must be such as [`Stage::apply`] accepts. The faults are those of that
    /// call. The journal is full if it has no room for all commands of the batch.
    pub fn apply_batch(
        &mut self,
        alloc: Global,
        tag: Tag,
        cmds: &[Cmd],
    ) -> Result<Answer, ApplyFault>
        requires some { 0 < length cmds.now }
        requires each { All (IsServed self.old.channels) cmds.now }
        ensures answer { IfOk result (λ reply. (setup : Setup) →
            answer setup self.old.journal.events (Batch tag cmds.now) ≡ StageAnswer.Answered reply) }
        ensures journal { OnOk result (self.new ≡ after_event (Batch tag cmds.now) self.old) }
        ensures room { OnOk result (HasRoom self.old.journal (length cmds.now)) }
        ensures err { OnErr result (self.new ≡ self.old) }
        ensures fault { IfErr result (λ fault. IsNotTaken self.old.journal (length cmds.now) fault) }
    {
        self.room_for(cmds.len())?;
        let ticks = self.journal.ticks();
        // The mixer's memory is taken before anything changes.
        let waiting = self.live.waiting();
        if reserve_for(alloc, &mut self.mixer, cmds, waiting).is_err() {
            return Err(ApplyFault::OutOfMemory);
        }
        self.journal.push_batch(alloc, tag, cmds)?;
        self.saved.copy_from(&self.live);
        if self.live.apply_all(cmds) {
            self.live.copy_from(&self.saved);
            return Ok(Answer::Refused);
        }
        settle_all(alloc, &mut self.mixer, cmds, ticks);
        Ok(Answer::Done)
    }

    /// Adds a tick to the journal, writes what each channel shows at that tick into the scenes, and returns the number of the
    /// tick. The first tick has the number 1.
    ///
    /// There must be as many scenes as the stage has channels. The call fails if the journal holds a stop, which is tested
    /// first, or 281,474,976,710,656 ticks. After a fault the stage, its journal and the scenes are as before.
    pub fn tick(&mut self, scenes: &mut Scenes) -> Result<u64, TickFault>
        requires { length scenes.old ≡ self.old.channels }
        ensures number { IfOk result (λ number. number ≡ ticks self.old.journal.events + 1) }
        ensures scenes { OnOk result (scenes.new ≡ map (scene self.old.journal.events) (range_with_len 1 self.old.channels)) }
        ensures journal { OnOk result (self.new ≡ after_event Tick self.old) }
        ensures time { OnOk result (HasTime self.old.journal) }
        ensures err { OnErr result (self.new ≡ self.old) }
        ensures err_scenes { OnErr result (scenes.new ≡ scenes.old) }
        ensures fault { IfErr result (λ fault. IsNoTick self.old.journal fault) }
    {
        if let Some(at) = self.journal.stopped() {
            return Err(TickFault::Ended { at });
        }
        if self.journal.ticks() == MAX_TICKS {
            return Err(TickFault::TicksOver);
        }
        let number = self.journal.ticks() + 1;
        self.journal.push_tick();
        self.routes.begin_tick();
        scenes.clear();
        self.live
            .tick(number, &self.mixer, &mut self.routes, scenes);
        Ok(number)
    }

    /// Adds a stop to the journal, which accepts no event after it, and returns the number of events before it. If the journal
    /// already holds a stop, the call fails, and the stage is as before.
    pub fn stop(&mut self, tag: Tag) -> Result<u64, Ended>
        ensures position { IfOk result (λ at. at ≡ length self.old.journal.events) }
        ensures journal { OnOk result (self.new ≡ after_event (Stop tag) self.old) }
        ensures running { OnOk result (stop_at self.old.journal.events ≡ None) }
        ensures err { OnErr result (self.new ≡ self.old) }
        ensures ended { IfErr result (λ ended. stop_at self.old.journal.events ≡ Some ended.at) }
    {
        if let Some(at) = self.journal.stopped() {
            return Err(Ended { at });
        }
        self.journal.push_stop(tag);
        Ok(self.journal.stopped().unwrap())
    }

    /// Returns what a status display shows of a layer: the one at position `at`, counted from 0, among the layers of a channel
    /// that have a foreground, in rising number. It returns `None` exactly if no more than `at` layers of the channel have a
    /// foreground. A channel that the stage lacks has no such layer.
    ///
    /// The layer is as the last event of the journal left it. Only its foreground is shown: neither the content that the
    /// foreground replaces in a transition, nor a background, even if that starts at the next tick.
    pub fn seen_layer(&self, channel: u8, at: u8) -> Option<LayerView>
        ensures range { IfSome result (λ seen. at ≤ MAX_LIVE_LAYERS + 2) }
        ensures value { result ≡ slice_get (seen_layers self.now.journal.events channel) at }
    {
        let places = self.live.places();
        if channel == 0 || usize::from(channel) > places.count() {
            return None;
        }
        places.channel(channel).seen(at)
    }

    /// Returns the value of a mixer property of a place after the events so far, in millionths. The channel of the place is one of
    /// the stage.
    pub fn mixer_value(&self, place: Place, prop: Prop) -> Micros
        requires { IsConfigured self.now.channels place.channel }
        ensures { result ≡ micros_of
            (value self.now.journal.events place prop (ticks self.now.journal.events)) (number_count prop) }
    {
        self.mixer.value(place, prop, self.journal.ticks())
    }

    /// Returns the journal.
    pub fn journal(&self) -> &Journal
        ensures { result.now ≡ self.now.journal }
    {
        &self.journal
    }

    /// Tests whether the journal has room for an event of `commands` commands: it holds no stop, and its commands and these are
    /// no more than its limit.
    fn room_for(&self, commands: usize) -> Result<(), ApplyFault>
        ensures room { OnOk result (HasRoom self.now.journal commands) }
        ensures fault { IfErr result (λ fault. IsNotTaken self.now.journal commands fault) }
    {
        if let Some(at) = self.journal.stopped() {
            return Err(ApplyFault::Ended { at });
        }
        let held = self.journal.held();
        if commands > (self.journal.limit() - held) as usize {
            return Err(ApplyFault::JournalFull { held });
        }
        Ok(())
    }

    /// Returns the answer to a command that is not refused: the value or the statuses that a query asks for, and `Done` to
    /// another command.
    fn reply(&self, cmd: &Cmd) -> Answer
        requires { IsServed self.now.channels cmd.now }
        ensures { (setup : Setup) → length setup.channels ≡ self.now.channels →
            result ≡ command_answer setup self.now.journal.events false cmd.now }
    {
        match cmd.shape() {
            CommandShape::Ask(query) => match query {
                Query::Value(at, prop) => {
                    Answer::Value(self.mixer.value(at, prop, self.journal.ticks()))
                }
                Query::Status => Answer::Info(statuses(self.live.places())),
            },
            CommandShape::Take(..)
            | CommandShape::Change(_)
            | CommandShape::ClearChannel(_)
            | CommandShape::SwapLayers(..)
            | CommandShape::SwapChannels(..)
            | CommandShape::Set(_)
            | CommandShape::CommitMixer(_)
            | CommandShape::Reset(_)
            | CommandShape::Record(_) => Answer::Done,
        }
    }
}
