//! The live places and waiting settings of a stage, and the effect of commands on them.
ghost use Rattle.std.specs.Prelude.{◌≡◌, ◌≤◌, [], All, IfOk, Some, false, filter_map, length, map, replicate, if◌then◌else◌};
ghost use Rattle.std.specs.List.{range_with_len};
ghost use Rattle.play_types.specs.Scene.{IsConfigured};
ghost use Rattle.play_types.specs.declared.place.TheConstants.{MAX_CHANNELS};
ghost use Rattle.history_model.specs.commands.Channels.{IsServed};
ghost use Rattle.stage_core.specs.LiveState.{live_with_all, live_one_tick_later, count_of, is_full_for, is_refused_on, is_some_over, kept_state, some_is_refused_on, with_setting};
ghost use Rattle.stage_core.specs.inner.Drawn.{mixed_values, scene_next, shown_layer, tick_past, with_present};
ghost use Rattle.stage_core.specs.inner.Shown.{CanShow};

use crate::channels::LivePlaces;
use mixer_state::Mixer;
use play_types::{
    Cmd, CommandShape, MAX_CHANNELS, MAX_WAITING_SETTINGS, Scenes, Setting, channel_index,
};
use route_graph::Routes;
use std::alloc::{AllocError, Global};
use std::marker::Model;

/// The live places of all channels, and how many settings wait on each.
#[derive(Debug, Drop)]
pub(crate) struct LiveState {
    places: LivePlaces,
    // Channel 1 first, with 0 for each channel that the stage lacks.
    waiting: [usize; MAX_CHANNELS],
}

impl Model for LiveState {
    ghost use Rattle.stage_core.specs.LiveState.{LiveView};

    ghost Value = { LiveView };

    ghost view = { λ b. record { places = b.places; waiting = b.waiting } };
}

impl LiveState {
    /// Creates a live state of `count` channels without live places and without waiting settings.
    pub(crate) fn new(alloc: Global, count: usize) -> Result<LiveState, AllocError>
        ensures { IfOk result (λ live. live ≡ record { places = replicate count []; waiting = replicate MAX_CHANNELS 0 }) }
    {
        Ok(LiveState {
            places: LivePlaces::new(alloc, count)?,
            waiting: [0; MAX_CHANNELS],
        })
    }

    /// Applies a command, and returns whether it is refused: if a channel would have more than 64 live layers or more than
    /// 1,024 waiting settings. On refusal the live state is as before.
    pub(crate) fn apply(&mut self, cmd: &Cmd) -> bool
        requires served { IsServed (length self.old.places) cmd.now }
        requires few { is_some_over self.old.places ≡ false }
        requires counts { length self.old.places ≤ MAX_CHANNELS }
        ensures refused { result ≡ is_refused_on cmd.now self.old }
        ensures after { self.new ≡ kept_state cmd.now self.old }
        ensures few { is_some_over self.new.places ≡ false }
    {
        match cmd.shape() {
            CommandShape::Take(at, _) | CommandShape::Change(at) => self.places.change(at, cmd),
            CommandShape::ClearChannel(channel) => {
                self.places.clear(channel);
                false
            }
            CommandShape::SwapLayers(a, b, _) => self.places.exchange(a, b),
            CommandShape::SwapChannels(a, b, _) => {
                self.places.exchange_channels(a, b);
                false
            }
            CommandShape::Set(setting) => self.count_setting(&setting),
            CommandShape::CommitMixer(channel) => {
                self.waiting[channel_index(channel)] = 0;
                false
            }
            CommandShape::Reset(_) | CommandShape::Record(_) | CommandShape::Ask(_) => false,
        }
    }

    /// Counts a setting if it is deferred, and returns whether it is refused: if 1,024 settings wait on its channel already. On
    /// refusal the live state is as before.
    fn count_setting(&mut self, setting: &Setting) -> bool
        requires channel { IsConfigured MAX_CHANNELS setting.now.place.channel }
        ensures refused { result ≡ is_full_for setting.now self.old.waiting }
        ensures after { self.new ≡ (if is_full_for setting.now self.old.waiting then self.old
            else record self.old { waiting = with_setting setting.now self.old.waiting }) }
    {
        if !setting.deferred() {
            return false;
        }
        let at = channel_index(setting.place().channel());
        if self.waiting[at] >= MAX_WAITING_SETTINGS {
            return true;
        }
        self.waiting[at] += 1;
        false
    }

    /// Applies commands in order up to the first one that is refused, and returns whether one is refused. The commands before
    /// the refused one keep their effect.
    pub(crate) fn apply_all(&mut self, cmds: &[Cmd]) -> bool
        requires served { All (IsServed (length self.old.places)) cmds.now }
        requires few { is_some_over self.old.places ≡ false }
        requires counts { length self.old.places ≤ MAX_CHANNELS }
        ensures refused { result ≡ some_is_refused_on cmds.now self.old }
        ensures after { result ≡ false → self.new ≡ live_with_all cmds.now self.old }
        ensures count { length self.new.places ≡ length self.old.places }
    {
        for cmd in cmds {
            if self.apply(cmd) {
                return true;
            }
        }
        false
    }

    /// Replaces this live state with a copy of `other`, which has as many channels.
    pub(crate) fn copy_from(&mut self, other: &LiveState)
        requires { length self.old.places ≡ length other.now.places }
        ensures { self.new ≡ other.now }
    {
        self.places.copy_from(&other.places);
        self.waiting = other.waiting;
    }

    /// Advances each place to the tick `number`, and adds what the places show at that tick to the scenes of their channels and
    /// to the routes.
    pub(crate) fn tick(
        &mut self,
        number: u64,
        mixer: &Mixer,
        routes: &mut Routes,
        scenes: &mut Scenes,
    )
        requires shown { All (CanShow (length self.old.places)) self.old.places }
        requires scenes { scenes.old ≡ replicate (length self.old.places) [] }
        requires mixer { mixer.now.channels ≡ length self.old.places }
        requires time { mixer.now.latest ≤ number }
        requires channels { routes.old.channels ≡ length self.old.places }
        requires routes { routes.old.present ≡ Some (replicate (length self.old.places) []) }
        ensures after { self.new ≡ live_one_tick_later self.old }
        ensures scenes { scenes.new ≡ map (scene_next (mixed_values mixer.now number) (tick_past routes.old) self.old.places) (range_with_len 1 (length self.old.places)) }
        ensures routes { routes.new ≡ with_present (map (filter_map shown_layer) self.old.places) routes.old }
    {
        self.places.tick(number, mixer, routes, scenes);
    }

    /// Returns how many settings wait on each channel, channel 1 first.
    pub(crate) fn waiting(&self) -> [usize; MAX_CHANNELS]
        ensures { result ≡ self.now.waiting }
    {
        self.waiting
    }

    /// Returns the live places of all channels.
    pub(crate) fn places(&self) -> &LivePlaces
        ensures { result.now ≡ self.now.places }
    {
        &self.places
    }
}
