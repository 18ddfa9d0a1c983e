//! Mixer values and waiting settings.
ghost use Rattle.std.specs.Prelude.{◌≡◌, ℕ, ◌+◌, ◌<◌, ◌≤◌, ◌↔◌, List, [], length, true, false, IsTrue, IsOk, IfOk, OnOk, OnErr};
ghost use Rattle.std.specs.Bool.{OnFalse, OnTrue};
ghost use Rattle.play_types.specs.Answer.{micros_of};
ghost use Rattle.play_types.specs.Scene.{IsConfigured};
ghost use Rattle.play_types.specs.Setting.{AreValues};
ghost use Rattle.play_types.specs.declared.command.Cmd.TheVariants.{CommitMixer, ResetChannel, ResetLayer, Set, SwapChannels, SwapLayers};
ghost use Rattle.play_types.specs.declared.setting.TheConstants.{MAX_WAITING_SETTINGS};
ghost use Rattle.history_model.specs.stage.Act.{Act};
ghost use Rattle.history_model.specs.stage.Answer.{number_count};
ghost use Rattle.history_model.specs.stage.Value.{value_at};
ghost use Rattle.mixer_state.specs.Mixer.{IsAsBefore, UsesNoMemory, values_of, waiting_on};
ghost use Rattle.mixer_state.specs.Past.{Represents, TakesCommand};

use crate::courses::number_count;
use crate::places::Places;
use crate::waiting::WaitingList;
use play_types::{MAX_WAITING_SETTINGS, Micros, Place, Prop, Setting};
use std::alloc::{AllocError, Global};
use std::marker::Model;

/// The mixer values of all places of its channels, which count from 1, and the settings that wait.
///
/// A mixer represents acts, which are the commands so far with the ticks before each, if its values and its waiting
/// settings are those that they give. A new mixer represents no acts. Each call keeps, for all acts that the mixer
/// represented, that it represents these acts with its own command at their end.
///
/// Contracts see a number of spare settings, for which memory is reserved. Only [`Mixer::set`], [`Mixer::commit`] and
/// [`Mixer::swap_layers`] may use it, and they return an [`AllocError`] only if too little of it is left.
#[derive(Debug, Drop)]
pub struct Mixer {
    places: Places,
    // One list for each channel.
    waiting: Vec<WaitingList>,
    // The ticks at the latest set or commit.
    latest: u64,
}

impl Model for Mixer {
    ghost use Rattle.std.specs.Prelude.{length};
    ghost use Rattle.mixer_state.specs.Mixer.{MixerView};
    ghost use Rattle.mixer_state.specs.Entries.{waiting_lists};
    ghost use Rattle.mixer_state.specs.Kept.{IsKept};

    ghost Value = { MixerView };

    ghost view = { λ m. record { channels = length m.waiting.items; spare = m.places.spare; latest = m.latest; tuned = m.places.entries; waiting = waiting_lists m.waiting.items } };

    ghost invariant = { λ m. IsKept m.places m.latest m.waiting.items };
}

impl Mixer {
    /// Creates a mixer for channels 1 to `channels`, in which all values are the defaults and no setting waits. The memory for 1,024
    /// waiting settings of each channel is allocated.
    pub fn new(alloc: Global, channels: u8) -> Result<Mixer, AllocError>
        ensures channels { IfOk result (λ mixer. mixer.channels ≡ channels) }
        ensures acts { IfOk result (λ mixer. (ticks : ℕ) → Represents mixer [] ticks) }
    {
        let places = Places::new(alloc, channels)?;
        let mut waiting = Vec::with_capacity(alloc, usize::from(channels))?;
        for _channel in 0..channels {
            waiting.push(WaitingList::new(alloc)?)?;
        }
        Ok(Mixer {
            places,
            waiting,
            latest: 0,
        })
    }

    /// Starts a setting after `ticks` ticks, whether it is marked as deferred or not: its value goes from where it is to the new
    /// one. The channel is one of the mixer's, and `ticks` is not below that of an earlier set or commit. If memory runs out, the
    /// mixer is as before. It allocates nothing if a setting is spare.
    pub fn set(&mut self, _alloc: Global, setting: &Setting, ticks: u64) -> Result<(), AllocError>
        requires channel { IsConfigured self.old.channels setting.now.place.channel }
        requires time { self.old.latest ≤ ticks }
        ensures acts { OnOk result
            (TakesCommand (Set (record setting.now { deferred = false })) ticks self.old self.new) }
        ensures latest { OnOk result (self.new.latest ≡ ticks) }
        ensures channels { self.new.channels ≡ self.old.channels }
        ensures err { OnErr result (IsAsBefore self.old self.new) }
        ensures memory { 0 < self.old.spare → IsOk result }
        ensures spare { self.old.spare ≤ self.new.spare + 1 }
    {
        self.places.start(setting, ticks)?;
        self.latest = ticks;
        Ok(())
    }

    /// Appends a setting to those of its channel that wait, whether it is marked as deferred or not. Returns `false` exactly if
    /// 1,024 wait already, and the mixer is then as before. The channel is one of the mixer's.
    pub fn defer(&mut self, setting: &Setting) -> bool
        requires { IsConfigured self.old.channels setting.now.place.channel }
        ensures room { IsTrue result
            ↔ (length (waiting_on self.old setting.now.place.channel) < MAX_WAITING_SETTINGS) }
        ensures acts { OnTrue result ((ticks : ℕ)
            → TakesCommand (Set (record setting.now { deferred = true })) ticks self.old self.new) }
        ensures full { OnFalse result (self.new ≡ self.old) }
        ensures values { self.new.tuned ≡ self.old.tuned }
        ensures memory { UsesNoMemory self.old self.new }
    {
        let waiting = &mut self.waiting[usize::from(setting.place().channel()) - 1];
        if waiting.as_slice().len() == MAX_WAITING_SETTINGS {
            return false;
        }
        waiting.push(*setting);
        true
    }

    /// Starts all waiting settings of a channel after `ticks` ticks, in the order in which they came. The channel is one of the
    /// mixer's, and `ticks` is not below that of an earlier set or commit. If memory runs out, the mixer is as before. It allocates
    /// nothing if as many settings are spare as wait.
    pub fn commit(&mut self, _alloc: Global, channel: u8, ticks: u64) -> Result<(), AllocError>
        requires channel { IsConfigured self.old.channels channel }
        requires time { self.old.latest ≤ ticks }
        ensures acts { OnOk result (TakesCommand (CommitMixer channel) ticks self.old self.new) }
        ensures latest { OnOk result (self.new.latest ≡ ticks) }
        ensures channels { self.new.channels ≡ self.old.channels }
        ensures err { OnErr result (IsAsBefore self.old self.new) }
        ensures range { length (waiting_on self.old channel) ≤ MAX_WAITING_SETTINGS }
        ensures memory { length (waiting_on self.old channel) ≤ self.old.spare → IsOk result }
        ensures spare { self.old.spare ≤ self.new.spare + length (waiting_on self.old channel) }
    {
        let waiting = &mut self.waiting[usize::from(channel) - 1];
        self.places.start_all(channel, waiting.as_slice(), ticks)?;
        waiting.clear();
        self.latest = ticks;
        Ok(())
    }

    /// Sets all values of a place to their defaults at once. Waiting settings stay. The channel is one of the mixer's.
    pub fn clear_layer(&mut self, place: Place)
        requires { IsConfigured self.old.channels place.channel }
        ensures acts { (ticks : ℕ) → TakesCommand (ResetLayer place) ticks self.old self.new }
        ensures memory { UsesNoMemory self.old self.new }
    {
        self.places.remove(place);
    }

    /// Sets all values of the places of a channel to their defaults at once. Waiting settings stay. The channel is one of the
    /// mixer's.
    pub fn clear_channel(&mut self, channel: u8)
        requires { IsConfigured self.old.channels channel }
        ensures acts { (ticks : ℕ) → TakesCommand (ResetChannel channel) ticks self.old self.new }
        ensures memory { UsesNoMemory self.old self.new }
    {
        self.places.clear(channel);
    }

    /// Exchanges the values of two places. Waiting settings stay where they are. The channels are the mixer's. If memory runs out,
    /// the mixer is as before. It allocates nothing if a setting is spare.
    pub fn swap_layers(&mut self, _alloc: Global, a: Place, b: Place) -> Result<(), AllocError>
        requires a { IsConfigured self.old.channels a.channel }
        requires b { IsConfigured self.old.channels b.channel }
        ensures acts { OnOk result
            ((ticks : ℕ) → TakesCommand (SwapLayers a b true) ticks self.old self.new) }
        ensures latest { self.new.latest ≡ self.old.latest }
        ensures channels { self.new.channels ≡ self.old.channels }
        ensures err { OnErr result (IsAsBefore self.old self.new) }
        ensures memory { 0 < self.old.spare → IsOk result }
        ensures spare { self.old.spare ≤ self.new.spare + 1 }
    {
        self.places.swap(a, b)
    }

    /// Exchanges the values of all places of two channels. Waiting settings stay where they are. The channels are the mixer's.
    pub fn swap_channels(&mut self, a: u8, b: u8)
        requires a { IsConfigured self.old.channels a }
        requires b { IsConfigured self.old.channels b }
        ensures acts { (ticks : ℕ) → TakesCommand (SwapChannels a b true) ticks self.old self.new }
        ensures memory { UsesNoMemory self.old self.new }
    {
        self.places.swap_channels(a, b);
    }

    /// Returns the value of a property of a place after `ticks` ticks, in millionths and in the property's range. The channel is one
    /// of the mixer's, and `ticks` is not below that of an earlier set or commit.
    pub fn value(&self, place: Place, prop: Prop, ticks: u64) -> Micros
        requires channel { IsConfigured self.now.channels place.channel }
        requires time { self.now.latest ≤ ticks }
        ensures value { result ≡ micros_of (values_of self.now place prop ticks) (number_count prop) }
        ensures acts { (acts : List Act) → Represents self.now acts ticks
            → result ≡ micros_of (value_at acts place prop ticks) (number_count prop) }
        ensures range { AreValues prop result.values }
        ensures four { length (values_of self.now place prop ticks) ≡ 4 }
    {
        let values = self.places.course(place, prop).value(prop, ticks);
        Micros::new(values, number_count(prop)).unwrap()
    }

    /// Returns the number of settings of a channel that wait, at most 1,024. The channel is one of the mixer's.
    pub fn waiting(&self, channel: u8) -> u32
        requires { IsConfigured self.now.channels channel }
        ensures value { result ≡ length (waiting_on self.now channel) }
        ensures range { length (waiting_on self.now channel) ≤ MAX_WAITING_SETTINGS }
    {
        self.waiting[usize::from(channel) - 1].as_slice().len() as u32
    }

    /// Reserves memory for at least `places` spare settings. If memory runs out, fewer may be spare, but no fewer than before. All
    /// else is as before.
    pub fn reserve(&mut self, _alloc: Global, places: u32) -> Result<(), AllocError>
        ensures ok { OnOk result (places ≤ self.new.spare) }
        ensures same { IsAsBefore self.old self.new }
        ensures spare { self.old.spare ≤ self.new.spare }
    {
        self.places.reserve(places as usize)
    }
}
