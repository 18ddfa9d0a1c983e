//! The live places of all channels.
ghost use Rattle.std.specs.Prelude.{◌≡◌, ◌+◌, ◌-◌, ◌≤◌, [], All, IfOk, Some, false, filter_map, length, map, replicate};
ghost use Rattle.std.specs.List.{range_with_len, swap};
ghost use Rattle.play_types.specs.ChannelItems.{with_channel_item};
ghost use Rattle.play_types.specs.Scene.{IsConfigured};
ghost use Rattle.play_types.specs.declared.place.TheConstants.{MAX_LIVE_LAYERS};
ghost use Rattle.history_model.specs.stage.Places.{ArePlaces, one_tick_later};
ghost use Rattle.stage_core.specs.LiveState.{changed_place, is_some_over, kept_within, life_at, places_of, with_exchanged, with_life};
ghost use Rattle.stage_core.specs.inner.Drawn.{mixed_values, scene_next, shown_layer, tick_past, with_present};
ghost use Rattle.stage_core.specs.inner.Shown.{CanShow};

use crate::command::layer_after;
use crate::places::PlaceList;
use layer_state::Layer;
use mixer_state::Mixer;
use play_types::{Cmd, Place, Scenes, channel_index};
use route_graph::Routes;
use std::alloc::{AllocError, Global};
use std::marker::Model;

/// The live places of all channels. The memory for as many as there may be is allocated at creation.
#[derive(Debug, Drop)]
pub(crate) struct LivePlaces {
    channels: Vec<PlaceList>,
}

impl Model for LivePlaces {
    ghost use Rattle.stage_core.specs.LiveState.{Channels};

    ghost Value = { Channels };

    ghost view = { λ l. l.channels.items };
}

impl LivePlaces {
    /// Creates `count` channels without places.
    pub(crate) fn new(alloc: Global, count: usize) -> Result<LivePlaces, AllocError>
        ensures { IfOk result (λ channels. channels ≡ replicate count []) }
    {
        let mut channels = Vec::with_capacity(alloc, count)?;
        for _channel in 0..count {
            channels.push_reserved(PlaceList::new(alloc)?);
        }
        Ok(LivePlaces { channels })
    }

    /// Applies a command to the place `at`, and returns whether the command is refused: if a channel would have more than 64
    /// live layers. On refusal the places are as before.
    pub(crate) fn change(&mut self, at: Place, cmd: &Cmd) -> bool
        requires channel { IsConfigured (length self.old) at.channel }
        requires few { is_some_over self.old ≡ false }
        ensures refused { result ≡ is_some_over (changed_place at cmd.now self.old) }
        ensures after { self.new ≡ kept_within (changed_place at cmd.now self.old) self.old }
        ensures few { is_some_over self.new ≡ false }
    {
        let before = self.layer(at);
        self.put(at, layer_after(cmd, before));
        if self.is_some_over() {
            self.put(at, before);
            return true;
        }
        false
    }

    /// Exchanges the layers at two places, and returns whether the exchange is refused: if a channel would have more than 64
    /// live layers. On refusal the places are as before.
    pub(crate) fn exchange(&mut self, a: Place, b: Place) -> bool
        requires first { IsConfigured (length self.old) a.channel }
        requires second { IsConfigured (length self.old) b.channel }
        requires few { is_some_over self.old ≡ false }
        ensures refused { result ≡ is_some_over (with_exchanged a b self.old) }
        ensures after { self.new ≡ kept_within (with_exchanged a b self.old) self.old }
        ensures few { is_some_over self.new ≡ false }
    {
        let first = self.layer(a);
        let second = self.layer(b);
        self.put_both(a, second, b, first);
        if self.is_some_over() {
            self.put_both(b, second, a, first);
            return true;
        }
        false
    }

    /// Exchanges all places of two channels.
    pub(crate) fn exchange_channels(&mut self, a: u8, b: u8)
        requires first { IsConfigured (length self.old) a }
        requires second { IsConfigured (length self.old) b }
        ensures { self.new ≡ swap self.old (a - 1) (b - 1) }
    {
        self.channels.swap(channel_index(a), channel_index(b));
    }

    /// Removes all places of a channel.
    pub(crate) fn clear(&mut self, channel: u8)
        requires { IsConfigured (length self.old) channel }
        ensures { self.new ≡ with_channel_item channel [] self.old }
    {
        self.channels[channel_index(channel)].clear();
    }

    /// Replaces all places with those of `other`, which has as many channels.
    pub(crate) fn copy_from(&mut self, other: &LivePlaces)
        requires { length self.old ≡ length other.now }
        ensures { self.new ≡ other.now }
    {
        for at in 0..other.count() {
            self.channels[at].copy_from(&other.channels[at]);
        }
    }

    /// Advances the places of each channel to the tick `number`, and adds what they show at that tick to the scene of the
    /// channel and to the routes.
    pub(crate) fn tick(
        &mut self,
        number: u64,
        mixer: &Mixer,
        routes: &mut Routes,
        scenes: &mut Scenes,
    )
        requires shown { All (CanShow (length self.old)) self.old }
        requires scenes { scenes.old ≡ replicate (length self.old) [] }
        requires mixer { mixer.now.channels ≡ length self.old }
        requires time { mixer.now.latest ≤ number }
        requires channels { routes.old.channels ≡ length self.old }
        requires routes { routes.old.present ≡ Some (replicate (length self.old) []) }
        ensures after { self.new ≡ map (map one_tick_later) self.old }
        ensures scenes { scenes.new ≡ map (scene_next (mixed_values mixer.now number) (tick_past routes.old) self.old) (range_with_len 1 (length self.old)) }
        ensures routes { routes.new ≡ with_present (map (filter_map shown_layer) self.old) routes.old }
    {
        tick_channels(&mut self.channels, number, mixer, routes, scenes);
    }

    /// Returns the number of channels.
    pub(crate) fn count(&self) -> usize
        ensures { result ≡ length self.now }
    {
        self.channels.len()
    }

    /// Returns the places of a channel.
    pub(crate) fn channel(&self, channel: u8) -> &PlaceList
        requires { IsConfigured (length self.now) channel }
        ensures { result.now ≡ places_of channel self.now }
    {
        &self.channels[channel_index(channel)]
    }

    /// Returns the layer at a place.
    fn layer(&self, at: Place) -> Layer
        requires { IsConfigured (length self.now) at.channel }
        ensures value { result ≡ life_at at self.now }
        ensures range { ArePlaces (places_of at.channel self.now) }
    {
        self.channels[channel_index(at.channel())].get(at.layer())
    }

    /// Puts a layer at a place.
    fn put(&mut self, at: Place, layer: Layer)
        requires channel { IsConfigured (length self.old) at.channel }
        requires room { length (places_of at.channel self.old) ≤ MAX_LIVE_LAYERS + 2 }
        ensures { self.new ≡ with_life at layer self.old }
    {
        self.channels[channel_index(at.channel())].set(at.layer(), layer);
    }

    /// Puts a layer at one place, and then another at a second one.
    fn put_both(&mut self, one: Place, first: Layer, other: Place, second: Layer)
        requires one { IsConfigured (length self.old) one.channel }
        requires other { IsConfigured (length self.old) other.channel }
        requires room { length (places_of one.channel self.old) ≤ MAX_LIVE_LAYERS + 2 }
        requires more { length (places_of other.channel (with_life one first self.old)) ≤ MAX_LIVE_LAYERS + 2 }
        ensures { self.new ≡ with_life other second (with_life one first self.old) }
    {
        self.put(one, first);
        self.put(other, second);
    }

    /// Returns whether some channel has more live places than it may have.
    fn is_some_over(&self) -> bool
        ensures { result ≡ is_some_over self.now }
    {
        self.channels.iter().any(|places| places.is_over())
    }
}

/// Advances the places of each channel to the tick `number`, and adds what they show at that tick to the scene of the channel
/// and to the routes.
fn tick_channels(
    channels: &mut [PlaceList],
    number: u64,
    mixer: &Mixer,
    routes: &mut Routes,
    scenes: &mut Scenes,
)
    requires shown { All (CanShow (length channels.old)) channels.old }
    requires scenes { scenes.old ≡ replicate (length channels.old) [] }
    requires mixer { mixer.now.channels ≡ length channels.old }
    requires time { mixer.now.latest ≤ number }
    requires channels { routes.old.channels ≡ length channels.old }
    requires routes { routes.old.present ≡ Some (replicate (length channels.old) []) }
    ensures after { channels.new ≡ map (map one_tick_later) channels.old }
    ensures scenes { scenes.new ≡ map (scene_next (mixed_values mixer.now number) (tick_past routes.old) channels.old) (range_with_len 1 (length channels.old)) }
    ensures routes { routes.new ≡ with_present (map (filter_map shown_layer) channels.old) routes.old }
{
    for at in 0..scenes.channels() {
        channels[usize::from(at)].tick(at + 1, number, mixer, routes, scenes);
    }
}
