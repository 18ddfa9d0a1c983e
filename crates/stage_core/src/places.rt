//! The live places of a channel.
ghost use Rattle.std.specs.Prelude.{◌≡◌, ◌+◌, ◌≤◌, [], IfOk, IfErr, IfSome, filter_map, length, map, slice_get};
ghost use Rattle.play_types.specs.Scene.{IsConfigured, scene_at};
ghost use Rattle.play_types.specs.declared.place.TheConstants.{MAX_CHANNELS, MAX_LAYER, MAX_LIVE_LAYERS};
ghost use Rattle.history_model.specs.stage.Answer.{status_of};
ghost use Rattle.history_model.specs.stage.Places.{ArePlaces, is_over_limit, one_tick_later, standing, with_place};
ghost use Rattle.route_graph.specs.Routes.{last_tick};
ghost use Rattle.stage_core.specs.inner.Drawn.{drawn_next, mixed_values, shown_layer, tick_past, with_shown_layers};
ghost use Rattle.stage_core.specs.inner.Found.{AreLayers, IsAt, IsGapFor};
ghost use Rattle.stage_core.specs.inner.Seen.{seen_of};
ghost use Rattle.stage_core.specs.inner.Shown.{CanShow};
ghost use Rattle.history_model.specs.stage.StageHistory.{foreground_of};
ghost use Rattle.stage_core.specs.inner.Target.{with_layers};

use crate::command::is_live;
use crate::drawn::{draw, note};
use crate::seen::LayerView;
use layer_state::Layer;
use mixer_state::Mixer;
use play_types::{MAX_LIVE_LAYERS, Place, Scenes, Status};
use route_graph::Routes;
use std::alloc::{AllocError, Global};
use std::marker::Model;

/// The live layers of a channel, in rising number.
///
/// A channel may have 64. The list has room for three more, which it holds only while a command is tested for refusal. The
/// memory is allocated at creation.
#[derive(Debug, Drop)]
pub(crate) struct PlaceList {
    places: Vec<(u16, Layer)>,
}

impl Model for PlaceList {
    ghost use Rattle.stage_core.specs.inner.Found.{AreKept};
    ghost use Rattle.std.specs.Vec.{vec_capacity, vec_len};
    ghost use Rattle.history_model.specs.stage.Places.{Places};

    ghost Value = { Places };

    ghost view = { λ l. l.places.items };

    ghost invariant = { λ l. AreKept l.places.items (vec_len l.places) (vec_capacity l.places) };
}

impl PlaceList {
    /// Creates an empty list, and allocates the memory for all its places.
    pub(crate) fn new(alloc: Global) -> Result<PlaceList, AllocError>
        ensures { IfOk result (λ places. places ≡ []) }
    {
        Ok(PlaceList {
            places: Vec::with_capacity(alloc, MAX_LIVE_LAYERS + 3)?,
        })
    }

    /// Returns whether the channel has more live places than it may have.
    pub(crate) fn is_over(&self) -> bool
        ensures { result ≡ is_over_limit self.now }
    {
        self.places.len() > MAX_LIVE_LAYERS
    }

    /// Returns the status of the channel: `Playing` if a foreground is not paused, `Paused` if all foregrounds are paused, and
    /// `Empty` if there is no foreground.
    pub(crate) fn status(&self) -> Status
        ensures { result ≡ status_of (filter_map foreground_of self.now) }
    {
        let mut status = Status::Empty;
        for place in &self.places {
            if let Some(front) = place.1.front() {
                if !front.paused {
                    return Status::Playing;
                }
                status = Status::Paused;
            }
        }
        status
    }

    /// Returns what a status display shows of the place at position `at`, counted from 0, among those that have a foreground.
    /// It returns `None` exactly if no more than `at` places have one.
    pub(crate) fn seen(&self, at: u8) -> Option<LayerView>
        ensures range { IfSome result (λ seen. at ≤ MAX_LIVE_LAYERS + 2) }
        ensures value { result ≡ slice_get (filter_map seen_of self.now) at }
    {
        let mut left = at;
        for place in &self.places {
            if let Some(front) = place.1.front() {
                if left == 0 {
                    return Some(LayerView::of(place.0, front));
                }
                left -= 1;
            }
        }
        None
    }

    /// Removes all places.
    pub(crate) fn clear(&mut self)
        ensures { self.new ≡ [] }
    {
        self.places.clear();
    }

    /// Replaces all places with those of `other`.
    pub(crate) fn copy_from(&mut self, other: &PlaceList)
        ensures { self.new ≡ other.now }
    {
        self.places.clear();
        self.places.extend_from_slice(&other.places).unwrap();
    }

    /// Returns the layer numbered `number`, an empty one if the list lacks it.
    pub(crate) fn get(&self, number: u16) -> Layer
        ensures value { result ≡ standing self.now number }
        ensures range { ArePlaces self.now }
    {
        match self.find(number) {
            Ok(at) => self.places[at].1,
            Err(_) => Layer::new(),
        }
    }

    /// Stores a layer under its number. A layer without foreground and background is removed from the list.
    pub(crate) fn set(&mut self, number: u16, layer: Layer)
        requires room { length self.old ≤ MAX_LIVE_LAYERS + 2 }
        requires number { number ≤ MAX_LAYER }
        ensures { self.new ≡ with_place self.old number layer }
    {
        match self.find(number) {
            Ok(at) => {
                if is_live(&layer) {
                    self.places[at] = (number, layer);
                    return;
                }
                self.places.remove(at);
            }
            Err(at) => {
                if !is_live(&layer) {
                    return;
                }
                self.places.insert(at, (number, layer)).unwrap();
            }
        }
    }

    /// Advances each place to the tick `number`, and adds what the places show at that tick to the scene of a channel and to
    /// the routes, in rising layer.
    pub(crate) fn tick(
        &mut self,
        channel: u8,
        number: u64,
        mixer: &Mixer,
        routes: &mut Routes,
        scenes: &mut Scenes,
    )
        requires places { CanShow (length scenes.old) self.old }
        requires channel { IsConfigured (length scenes.old) channel }
        requires few_channels { channel ≤ MAX_CHANNELS }
        requires empty { scene_at channel scenes.old ≡ [] }
        requires mixer { IsConfigured mixer.now.channels channel }
        requires time { mixer.now.latest ≤ number }
        requires routes { channel ≤ routes.old.channels }
        requires tick { IsConfigured (length (last_tick routes.old)) channel }
        requires blank { with_shown_layers channel [] routes.old ≡ routes.old }
        ensures after { self.new ≡ map one_tick_later self.old }
        ensures scenes { scenes.new ≡ with_layers channel (filter_map (drawn_next (mixed_values mixer.now number) (tick_past routes.old) channel) self.old) scenes.old }
        ensures routes { routes.new ≡ with_shown_layers channel (filter_map shown_layer self.old) routes.old }
    {
        tick_places(&mut self.places, channel, number, mixer, routes, scenes);
    }

    /// Returns the index of the layer numbered `number` in the list, or the index at which it would be inserted.
    fn find(&self, number: u16) -> Result<usize, usize>
        ensures found { IfOk result (IsAt self.now number) }
        ensures absent { IfErr result (IsGapFor self.now number) }
    {
        self.places.binary_search_by_key(&number, |&(at, _)| at)
    }
}

/// Advances each place to the tick `number`, and adds what the places show at that tick to the scene of a channel and to the
/// routes, in order.
fn tick_places(
    places: &mut [(u16, Layer)],
    channel: u8,
    number: u64,
    mixer: &Mixer,
    routes: &mut Routes,
    scenes: &mut Scenes,
)
    requires places { CanShow (length scenes.old) places.old }
    requires rising { ArePlaces places.old }
    requires layers { AreLayers places.old }
    requires channel { IsConfigured (length scenes.old) channel }
    requires few_channels { channel ≤ MAX_CHANNELS }
    requires empty { scene_at channel scenes.old ≡ [] }
    requires mixer { IsConfigured mixer.now.channels channel }
    requires time { mixer.now.latest ≤ number }
    requires routes { channel ≤ routes.old.channels }
    requires tick { IsConfigured (length (last_tick routes.old)) channel }
    requires blank { with_shown_layers channel [] routes.old ≡ routes.old }
    ensures after { places.new ≡ map one_tick_later places.old }
    ensures scenes { scenes.new ≡ with_layers channel (filter_map (drawn_next (mixed_values mixer.now number) (tick_past routes.old) channel) places.old) scenes.old }
    ensures routes { routes.new ≡ with_shown_layers channel (filter_map shown_layer places.old) routes.old }
{
    for at in 0..places.len() {
        let (layer_number, mut layer) = places[at];
        let shown = layer.tick();
        places[at] = (layer_number, layer);
        let place = Place::new(channel, layer_number).unwrap();
        draw(place, &shown, number, mixer, routes, scenes);
        note(place, &shown, routes);
    }
}
