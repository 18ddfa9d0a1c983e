//! What the places of all channels show at a tick.
ghost use Rattle.std.specs.Prelude.{◌≡◌, ◌≤◌, IfOk, None, Some, is_some, length};
ghost use Rattle.std.specs.Option.{option_and_then};
ghost use Rattle.play_types.specs.Scene.{IsConfigured};
ghost use Rattle.play_types.specs.declared.place.TheConstants.{MAX_LIVE_LAYERS};
ghost use Rattle.route_graph.specs.Routes.{nothing_shown};
ghost use Rattle.route_graph.specs.Shown.{layers_of, shown_at, with_picture};
ghost use Rattle.route_graph.specs.inner.Tick.{shown_so_far};

use crate::layers::LayerList;
use play_types::{Place, Spec, channel_index};
use std::alloc::{AllocError, Global};
use std::marker::Model;

/// What the places of all channels show at a tick, if it has begun: a list of layers for each channel.
#[derive(Debug, Drop)]
pub(crate) struct ShownTick {
    begun: bool,
    channels: Vec<LayerList>,
}

impl Model for ShownTick {
    ghost use Rattle.std.specs.Prelude.{Some, None, length, if◌then◌else◌};
    ghost use Rattle.route_graph.specs.inner.Tick.{TickView};

    ghost Value = { TickView };

    ghost view = { λ t. record { channels = length t.channels.items; shown = if t.begun then Some t.channels.items else None } };
}

impl ShownTick {
    /// Returns a tick of the channels from 1 to `channels` that has not begun, with memory for 64 places of each channel.
    pub(crate) fn new(alloc: Global, channels: u8) -> Result<ShownTick, AllocError>
        ensures { IfOk result (λ tick. tick ≡ record { channels = channels; shown = None }) }
    {
        let count = usize::from(channels);
        let mut channels = Vec::with_capacity(alloc, count)?;
        for _channel in 0..count {
            channels.push_reserved(LayerList::new(alloc)?);
        }
        Ok(ShownTick {
            begun: false,
            channels,
        })
    }

    /// Begins the tick: no place shows anything yet.
    pub(crate) fn begin(&mut self)
        ensures { self.new ≡ record { channels = self.old.channels; shown = Some (nothing_shown self.old.channels) } }
    {
        for layers in self.channels.iter_mut() {
            layers.clear();
        }
        self.begun = true;
    }

    /// Returns whether the tick has begun.
    pub(crate) fn has_begun(&self) -> bool
        ensures { result ≡ is_some self.now.shown }
    {
        self.begun
    }

    /// Sets the picture of a place, instead of the one that it showed. If the tick has not begun, it begins. The place is
    /// one of a channel of the tick, and afterwards at most 64 places of this channel show something.
    pub(crate) fn show(&mut self, place: Place, picture: (Spec, u32))
        requires channel { place.channel ≤ self.old.channels }
        requires few { length (layers_of place.channel (with_picture place picture (shown_so_far self.old))) ≤ MAX_LIVE_LAYERS }
        ensures after { self.new
            ≡ record { channels = self.old.channels; shown = Some (with_picture place picture (shown_so_far self.old)) } }
        ensures whole { length (shown_so_far self.old) ≡ self.old.channels }
        ensures configured { IsConfigured self.old.channels place.channel }
    {
        if !self.begun {
            self.begin();
        }
        self.channels[channel_index(place.channel())].show(place.layer(), picture);
    }

    /// Returns the picture of a place: `None` exactly if the tick has not begun, or the place shows nothing at it.
    pub(crate) fn get(&self, place: Place) -> Option<(Spec, u32)>
        ensures { result ≡ option_and_then (λ tick. shown_at tick place) self.now.shown }
    {
        if !self.begun {
            return None;
        }
        let layers = self.channels.get(channel_index(place.channel()))?;
        layers.get(place.layer())
    }
}
