//! Where a layer is.
ghost use Rattle.std.specs.Prelude.{◌≡◌, ◌-◌, ◌≤◌, ◌↔◌, IsSome, IfSome};
ghost use Rattle.play_types.specs.Place.{IsPlace};

use std::marker::Model;

/// The most channels of a server. Channels count from 1.
pub const MAX_CHANNELS: usize = 16;

/// The last layer of a channel. Layers count from 0.
pub const MAX_LAYER: u16 = 9_999;

/// The most layers of a channel that are live.
pub const MAX_LIVE_LAYERS: usize = 64;

/// Returns the index of a channel in a list with one item for each channel, channel 1 first.
pub fn channel_index(channel: u8) -> usize
    requires { 1 ≤ channel }
    ensures { result ≡ channel - 1 }
{
    usize::from(channel) - 1
}

/// A layer of a channel. Channels count from 1 to 16, layers from 0 to 9999.
#[derive(Clone, Copy, Debug, PartialEq, Eq)]
pub struct Place {
    channel: u8,
    layer: u16,
}

impl Model for Place {
    ghost use Rattle.play_types.specs.Place.{PlaceView, IsPlace};

    ghost Value = { PlaceView };

    ghost view = { λ p. record { channel = p.channel; layer = p.layer } };

    ghost invariant = { λ p. IsPlace p.channel p.layer };

    ghost inverse = { λ v. record { channel = v.channel; layer = v.layer } };
}

impl Place {
    /// Creates a place. It returns `None` exactly if the channel is not 1 to 16 or the layer is above 9999.
    pub fn new(channel: u8, layer: u16) -> Option<Place>
        ensures exact { IsSome result ↔ IsPlace channel layer }
        ensures value { IfSome result (λ p. p ≡ record { channel = channel; layer = layer }) }
    {
        if channel >= 1 && usize::from(channel) <= MAX_CHANNELS && layer <= MAX_LAYER {
            Some(Place { channel, layer })
        } else {
            None
        }
    }

    /// Returns the channel, 1 to 16.
    pub fn channel(self) -> u8
        ensures value { result ≡ self.channel }
        ensures range { IsPlace self.channel self.layer }
    {
        self.channel
    }

    /// Returns the layer, 0 to 9999.
    pub fn layer(self) -> u16
        ensures value { result ≡ self.layer }
        ensures range { IsPlace self.channel self.layer }
    {
        self.layer
    }
}
