//! The depths of all channels.
ghost use Rattle.std.specs.Prelude.{◌≡◌, ◌+◌, ◌<◌, ◌≤◌, ◌++◌, ◌∷◌, [], ℕ, All, List, length};
ghost use Rattle.play_types.specs.History.{ticks};
ghost use Rattle.play_types.specs.Scene.{AreScenes, IsConfigured, NamesConfigured, ShowsConfigured};
ghost use Rattle.play_types.specs.declared.event.Event.{Event};
ghost use Rattle.play_types.specs.declared.event.Event.TheVariants.{Tick};
ghost use Rattle.play_types.specs.declared.event.TheConstants.{MAX_TICKS};
ghost use Rattle.play_types.specs.declared.place.TheConstants.{MAX_CHANNELS};
ghost use Rattle.band_render.specs.Histories.{scenes_after};
ghost use Rattle.needed_frames.specs.Counted.{HasDepths, depth_at};
ghost use Rattle.needed_frames.specs.Depth.{channel_of, depth_behind, greatest_depth, layer_channels, shown_channels};

use play_types::{Drawn, MAX_CHANNELS, Scene, Scenes, Still, channel_index};
use std::marker::Model;

/// The depth of each channel at the last tick: how many ticks back the frame of the channel needs frames, by the scenes of the ticks so
/// far. It is 0 if the channel needs no frame but its own.
#[derive(Clone, Copy, Debug)]
pub struct Depths {
    ticks: u64,
    // The depth of channel 1 comes first.
    depths: [u64; MAX_CHANNELS],
}

impl Model for Depths {
    ghost use Rattle.band_render.specs.Histories.{scenes_after};
    ghost use Rattle.needed_frames.specs.Counted.{AreDepths, DepthsView};

    ghost Value = { DepthsView };

    ghost view = { λ d. record { ticks = d.ticks; depths = d.depths } };

    ghost invariant = { λ d. AreDepths (record { ticks = d.ticks; depths = d.depths }) };

    ghost inverse = { λ v. record { ticks = v.ticks; depths = v.depths } };
}

impl Depths {
    /// Returns the depths before the first tick.
    pub fn new() -> Depths
        ensures ticks { result.ticks ≡ 0 }
        ensures depths { (channels : ℕ) → HasDepths channels [] result }
    {
        Depths {
            ticks: 0,
            depths: [0; MAX_CHANNELS],
        }
    }

    /// Takes the scenes of the next tick. Fewer than 281,474,976,710,656 ticks must have been taken before.
    ///
    /// If the depths were those after a history, and the scenes are those of the tick after it, the depths are then those after the
    /// history with that tick.
    pub fn tick(&mut self, scenes: &Scenes)
        requires { self.old.ticks < MAX_TICKS }
        ensures ticks { self.new.ticks ≡ self.old.ticks + 1 }
        ensures few { length scenes.now ≤ MAX_CHANNELS }
        ensures depths { (history : List Event) → HasDepths (length scenes.now) history self.old →
            scenes.now ≡ scenes_after history (length scenes.now) → HasDepths (length scenes.now) (history ++ Tick ∷ []) self.new }
    {
        let mut depths = [0; MAX_CHANNELS];
        for at in 0..scenes.channels() {
            depths[usize::from(at)] = self.behind_scene(scenes.scene(at + 1));
        }
        self.ticks += 1;
        self.depths = depths;
    }

    /// Returns the depth of a channel, 1 to `MAX_CHANNELS`, at the last tick.
    pub fn depth(&self, channel: u8) -> u64
        requires { IsConfigured MAX_CHANNELS channel }
        ensures value { result ≡ depth_at channel self.now }
        ensures within { result ≤ self.now.ticks }
    {
        self.depths[channel_index(channel)]
    }

    /// Returns the greatest depth of channels 1 to `channels`, at most `MAX_CHANNELS`, at the last tick.
    pub fn greatest(&self, channels: u8) -> u64
        requires { channels ≤ MAX_CHANNELS }
        ensures value { (history : List Event) → HasDepths channels history self.now → result ≡ greatest_depth channels history }
        ensures within { result ≤ self.now.ticks }
    {
        let mut greatest = 0;
        for before in 0..channels {
            greatest = self.depth(before + 1).max(greatest);
        }
        greatest
    }

    /// Returns the depth of a channel with this scene at the next tick.
    fn behind_scene(&self, scene: &Scene) -> u64
        requires names { All (NamesConfigured MAX_CHANNELS) scene.now }
        requires time { self.now.ticks < MAX_TICKS }
        ensures value { result ≡ depth_behind (λ channel. depth_at channel self.now) (shown_channels scene.now) }
        ensures within { result ≤ self.now.ticks + 1 }
    {
        let mut deepest = 0;
        for layer in scene.drawn() {
            deepest = self.behind_layer(layer).max(deepest);
        }
        deepest
    }

    /// Returns the depth of a channel at the next tick that shows this layer alone.
    fn behind_layer(&self, layer: &Drawn) -> u64
        requires names { NamesConfigured MAX_CHANNELS layer.now }
        requires time { self.now.ticks < MAX_TICKS }
        ensures value { result ≡ depth_behind (λ channel. depth_at channel self.now) (layer_channels layer.now) }
        ensures within { result ≤ self.now.ticks + 1 }
    {
        let new = self.behind_still(layer.still);
        if layer.step < layer.trans.duration() {
            self.behind_still(layer.old).max(new)
        } else {
            new
        }
    }

    /// Returns the depth of a channel at the next tick that shows this picture alone.
    fn behind_still(&self, still: Still) -> u64
        requires names { ShowsConfigured MAX_CHANNELS still }
        requires time { self.now.ticks < MAX_TICKS }
        ensures value { result ≡ depth_behind (λ channel. depth_at channel self.now) (channel_of still) }
        ensures within { result ≤ self.now.ticks + 1 }
    {
        match still {
            Still::Channel(channel) => self.depth(channel) + 1,
            Still::Nothing | Still::Colour(_) | Still::Frame(..) => 0,
        }
    }
}
