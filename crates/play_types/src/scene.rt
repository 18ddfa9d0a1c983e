//! What all channels show at a tick.
ghost use Rattle.std.specs.Prelude.{◌≡◌, ◌<◌, ◌≤◌, [], ◌∷◌, ◌++◌, length, replicate, IfOk};
ghost use Rattle.play_types.specs.Scene.{AreScenes, IsConfigured, IsDrawn, IsScene, NamesConfigured, scene_at, with_layer};
ghost use Rattle.play_types.specs.declared.place.TheConstants.{MAX_LIVE_LAYERS};

use crate::config::Config;
use crate::drawn::Drawn;
use crate::place::{MAX_LIVE_LAYERS, channel_index};
use std::alloc::{AllocError, Global};
use std::marker::Model;

/// The drawn layers of a channel, at most 64, the lowest first.
#[derive(Debug, Drop)]
pub struct Scene {
    // Its capacity is `MAX_LIVE_LAYERS`.
    layers: Vec<Drawn>,
}

impl Model for Scene {
    ghost use Rattle.std.specs.Prelude.{◌≡◌, List};
    ghost use Rattle.std.specs.Vec.{vec_capacity};
    ghost use Rattle.play_types.specs.Scene.{IsScene};
    ghost use Rattle.play_types.specs.declared.drawn.Drawn.{Drawn};
    ghost use Rattle.play_types.specs.declared.place.TheConstants.{MAX_LIVE_LAYERS};

    ghost Value = { List Drawn };

    ghost view = { λ s. s.layers.items };

    ghost invariant = { λ s. IsScene s.layers.items × (vec_capacity s.layers ≡ MAX_LIVE_LAYERS) };
}

impl Scene {
    /// Creates a scene without layers, with room for `MAX_LIVE_LAYERS` of them.
    fn new(alloc: Global) -> Result<Scene, AllocError>
        ensures { IfOk result (λ scene. scene ≡ []) }
    {
        Ok(Scene {
            layers: Vec::with_capacity(alloc, MAX_LIVE_LAYERS)?,
        })
    }

    /// Returns the layers, the lowest first.
    pub fn drawn(&self) -> &[Drawn]
        ensures value { result.now ≡ self.now }
        ensures range { IsScene self.now }
    {
        self.layers.as_slice()
    }

    /// Removes all layers.
    fn clear(&mut self)
        ensures { self.new ≡ [] }
    {
        self.layers.clear();
    }

    /// Adds a layer above the others.
    fn push(&mut self, drawn: Drawn)
        requires room { length self.old < MAX_LIVE_LAYERS }
        requires range { IsDrawn drawn }
        ensures { self.new ≡ self.old ++ drawn ∷ [] }
    {
        self.layers.push_reserved(drawn);
    }
}

/// A [`Scene`] for each channel of a configuration. They fit every configuration with this number of channels. Only
/// [`Scenes::new`] allocates.
#[derive(Debug, Drop)]
pub struct Scenes {
    scenes: Vec<Scene>,
}

impl Model for Scenes {
    ghost use Rattle.std.specs.Prelude.{List};
    ghost use Rattle.play_types.specs.Scene.{AreScenes};
    ghost use Rattle.play_types.specs.declared.drawn.Drawn.{Drawn};

    ghost Value = { List (List Drawn) };

    ghost view = { λ s. s.scenes.items };

    ghost invariant = { λ s. AreScenes s.scenes.items };
}

impl Scenes {
    /// Creates a scene without layers for each channel of `config`, with room for `MAX_LIVE_LAYERS` layers each.
    pub fn new(alloc: Global, config: &Config) -> Result<Scenes, AllocError>
        ensures { IfOk result (λ scenes. scenes ≡ replicate (length config.now.channels) []) }
    {
        let channels = config.channels().len();
        let mut scenes = Vec::with_capacity(alloc, channels)?;
        for _channel in 0..channels {
            scenes.push(Scene::new(alloc)?)?;
        }
        Ok(Scenes { scenes })
    }

    /// Removes all layers of all channels.
    pub fn clear(&mut self)
        ensures { self.new ≡ replicate (length self.old) [] }
    {
        for scene in self.scenes.iter_mut() {
            scene.clear();
        }
    }

    /// Adds a layer above the others of a channel. The channel and those whose frames the layer shows are configured, the
    /// channel has fewer than 64 layers, the mixer values are in their ranges, and the step is above 0 or the transition
    /// takes no time.
    pub fn push(&mut self, channel: u8, drawn: Drawn)
        requires channel { IsConfigured (length self.old) channel }
        requires room { length (scene_at channel self.old) < MAX_LIVE_LAYERS }
        requires range { IsDrawn drawn }
        requires names { NamesConfigured (length self.old) drawn }
        ensures { self.new ≡ with_layer channel drawn self.old }
    {
        self.scenes[channel_index(channel)].push(drawn);
    }

    /// Returns the scene of a channel, which is configured.
    pub fn scene(&self, channel: u8) -> &Scene
        requires { IsConfigured (length self.now) channel }
        ensures value { result.now ≡ scene_at channel self.now }
        ensures range { AreScenes self.now }
    {
        &self.scenes[channel_index(channel)]
    }

    /// Returns the number of channels, 1 to 16.
    pub fn channels(&self) -> u8
        ensures value { result ≡ length self.now }
        ensures range { AreScenes self.now }
    {
        self.scenes.len() as u8
    }
}
