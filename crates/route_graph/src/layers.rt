//! What the layers of a channel show at a tick.
ghost use Rattle.std.specs.Prelude.{◌≡◌, ◌==◌, ◌≤◌, [], length, IfOk, position};
ghost use Rattle.play_types.specs.declared.place.TheConstants.{MAX_LIVE_LAYERS};
ghost use Rattle.route_graph.specs.Shown.{shown_on, with_shown};

use play_types::{MAX_LIVE_LAYERS, Spec};
use std::alloc::{AllocError, Global};
use std::marker::Model;

/// The layers of a channel that show something at a tick, each once, with its producer and the frame of it. There is room
/// for 64.
#[derive(Debug, Drop)]
pub(crate) struct LayerList {
    layers: Vec<(u16, (Spec, u32))>,
}

impl Model for LayerList {
    ghost use Rattle.std.specs.Prelude.{◌≡◌};
    ghost use Rattle.std.specs.Vec.{vec_capacity};
    ghost use Rattle.play_types.specs.declared.place.TheConstants.{MAX_LIVE_LAYERS};
    ghost use Rattle.route_graph.specs.Shown.{ShownLayers};

    ghost Value = { ShownLayers };

    ghost view = { λ l. l.layers.items };

    ghost invariant = { λ l. vec_capacity l.layers ≡ MAX_LIVE_LAYERS };
}

impl LayerList {
    /// Returns a list without layers, with memory for 64.
    pub(crate) fn new(alloc: Global) -> Result<LayerList, AllocError>
        ensures { IfOk result (λ layers. layers ≡ []) }
    {
        Ok(LayerList {
            layers: Vec::with_capacity(alloc, MAX_LIVE_LAYERS)?,
        })
    }

    /// Removes all layers.
    pub(crate) fn clear(&mut self)
        ensures { self.new ≡ [] }
    {
        self.layers.clear();
    }

    /// Sets the picture of a layer, in place of the one that it showed. There are at most 64 layers afterwards.
    pub(crate) fn show(&mut self, layer: u16, picture: (Spec, u32))
        requires { length (with_shown layer picture self.old) ≤ MAX_LIVE_LAYERS }
        ensures { self.new ≡ with_shown layer picture self.old }
    {
        match self.find(layer) {
            Some(at) => self.layers[at] = (layer, picture),
            None => self.layers.push_reserved((layer, picture)),
        }
    }

    /// Returns the position of a layer in the list, `None` exactly if it shows nothing.
    fn find(&self, layer: u16) -> Option<usize>
        ensures { result ≡ position (λ shown. shown.0 == layer) self.now }
    {
        self.layers.iter().position(|shown| shown.0 == layer)
    }

    /// Returns the picture of a layer, `None` exactly if it shows nothing.
    pub(crate) fn get(&self, layer: u16) -> Option<(Spec, u32)>
        ensures { result ≡ shown_on self.now layer }
    {
        let shown = self.layers.iter().find(|shown| shown.0 == layer)?;
        Some(shown.1)
    }
}
