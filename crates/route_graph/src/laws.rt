//! Laws of the definitions in `specs/`, each the contract of a function that does nothing.
ghost use Rattle.std.specs.Prelude.{◌≡◌, ◌≢◌, ℕ, ◌∷◌, ◌++◌, [], List, Option, None, Some, option_map};
ghost use Rattle.play_types.specs.Place.{PlaceView};
ghost use Rattle.play_types.specs.declared.take.Spec.{Spec};
ghost use Rattle.history_model.specs.stage.Life.{Foreground};
ghost use Rattle.history_model.specs.pictures.Source.{source};
ghost use Rattle.route_graph.specs.Past.{KeepsForegrounds, LeadsWithin};
ghost use Rattle.route_graph.specs.Routes.{still_by};
ghost use Rattle.route_graph.specs.Shown.{Picture, ShownLayers, shown_at, shown_on, with_shown};

/// After `with_shown` the layer shows the picture, and the other layers show what they showed before. A layer that showed
/// nothing is added at the end of the list.
pub fn layers_after_a_show()
    ensures same { (layer : ℕ) (picture : Picture) (layers : ShownLayers) →
        shown_on (with_shown layer picture layers) layer ≡ Some picture }
    ensures other { (layer : ℕ) (picture : Picture) (layers : ShownLayers) (other : ℕ) → other ≢ layer →
        shown_on (with_shown layer picture layers) other ≡ shown_on layers other }
    ensures new { (layer : ℕ) (picture : Picture) (layers : ShownLayers) → shown_on layers layer ≡ None →
        with_shown layer picture layers ≡ layers ++ (layer, picture) ∷ [] }
{}

/// If a tick keeps what foregrounds showed on the channels, a producer that is no route to a layer of another channel shows
/// by that tick what it shows by the foregrounds.
pub fn sources_by_a_tick()
    ensures { (channels : ℕ) (tick : Option (List ShownLayers)) (foregrounds : Option (PlaceView → Option Foreground))
        (producer : Spec) (frame : ℕ) → KeepsForegrounds channels tick foregrounds → LeadsWithin channels producer
        → still_by (option_map shown_at tick) producer frame ≡ source foregrounds producer frame }
{}
