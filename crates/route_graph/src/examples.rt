//! Worked examples of the definitions in `specs/`, which the checker computes.
ghost use Rattle.std.specs.Prelude.{◌≡◌, ◌∷◌, [], Some, None};
ghost use Rattle.play_types.specs.declared.drawn.Still.TheVariants as still;
ghost use Rattle.play_types.specs.declared.take.Spec.TheVariants.{Clip, Colour, RouteChannel, RouteLayer};
ghost use Rattle.route_graph.specs.Routes.{after_show, next_tick};
ghost use Rattle.route_graph.specs.Shown.{shown_on, with_shown};
ghost use Rattle.route_graph.specs.Worked.{at, first, shows, then_shown};

/// A route to a place shows the clip or colour of the tick before, at its frame, and nothing at the first tick.
pub fn routes_to_places()
    ensures none { shows first (RouteLayer (at 1 5)) ≡ still.Nothing }
    ensures this_tick { shows (then_shown (at 1 5) (Clip 4) 7 first) (RouteLayer (at 1 5)) ≡ still.Nothing }
    ensures next_tick { shows (next_tick (then_shown (at 1 5) (Clip 4) 7 first)) (RouteLayer (at 1 5)) ≡ still.Frame 4 7 }
    ensures changed { shows (then_shown (at 1 5) (Colour 255) 0 (then_shown (at 1 5) (Clip 4) 7 first)) (RouteLayer (at 1 5))
        ≡ still.Frame 4 7 }
    ensures gone { shows (next_tick (next_tick (then_shown (at 1 5) (Clip 4) 7 first))) (RouteLayer (at 1 5)) ≡ still.Nothing }
    ensures other_layer { shows (next_tick (then_shown (at 1 5) (Clip 4) 7 first)) (RouteLayer (at 1 6)) ≡ still.Nothing }
    ensures other_channel { shows (next_tick (then_shown (at 1 5) (Clip 4) 7 first)) (RouteLayer (at 2 5)) ≡ still.Nothing }
    ensures a_route { shows (next_tick (then_shown (at 1 5) (RouteChannel 2) 0 first)) (RouteLayer (at 1 5)) ≡ still.Nothing }
    ensures twice { shows (next_tick (after_show (at 1 5) (Colour 255, 0) (then_shown (at 1 5) (Clip 4) 7 first))) (RouteLayer (at 1 5))
        ≡ still.Colour 255 }
{}

/// A route to a channel shows its frame of the tick before, and nothing at the first tick. A picture that is shown before any
/// tick has begun begins the first.
pub fn routes_to_channels()
    ensures none { shows first (RouteChannel 2) ≡ still.Nothing }
    ensures first { shows (next_tick first) (RouteChannel 2) ≡ still.Nothing }
    ensures second { shows (next_tick (next_tick first)) (RouteChannel 2) ≡ still.Channel 2 }
    ensures without_begin { shows (next_tick (after_show (at 1 0) (Colour 255, 0) first)) (RouteChannel 2) ≡ still.Channel 2 }
{}

/// A layer that shows something else keeps its place in the list, and a new one is added at the end.
pub fn layers_once()
    ensures new { with_shown 7 (Clip 1, 2) ((5, (Clip 0, 0)) ∷ []) ≡ (5, (Clip 0, 0)) ∷ (7, (Clip 1, 2)) ∷ [] }
    ensures again { with_shown 5 (Clip 1, 2) ((5, (Clip 0, 0)) ∷ (7, (Clip 0, 1)) ∷ []) ≡ (5, (Clip 1, 2)) ∷ (7, (Clip 0, 1)) ∷ [] }
    ensures shown { shown_on ((5, (Clip 0, 0)) ∷ (7, (Clip 0, 1)) ∷ []) 7 ≡ Some (Clip 0, 1) }
    ensures not_shown { shown_on ((5, (Clip 0, 0)) ∷ (7, (Clip 0, 1)) ∷ []) 6 ≡ None }
{}
