//! Routes, swaps of places, and what starts by itself.
#![tactic(auto, unfolding(crate::specs::stage::Acts::acts, crate::specs::pictures::Frame::frame_pixel))]

ghost use Rattle.std.specs.Prelude.{◌≡◌, ◌∷◌, ◌++◌, [], pos, true, false, codes, None};
ghost use Rattle.play_types.specs.declared.command.Cmd.TheVariants.{ClearLayer, Load, LoadBg, Pause, Play, Resume, SwapChannels, SwapLayers};
ghost use Rattle.play_types.specs.declared.drawn.Still.TheVariants.{Channel, Colour as OneColour, Frame, Nothing};
ghost use Rattle.play_types.specs.declared.event.Event.TheVariants.{Tick};
ghost use Rattle.play_types.specs.declared.setting.Prop.TheVariants.{Opacity};
ghost use Rattle.play_types.specs.declared.take.Spec.TheVariants.{Clip, Colour, RouteChannel, RouteLayer};
ghost use Rattle.play_types.specs.declared.transition.Kind.TheVariants.{Mix};
ghost use Rattle.history_model.specs.pictures.Source.{last_foregrounds, source};
ghost use Rattle.history_model.specs.Worked.{ask, at, automatic, blue, by, clip, number, one, plays, red, rightward, route, row_text, sets, layer_route, three, ticking};

/// What producers show: a clip and a colour themselves, routes nothing before the first tick, and then what was shown at the tick before.
pub fn sources()
    ensures clip { source None (Clip 4) 7 ≡ Frame 4 7 }
    ensures colour { source None (Colour 0xFFFF0000) 0 ≡ OneColour 0xFFFF0000 }
    ensures no_channel { source None (RouteChannel 2) 0 ≡ Nothing }
    ensures channel { source (last_foregrounds (Tick ∷ [])) (RouteChannel 2) 0 ≡ Channel 2 }
    ensures no_layer { source None (RouteLayer (at 1 0)) 0 ≡ Nothing }
    ensures layer { source (last_foregrounds (Tick ∷ Tick ∷ plays (at 1 0) (clip 1 3) ∷ [])) (RouteLayer (at 1 0)) 0 ≡ Frame 1 1 }
{}

/// A channel that shows itself on an upper layer is one tick behind, and holds a picture that is gone.
pub fn channel_route()
    ensures first { row_text (one 1) 1 (plays (at 1 1) (route 1) ∷ []) ≡ codes "00000000" }
    ensures below { row_text (one 1) 1 (plays (at 1 1) (route 1) ∷ Tick ∷ plays (at 1 0) red ∷ []) ≡ codes "0000ffff" }
    ensures held { let history = plays (at 1 1) (route 1) ∷ Tick ∷ plays (at 1 0) red ∷ Tick ∷ ask (ClearLayer (at 1 0)) ∷ [] in
        (row_text (one 1) 1 history ≡ codes "0000ffff") × (row_text (one 1) 1 (history ++ ticking 1) ≡ codes "0000ffff") }
{}

/// Another channel shows the frame of the tick before, and a route to that channel the one of two ticks before.
pub fn route_to_a_route()
    ensures { let history = plays (at 1 0) red ∷ plays (at 2 0) (route 1) ∷ plays (at 3 0) (route 2) ∷ [] in
        (row_text three 2 history ≡ codes "00000000")
        × (row_text three 2 (history ++ ticking 1) ≡ codes "0000ffff")
        × (row_text three 3 (history ++ ticking 1) ≡ codes "00000000")
        × (row_text three 3 (history ++ ticking 2) ≡ codes "0000ffff") }
{}

/// A layer route shows the clip or colour of its place at the tick before, without its transition and its mixer values.
pub fn layer_route_one_tick_behind()
    ensures colours { let history = plays (at 1 0) red ∷ plays (at 1 1) (layer_route 1 0) ∷ Tick ∷ plays (at 1 0) blue ∷ [] in
        (row_text (one 1) 1 history ≡ codes "0000ffff") × (row_text (one 1) 1 (history ++ ticking 1) ≡ codes "ff0000ff") }
    ensures bare { row_text three 2
        (plays (at 1 0) blue ∷ plays (at 1 0) (by red (rightward Mix 4)) ∷ sets (at 1 0) Opacity (number (pos 0))
        ∷ plays (at 2 0) (layer_route 1 0) ∷ Tick ∷ [])
        ≡ codes "0000ffff" }
    ensures clip { let history = plays (at 1 0) (clip 1 3) ∷ plays (at 2 0) (layer_route 1 0) ∷ [] in
        (row_text three 2 history ≡ codes "00000000")
        × (row_text three 2 (history ++ ticking 1) ≡ codes "000000ff")
        × (row_text three 2 (history ++ ticking 2) ≡ codes "000050ff") }
{}

/// A layer route to a place that holds a route, or nothing, shows nothing.
pub fn layer_route_to_a_route()
    ensures route { row_text three 2 (plays (at 1 0) red ∷ plays (at 1 1) (route 1) ∷ plays (at 2 0) (layer_route 1 1) ∷ ticking 3)
        ≡ codes "00000000" }
    ensures nothing { row_text three 2 (plays (at 2 0) (layer_route 1 1) ∷ ticking 3) ≡ codes "00000000" }
{}

/// A layer route shows a content that started by itself at the tick before.
pub fn layer_route_to_an_automatic_start()
    ensures { let history = plays (at 1 0) (clip 1 3) ∷ ask (LoadBg (at 1 0) (automatic blue)) ∷ plays (at 2 0) (layer_route 1 0) ∷ [] in
        (row_text three 2 (history ++ ticking 3) ≡ codes "0000a0ff")
        × (row_text three 2 (history ++ ticking 4) ≡ codes "ff0000ff") }
{}

/// A background that starts by itself: with a transition before the clip's end, with a cut after its last frame, and at
/// once if the clip is shorter than the transition.
pub fn automatic_start()
    ensures mix { let history = plays (at 1 0) (clip 1 3) ∷ ask (LoadBg (at 1 0) (automatic (by blue (rightward Mix 2)))) ∷ [] in
        (row_text (one 1) 1 history ≡ codes "000000ff")
        × (row_text (one 1) 1 (history ++ ticking 1) ≡ codes "800028ff")
        × (row_text (one 1) 1 (history ++ ticking 2) ≡ codes "ff0000ff")
        × (row_text (one 1) 1 (history ++ ticking 3) ≡ codes "ff0000ff") }
    ensures cut { let history = plays (at 1 0) (clip 1 3) ∷ ask (LoadBg (at 1 0) (automatic blue)) ∷ [] in
        (row_text (one 1) 1 (history ++ ticking 2) ≡ codes "0000a0ff")
        × (row_text (one 1) 1 (history ++ ticking 3) ≡ codes "ff0000ff") }
    ensures short { row_text (one 4) 1 (plays (at 1 0) (clip 0 1) ∷ ask (LoadBg (at 1 0) (automatic (by blue (rightward Mix 5)))) ∷ [])
        ≡ codes "330008ff330010ff330018ff330020ff" }
{}

/// A paused layer shows the picture that its next playing tick shows, and does not start its background by itself.
pub fn paused_layer()
    ensures pictures { let history = ask (Load (at 1 0) (clip 1 3)) ∷ [] in
        (row_text (one 1) 1 history ≡ codes "000000ff")
        × (row_text (one 1) 1 (history ++ ticking 1) ≡ codes "000000ff")
        × (row_text (one 1) 1 (history ++ ticking 2 ++ ask (Resume (at 1 0)) ∷ []) ≡ codes "000000ff")
        × (row_text (one 1) 1 (history ++ ticking 2 ++ ask (Resume (at 1 0)) ∷ Tick ∷ []) ≡ codes "000050ff") }
    ensures waits { row_text (one 1) 1
        (plays (at 1 0) (clip 1 3) ∷ ask (Pause (at 1 0)) ∷ ask (LoadBg (at 1 0) (automatic blue)) ∷ ticking 9)
        ≡ codes "000000ff" }
{}

/// A swap of channels exchanges the contents of all layers, and the mixer values only with transforms.
pub fn swap_of_channels()
    ensures contents { let history = plays (at 1 3) red ∷ plays (at 2 3) blue ∷ sets (at 1 3) Opacity (number (pos 500000)) ∷ ask (SwapChannels 1 2 false) ∷ [] in
        (row_text three 1 history ≡ codes "80000080") × (row_text three 2 history ≡ codes "0000ffff") }
    ensures transforms { let history = plays (at 1 3) red ∷ plays (at 2 3) blue ∷ sets (at 1 3) Opacity (number (pos 500000)) ∷ ask (SwapChannels 1 2 true) ∷ [] in
        (row_text three 1 history ≡ codes "ff0000ff") × (row_text three 2 history ≡ codes "00008080") }
{}

/// A content that was moved by a swap plays on in its new place.
pub fn swap_of_layers()
    ensures moved { row_text three 2
        (plays (at 1 1) (clip 1 3) ∷ Tick ∷ ask (SwapLayers (at 1 1) (at 2 9) false) ∷ [])
        ≡ codes "000050ff" }
    ensures left { row_text three 1
        (plays (at 1 1) (clip 1 3) ∷ Tick ∷ ask (SwapLayers (at 1 1) (at 2 9) false) ∷ [])
        ≡ codes "00000000" }
{}
