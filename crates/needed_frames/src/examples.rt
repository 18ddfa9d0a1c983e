//! Worked histories. The checker computes how deep their channels are, and what is shown if frames are made from a tick on.
#![tactic(auto, unfolding(crate::specs::Depth::depth, crate::specs::Depth::last_depth, crate::specs::Made::pixel_from))]

ghost use Rattle.std.specs.Prelude.{◌≡◌, ◌∷◌, ◌++◌, [], pos};
ghost use Rattle.play_types.specs.declared.event.Event.TheVariants.{Tick};
ghost use Rattle.play_types.specs.declared.setting.Prop.TheVariants.{Opacity};
ghost use Rattle.play_types.specs.declared.transition.Kind.TheVariants.{Mix};
ghost use Rattle.pixel_math.specs.Pixel.{pixel_bytes};
ghost use Rattle.history_model.specs.Worked.{at, by, layer_route, number, plays, red, rightward, route, sets, three, ticking};
ghost use Rattle.needed_frames.specs.Depth.{depth, greatest_depth};
ghost use Rattle.needed_frames.specs.Made.{pixel_from};
ghost use Rattle.needed_frames.specs.Worked.{mirror, relay};

/// A channel that shows no channel needs no frame but its own, whatever other channels show. A route to a layer shows no frame.
pub fn no_route()
    ensures colour { depth (plays (at 1 0) red ∷ plays (at 2 0) (route 1) ∷ ticking 3) 1 ≡ 0 }
    ensures layer { depth (plays (at 1 0) red ∷ plays (at 2 0) (layer_route 1 0) ∷ ticking 3) 2 ≡ 0 }
{}

/// A channel that shows another needs the tick before. At the first tick no route shows a channel.
pub fn route_to_a_channel()
    ensures first { depth (plays (at 2 0) (route 1) ∷ []) 2 ≡ 0 }
    ensures later { depth (plays (at 2 0) (route 1) ∷ ticking 3) 2 ≡ 1 }
{}

/// A chain of routes needs a tick for each.
pub fn route_to_a_route()
    ensures { depth (relay ++ ticking 3) 3 ≡ 2 }
{}

/// A channel that shows itself needs all ticks since its route began, and the one before.
pub fn channel_that_shows_itself()
    ensures first { depth (mirror ++ ticking 4) 1 ≡ 4 }
    ensures later { depth (ticking 2 ++ mirror ++ ticking 2) 1 ≡ 3 }
{}

/// A transition away from a route needs the tick before while it runs, and none once it is over.
pub fn transition_from_a_route()
    ensures running { depth (plays (at 2 0) (route 1) ∷ Tick ∷ plays (at 2 0) (by red (rightward Mix 2)) ∷ []) 2 ≡ 1 }
    ensures over { depth (plays (at 2 0) (route 1) ∷ Tick ∷ plays (at 2 0) (by red (rightward Mix 2)) ∷ Tick ∷ []) 2 ≡ 0 }
{}

/// A route whose opacity is 0 is drawn, and may be heard: it needs the tick before.
pub fn route_without_opacity()
    ensures { depth (plays (at 2 0) (route 1) ∷ sets (at 2 0) Opacity (number (pos 0)) ∷ ticking 2) 2 ≡ 1 }
{}

/// The greatest depth is that of the deepest of the first channels, at the last tick. It is 0 before the first tick.
pub fn deepest_channel()
    ensures all { greatest_depth 3 (relay ++ ticking 3) ≡ 2 }
    ensures first_two { greatest_depth 2 (relay ++ ticking 3) ≡ 1 }
    ensures none { greatest_depth 3 relay ≡ 0 }
{}

/// At the fourth tick of a chain of three channels the last one shows the red of the first, if frames are made from the second tick
/// on. If they are made from the third tick on, it shows a frame that was not made.
pub fn made_from_a_tick()
    ensures early { pixel_bytes (pixel_from three 1 (relay ++ ticking 3) 3 0 0) ≡ 0 ∷ 0 ∷ 255 ∷ 255 ∷ [] }
    ensures late { pixel_bytes (pixel_from three 2 (relay ++ ticking 3) 3 0 0) ≡ 0 ∷ 0 ∷ 0 ∷ 0 ∷ [] }
{}
