//! What is drawn of a place, and what routes show of it.
ghost use Rattle.std.specs.Prelude.{◌≡◌, ◌≤◌, ◌<◌, [], ◌∷◌, length};
ghost use Rattle.play_types.specs.Scene.{IsConfigured, scene_at};
ghost use Rattle.play_types.specs.declared.place.TheConstants.{MAX_LIVE_LAYERS};
ghost use Rattle.play_types.specs.Setting.{AreValues, number_at};
ghost use Rattle.history_model.specs.stage.Answer.{number_count};
ghost use Rattle.mixer_state.specs.Mixer.{values_of};
ghost use Rattle.stage_core.specs.inner.Drawn.{HasRoomFor, IsShown, drawn_shown, mixed_values, still_of, tick_past, with_drawn, with_picture_of};

use crate::easing::eased;
use layer_state::Shown;
use mixer_state::Mixer;
use play_types::{Drawn, MICROS_PER_UNIT, Place, Prop, Scenes, Spec, Still};
use route_graph::Routes;

/// Adds what a place shows at the tick `number` to the scene of its channel. A place that shows nothing adds nothing.
pub(crate) fn draw(
    place: Place,
    shown: &Shown,
    number: u64,
    mixer: &Mixer,
    routes: &Routes,
    scenes: &mut Scenes,
)
    requires channel { IsConfigured (length scenes.old) place.channel }
    requires shown { IsShown (length scenes.old) shown.now }
    requires room { length (scene_at place.channel scenes.old) < MAX_LIVE_LAYERS }
    requires mixer { IsConfigured mixer.now.channels place.channel }
    requires time { mixer.now.latest ≤ number }
    ensures { scenes.new ≡ with_drawn place.channel (drawn_shown (mixed_values mixer.now number place) (tick_past routes.now) shown.entry.now) scenes.old }
{
    if let Some((spec, frame)) = &shown.now {
        let (trans, step) = eased(shown.trans, shown.step);
        let drawn = Drawn {
            still: routes.still(*spec, *frame),
            old: still_of(shown.old, routes),
            trans,
            step,
            opacity: number_of(mixer, place, Prop::Opacity, number),
            fill: numbers_of(mixer, place, Prop::Fill, number),
            clip: numbers_of(mixer, place, Prop::Clip, number),
            volume: number_of(mixer, place, Prop::Volume, number),
            keyer: number_of(mixer, place, Prop::Keyer, number) == MICROS_PER_UNIT,
        };
        scenes.push(place.channel(), drawn);
    }
}

/// Notes the picture of a place for the routes of the next tick. A place that shows nothing is not noted.
pub(crate) fn note(place: Place, shown: &Shown, routes: &mut Routes)
    requires channel { place.channel ≤ routes.old.channels }
    requires few { HasRoomFor place routes.old }
    ensures { routes.new ≡ with_picture_of place shown.entry.now.now routes.old }
{
    if let Some((spec, frame)) = &shown.now {
        routes.show(place, *spec, *frame);
    }
}

/// Returns the still of a picture, by what was shown at the tick before. `Nothing` if there is no picture.
fn still_of(picture: Option<(Spec, u32)>, routes: &Routes) -> Still
    ensures { result ≡ still_of (tick_past routes.now) picture }
{
    match picture {
        Some((spec, frame)) => routes.still(spec, frame),
        None => Still::Nothing,
    }
}

/// Returns the value, a single number, of a property of a place at the tick `number`.
fn number_of(mixer: &Mixer, place: Place, prop: Prop, number: u64) -> i64
    requires one { number_count prop ≡ 1 }
    requires channel { IsConfigured mixer.now.channels place.channel }
    requires time { mixer.now.latest ≤ number }
    ensures value { result ≡ number_at (values_of mixer.now place prop number) 0 }
    ensures range { AreValues prop (result ∷ []) }
{
    mixer.value(place, prop, number).values()[0]
}

/// Returns the value, four numbers, of a property of a place at the tick `number`.
fn numbers_of(mixer: &Mixer, place: Place, prop: Prop, number: u64) -> [i64; 4]
    requires four { number_count prop ≡ 4 }
    requires channel { IsConfigured mixer.now.channels place.channel }
    requires time { mixer.now.latest ≤ number }
    ensures value { result ≡ values_of mixer.now place prop number }
    ensures range { AreValues prop result }
{
    mixer.value(place, prop, number).values()
}
