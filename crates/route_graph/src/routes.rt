//! A route table.
ghost use Rattle.std.specs.Prelude.{◌≡◌, ◌∷◌, ◌≤◌, [], List, Option, IfOk, option_map};
ghost use Rattle.play_types.specs.Place.{PlaceView};
ghost use Rattle.history_model.specs.stage.Life.{Foreground};
ghost use Rattle.history_model.specs.pictures.Source.{own_still, source};
ghost use Rattle.route_graph.specs.Past.{KeepsForegrounds, LeadsWithin, Represents, no_pictures, tick_before, with_show};
ghost use Rattle.route_graph.specs.Routes.{HasFewPlaces, after_show, next_tick, no_ticks, still_by};
ghost use Rattle.route_graph.specs.Shown.{Pictures, shown_at};

use crate::tick::ShownTick;
use play_types::{Place, Spec, Still};
use std::alloc::{AllocError, Global};
use std::marker::Model;
use std::mem;

/// What the places of channels showed at the tick before, and what they show at the tick that has begun.
///
/// A table represents the ticks so far, each with what every place showed at it, if it keeps the last two of them. A new
/// table represents no ticks. [`Routes::begin_tick`] adds a tick at which nothing is shown, and [`Routes::show`] adds to the
/// last one. How long a call takes does not depend on the number of ticks.
#[derive(Debug, Drop)]
pub struct Routes {
    past: ShownTick,
    present: ShownTick,
}

impl Model for Routes {
    ghost use Rattle.std.specs.Prelude.{◌≡◌};
    ghost use Rattle.route_graph.specs.Routes.{RoutesView};

    ghost Value = { RoutesView };

    ghost view = { λ r. record { channels = r.present.channels; past = r.past.shown; present = r.present.shown } };

    ghost invariant = { λ r. r.past.channels ≡ r.present.channels };
}

impl Routes {
    /// Creates a table before the first tick, for the channels from 1 to `channels`, with memory for 64 places of each
    /// channel at each of two ticks.
    pub fn new(alloc: Global, channels: u8) -> Result<Routes, AllocError>
        ensures value { IfOk result (λ routes. routes ≡ no_ticks channels) }
        ensures past { IfOk result (λ routes. Represents routes []) }
    {
        Ok(Routes {
            past: ShownTick::new(alloc, channels)?,
            present: ShownTick::new(alloc, channels)?,
        })
    }

    /// Begins the next tick, at which nothing is shown yet. The tick that was the last one is the tick before.
    pub fn begin_tick(&mut self)
        ensures value { self.new ≡ next_tick self.old }
        ensures past { (ticks : List Pictures) → Represents self.old ticks → Represents self.new (no_pictures ∷ ticks) }
    {
        mem::swap(&mut self.past, &mut self.present);
        self.present.begin();
    }

    /// Notes that a place shows a producer at a frame at the tick that has begun. If it showed another at this tick, the
    /// last one counts. If no tick has begun, this begins the first.
    ///
    /// The channel of the place is at most `channels` of [`Routes::new`], and with this place at most 64 places of its
    /// channel show something at this tick.
    pub fn show(&mut self, place: Place, spec: Spec, frame: u32)
        requires channel { place.channel ≤ self.old.channels }
        requires few { HasFewPlaces place.channel (after_show place (spec, frame) self.old) }
        ensures value { self.new ≡ after_show place (spec, frame) self.old }
        ensures past { (ticks : List Pictures) → Represents self.old ticks
            → Represents self.new (with_show place (spec, frame) ticks) }
    {
        self.present.show(place, (spec, frame));
    }

    /// Returns the still that a producer shows at a frame, by what was shown at the tick before: a clip and a colour show
    /// themselves. A route to a channel shows the frame that the channel had, and a route to a place the clip or colour that
    /// was shown there. If nothing or a route was shown there, and if there was no tick before, a route shows nothing.
    pub fn still(&self, spec: Spec, frame: u32) -> Still
        ensures value { result ≡ still_by (option_map shown_at self.now.past) spec frame }
        ensures past { (ticks : List Pictures) → Represents self.now ticks → LeadsWithin self.now.channels spec
            → result ≡ still_by (tick_before ticks) spec frame }
        ensures source { (foregrounds : Option (PlaceView → Option Foreground))
            → KeepsForegrounds self.now.channels self.now.past foregrounds → LeadsWithin self.now.channels spec
            → result ≡ source foregrounds spec frame }
    {
        match spec {
            Spec::Clip(id) => Still::Frame(id, frame),
            Spec::Colour(value) => Still::Colour(value),
            Spec::RouteChannel(channel) => {
                if self.past.has_begun() {
                    Still::Channel(channel)
                } else {
                    Still::Nothing
                }
            }
            Spec::RouteLayer(place) => match self.past.get(place) {
                Some((spec, frame)) => own_still(spec, frame),
                None => Still::Nothing,
            },
        }
    }
}

/// Returns the still of a clip at a frame, or of a colour. A route shows nothing.
fn own_still(spec: Spec, frame: u32) -> Still
    ensures { result ≡ own_still spec frame }
{
    match spec {
        Spec::Clip(id) => Still::Frame(id, frame),
        Spec::Colour(value) => Still::Colour(value),
        Spec::RouteChannel(_) | Spec::RouteLayer(_) => Still::Nothing,
    }
}
