//! What a place holds.
ghost use Rattle.std.specs.Prelude.{◌≡◌, ◌<◌, ◌↔◌, ◌+◌, ℕ, List, [], IsTrue, Some, option_map};
ghost use Rattle.std.specs.Option.{ForSome};
ghost use Rattle.play_types.specs.Place.{PlaceView};
ghost use Rattle.play_types.specs.declared.command.Cmd.TheVariants.{ClearChannel, ClearLayer, Load, LoadBg, Pause, Play, Resume, StopLayer};
ghost use Rattle.play_types.specs.declared.event.TheConstants.{MAX_TICKS};
ghost use Rattle.history_model.specs.stage.Act.{Act};
ghost use Rattle.history_model.specs.stage.Life.{after, delay, effect, empty_place, ready, run_for, start, with_pause};
ghost use Rattle.layer_state.specs.Past.{Represents, TakesCommand};
ghost use Rattle.layer_state.specs.Shown.{front_of, shown_of};

use crate::foreground::Foreground;
use crate::front::Front;
use crate::shown::Shown;
use play_types::Take;
use std::marker::Model;

/// What a place holds: a foreground and a background, if there are any.
///
/// A layer represents a past, which is the acts on its place and the ticks since the history began, if it is what they
/// have made of the place. A new layer represents the empty past. Each command keeps, for every past that the layer
/// represented, that it represents that past with the command at its end, and a tick adds one tick.
#[derive(Clone, Copy, Debug, PartialEq, Eq)]
pub struct Layer {
    foreground: Option<Foreground>,
    background: Option<Take>,
}

impl Model for Layer {
    ghost use Rattle.history_model.specs.stage.Life.{Life};

    ghost Value = { Life };

    ghost view = { λ l. record { foreground = l.foreground; background = l.background } };

    ghost inverse = { λ v. record { foreground = v.foreground; background = v.background } };
}

impl Layer {
    /// Returns a layer that holds nothing.
    pub fn new() -> Layer
        ensures value { result ≡ empty_place }
        ensures past { (ticks : ℕ) → Represents result [] ticks }
    {
        Layer {
            foreground: None,
            background: None,
        }
    }

    /// Returns the foreground without the content that it replaces, `None` exactly if there is no foreground.
    pub fn front(&self) -> Option<Front>
        ensures { result ≡ option_map front_of self.now.foreground }
    {
        self.foreground.map(|foreground| foreground.front())
    }

    /// Returns the background, `None` exactly if there is none.
    pub fn back(&self) -> Option<Take>
        ensures { result ≡ self.now.background }
    {
        self.background
    }

    /// Shows the first picture of a take, paused, and drops the background. The take is kept with a cut and without
    /// `auto`.
    pub fn load(&mut self, take: Take)
        ensures effect { (place : PlaceView) → self.new ≡ effect (Load place take) self.old }
        ensures past { (place : PlaceView) → TakesCommand (Load place take) self.old self.new }
    {
        self.foreground = Some(Foreground::first_picture(take));
        self.background = None;
    }

    /// Puts a take into the background, in place of the one that is there.
    pub fn load_bg(&mut self, take: Take)
        ensures effect { (place : PlaceView) → self.new ≡ effect (LoadBg place take) self.old }
        ensures past { (place : PlaceView) → TakesCommand (LoadBg place take) self.old self.new }
    {
        self.background = Some(take);
    }

    /// Starts the background. Without one it unpauses the foreground, and with neither it does nothing.
    pub fn play(&mut self)
        ensures effect { (place : PlaceView) → self.new ≡ effect (Play place) self.old }
        ensures past { (place : PlaceView) → TakesCommand (Play place) self.old self.new }
    {
        match self.background {
            Some(_) => self.start(),
            None => self.set_paused(false),
        }
    }

    /// Pauses the foreground. Without one it does nothing.
    pub fn pause(&mut self)
        ensures effect { (place : PlaceView) → self.new ≡ effect (Pause place) self.old }
        ensures past { (place : PlaceView) → TakesCommand (Pause place) self.old self.new }
    {
        self.set_paused(true);
    }

    /// Unpauses the foreground. Without one it does nothing.
    pub fn resume(&mut self)
        ensures effect { (place : PlaceView) → self.new ≡ effect (Resume place) self.old }
        ensures past { (place : PlaceView) → TakesCommand (Resume place) self.old self.new }
    {
        self.set_paused(false);
    }

    /// Removes the foreground. The background stays.
    pub fn stop(&mut self)
        ensures effect { (place : PlaceView) → self.new ≡ effect (StopLayer place) self.old }
        ensures past { (place : PlaceView) → TakesCommand (StopLayer place) self.old self.new }
    {
        self.foreground = None;
    }

    /// Removes the foreground and the background, as a CLEAR of the layer or of its channel does.
    pub fn clear(&mut self)
        ensures effect { (place : PlaceView) → self.new ≡ effect (ClearLayer place) self.old }
        ensures channel { (channel : ℕ) → self.new ≡ effect (ClearChannel channel) self.old }
        ensures past { (place : PlaceView) → TakesCommand (ClearLayer place) self.old self.new }
        ensures channel_past { (channel : ℕ) → TakesCommand (ClearChannel channel) self.old self.new }
    {
        *self = Layer::new();
    }

    /// Advances the layer by one tick, and returns what it shows at that tick: starts a background whose start is due, then takes
    /// the picture, and then counts one more shown tick of a foreground that is not paused.
    pub fn tick(&mut self) -> Shown
        requires { ForSome self.old.foreground (λ foreground. foreground.shown < MAX_TICKS) }
        ensures shown { result ≡ shown_of (ready self.old).foreground }
        ensures after { self.new ≡ after self.old 1 }
        ensures past { (acts : List Act) (ticks : ℕ) → Represents self.old acts ticks
            → Represents self.new acts (ticks + 1) }
    {
        self.make_ready();
        let shown = self.shown();
        self.run();
        shown
    }

    /// Starts the background if it starts by itself at the next tick.
    fn make_ready(&mut self)
        ensures ready { self.new ≡ ready self.old }
        ensures room { ForSome self.old.foreground (λ foreground. foreground.shown < MAX_TICKS)
            → ForSome self.new.foreground (λ foreground. foreground.shown < MAX_TICKS) }
    {
        if self.is_start_due() {
            self.start();
        }
    }

    /// Makes the background the foreground, if there is one.
    fn start(&mut self)
        ensures { self.new ≡ start self.old }
    {
        if let Some(take) = self.background.take() {
            self.foreground = Some(Foreground::start(take, self.foreground));
        }
    }

    /// Pauses or unpauses the foreground, if there is one.
    fn set_paused(&mut self, paused: bool)
        ensures { self.new ≡ with_pause paused self.old }
    {
        self.foreground = self
            .foreground
            .map(|foreground| foreground.with_paused(paused));
    }

    /// Returns whether the background starts by itself at the next tick.
    fn is_start_due(&self) -> bool
        ensures { IsTrue result ↔ (delay self.now ≡ Some 0) }
    {
        match (self.background, self.foreground) {
            (Some(take), Some(foreground)) => take.auto() && foreground.gives_way_to(take),
            (Some(take), None) => take.auto(),
            (None, _) => false,
        }
    }

    /// Returns what the layer shows in its present state.
    fn shown(&self) -> Shown
        ensures { result ≡ shown_of self.now.foreground }
    {
        match self.foreground {
            Some(foreground) => foreground.shown(),
            None => Shown::nothing(),
        }
    }

    /// Advances the layer by one tick without an automatic start.
    fn run(&mut self)
        requires { ForSome self.old.foreground (λ foreground. foreground.shown < MAX_TICKS) }
        ensures { self.new ≡ run_for 1 self.old }
    {
        self.foreground = self.foreground.map(|foreground| foreground.after_tick());
    }
}
