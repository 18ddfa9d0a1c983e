//! The display of a player's ticks.
ghost use Rattle.std.specs.Prelude.{◌≡◌, ◌≢◌, ◌++◌, ◌∷◌, ℕ, [], List};
ghost use Rattle.play_types.specs.declared.event.Event.{Event};
ghost use Rattle.play_types.specs.declared.event.Event.TheVariants.{Tick};
ghost use Rattle.play_outside.specs.Gathered.{Adds};
ghost use Rattle.play_outside.specs.Sink.{Sends};
ghost use Rattle.server_setup.specs.declared.setup.ServerSetup.{ServerSetup};
ghost use Rattle.script_player.specs.Display.{IsMadeAfter, IsNext, IsShowing, playout_of_tick};
ghost use Rattle.script_player.specs.Shown.{Replies, Shown, shown_tick};

use play_outside::{Sent, Sink};
use play_types::Scenes;
use server_setup::ServerSetup;
use stage_core::Stage;

/// A tick that was made.
#[derive(Clone, Copy)]
pub struct MadeTick<'a> {
    /// The configuration and the clips of the player.
    pub setup: &'a ServerSetup,
    /// Whether frames are written as digests.
    pub digests: bool,
    /// The stage, with the history up to and including this tick.
    pub stage: &'a Stage,
    /// The scene of each channel at this tick.
    pub scenes: &'a Scenes,
    /// Its number, from 1.
    pub number: u64,
}

/// Shows the ticks of a player: writes a text for each of them, or keeps what it needs of them itself.
///
/// The ticks come in order, without a gap. Their text may wait until [`Display::finish`] is called.
pub trait Display: Drop {
    /// How ticks are shown: the text of each tick, by the events before it.
    ghost shown: { Self → Shown };

    /// Holds if the last tick of these events on this setup is shown, or no tick if the events have none.
    ghost shows: { Self → ServerSetup → List Event → Type 0 };

    /// The text that was added and not yet written.
    ghost waiting: { Self → List ℕ };

    /// Adds the text of the next tick to the text that waits, and writes any part of that. After a failed write nothing more is written,
    /// and nothing waits.
    fn add_tick<K: Sink>(&mut self, tick: MadeTick<'_>, out: &mut K) -> Sent
        requires { IsNext (shows self.old) tick }
        ensures told { shown self.new ≡ shown self.old }
        ensures shows { (events : List Event) → IsMadeAfter events tick.entry → shows self.old tick.entry.setup.now events → shows self.new tick.entry.setup.now (events ++ Tick ∷ []) }
        ensures added { (events : List Event) → IsMadeAfter events tick.entry → shows self.old tick.entry.setup.now events
            → Adds result (waiting self.old ++ shown_tick (shown self.old) (playout_of_tick tick.entry) events) (waiting self.new) (K.state out.old) (K.state out.new) };

    /// Writes all text that waits. Nothing waits afterwards, even if a write failed.
    fn finish<K: Sink>(&mut self, out: &mut K) -> Sent
        requires { IsShowing (shows self.old) }
        ensures told { shown self.new ≡ shown self.old }
        ensures shows { (setup : ServerSetup) (events : List Event) → shows self.old setup events → shows self.new setup events }
        ensures sends { Sends result (waiting self.old) (K.state out.old) (K.state out.new) }
        ensures none_waits { waiting self.new ≡ [] };

    /// An event other than a tick changes nothing that is shown.
    ghost keeps: { (display : Self) (setup : ServerSetup) (events : List Event) (one : Event) → one ≢ Tick → shows display setup events
        → shows display setup (events ++ one ∷ []) };
}

/// Shows no ticks: only the replies of a script are written.
#[derive(Clone, Copy, Debug)]
pub struct Unshown;

impl Display for Unshown {
    ghost shown = { λ _. Replies };

    ghost shows = { λ _ _ _. Unit {0} };

    ghost waiting = { λ _. [] };

    fn add_tick<K: Sink>(&mut self, _tick: MadeTick<'_>, _out: &mut K) -> Sent {
        Sent::All
    }

    fn finish<K: Sink>(&mut self, _out: &mut K) -> Sent {
        Sent::All
    }

    ghost keeps = { λ _ _ _ _ _ _. tt };
}
