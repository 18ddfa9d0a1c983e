//! Where links come from.
ghost use Rattle.std.specs.Prelude.{◌≡◌, ◌<◌};
ghost use Rattle.play_outside.specs.ListenerState.{ListenerState, after_give_back};
ghost use Rattle.play_outside.specs.Listener.{IfCame, Arrives};
ghost use Rattle.play_outside.specs.Fresh.{IsNewSink};

use super::Link;

/// The most links of a listener that may be out: that came and were not given back.
pub const MOST_AWAY: u32 = 4_294_967_295;

/// What a listener answered.
#[derive(Debug, Drop)]
pub enum Arrival<L> {
    /// A link came.
    Came(L),
    /// No link has come yet.
    Again,
    /// No more links come.
    Closed,
    /// The device failed, and gave no link.
    Failed,
}

/// A source of links, which are given back to it after use.
pub trait Listener: Send + Drop {
    /// The links that come.
    type Line: Link;

    /// The links that were given back and whether the listener has answered `Closed`, if it exposes this; how many
    /// links are out; how often there was no link yet; the number of faults; and the mark, which no call changes.
    ghost state: { Self → ListenerState Self.Line };

    /// Looks for a link. If none has come yet, the idle count rises by one; a failed call raises the count of faults by
    /// one. A link that came has taken nothing, given nothing and not failed.
    fn next(&mut self) -> Arrival<Self::Line>
        requires { (state self.old).away < MOST_AWAY }
        ensures arrives { Arrives result (state self.old) (state self.new) }
        ensures fresh { IfCame result (λ line. IsNewSink (Self.Line.state line)) };

    /// Takes a link back.
    fn give_back(&mut self, line: Self::Line)
        requires { 0 < (state self.old).away }
        ensures { state self.new ≡ after_give_back (state self.old) line };
}
