//! The clock that gives the pulses of a server.
ghost use Rattle.std.specs.Prelude.{◌≡◌};
ghost use Rattle.play_outside.specs.ClockState.{ClockState};
ghost use Rattle.play_outside.specs.Clock.{Beats};

/// What a clock answered.
#[derive(Clone, Copy, Debug, PartialEq, Eq)]
pub enum Beat {
    /// It is time for one more tick.
    Pulse,
    /// No more pulses come.
    Closed,
    /// The device failed, and gave no pulse.
    Failed,
}

/// Pulses, one for each tick. A clock also receives the number of commands in the history, since it may be the only device of
/// the thread that makes ticks.
pub trait Clock: Send + Drop {
    /// How many pulses were given and whether the clock has answered `Closed`, if it exposes this, and the number of
    /// faults.
    ghost state: { Self → ClockState };

    /// Waits for the next pulse. A failed call raises the count of faults by one.
    fn next(&mut self) -> Beat
        ensures { Beats result (state self.old) (state self.new) };

    /// Receives the number of commands that the history holds. A clock may report it to an operator; its pulses and faults stay as
    /// they were.
    fn holds(&mut self, commands: u32)
        ensures { state self.new ≡ state self.old }
    {
        let _ = commands;
    }
}
