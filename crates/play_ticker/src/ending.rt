//! Why the ticks have ended.

use stage_core::TickFault;

/// Why no more ticks are made.
#[derive(Clone, Copy, Debug, PartialEq, Eq)]
pub enum TickEnd {
    /// The clock gives no more pulses.
    ClockClosed,
    /// At a pulse the history had a stop: `at` events come before it.
    Ended { at: u64 },
    /// At a pulse the history had the maximum number of ticks.
    TicksOver,
    /// The clock failed.
    ClockFault,
    /// The output of this channel failed.
    OutFault { channel: u8 },
}

impl From<TickFault> for TickEnd {
    ghost use Rattle.std.specs.Prelude.{◌≡◌};
    ghost use Rattle.play_ticker.specs.Ends.{end_of};

    ghost from_gives = { λ fault result. result ≡ end_of fault };

    fn from(fault: TickFault) -> TickEnd {
        match fault {
            TickFault::Ended { at } => TickEnd::Ended { at },
            TickFault::TicksOver => TickEnd::TicksOver,
        }
    }
}
