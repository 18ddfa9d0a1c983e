//! A clock that closes once a signal asks the process to end.
ghost use Rattle.std.specs.Prelude.{◌≡◌, ◌↔◌, ◌<◌, IsSome, None};
ghost use Rattle.play_outside.specs.Clock.{Beats};
ghost use Rattle.real_devices.specs.Fresh.{quiet_clock};

use crate::complaint::say_asked;
use crate::pace::millis;
use crate::rate_clock::RateClock;
use crate::signals::{EndSignal, Signals};
use play_outside::{Beat, Clock};
use std::fs::File;
use std::io::Eprint;
use std::rt::Files;
use std::thread;
use std::time::{self, Duration};

/// How many milliseconds there are from one look at the signals to the next.
const LOOK_MILLIS: u64 = 200;

/// The most looks at the signals during one wait for a pulse, which takes a second at most.
const MOST_LOOKS: u32 = 8;

/// Gives the pulses of a [`RateClock`], and closes when it sees that a signal asks the process to end: SIGTERM, SIGINT
/// or SIGHUP, if it was blocked when the process was started and is not ignored. It looks five times a second, and
/// reports the signal on standard error.
#[derive(Drop)]
pub struct SignalClock<R> {
    rt: R,
    clock: RateClock<R>,
    signals: Signals,
    /// The millisecond of the clock of the last look, or 0 before the first one.
    looked: u64,
    /// The signal that was seen, if one was.
    seen: Option<EndSignal>,
}

impl<R: Files<File = File> + time::Clock + Eprint + Copy + Drop> SignalClock<R> {
    ghost use Rattle.real_devices.specs.State.{signal_clock_state, signal_of};

    /// Returns a clock of `rate` pulses a second, beside a journal of at most `journal_limit` commands. No call of it
    /// was made yet, and it has seen no signal.
    pub fn new(rt: R, rate: u32, journal_limit: u32) -> SignalClock<R>
        requires { 0 < rate }
        ensures state { signal_clock_state result ≡ quiet_clock }
        ensures signal { signal_of result ≡ None }
    {
        SignalClock {
            rt,
            clock: RateClock::new(rt, rate, journal_limit),
            signals: Signals::new(&rt),
            looked: 0,
            seen: None,
        }
    }

    /// Returns the signals that it looks at.
    pub(crate) fn signals(&self) -> &Signals {
        &self.signals
    }

    /// Looks at the signals until the next pulse is due soon. Returns a signal as soon as one is pending.
    fn look(&mut self) -> Option<EndSignal>
        ensures { signal_clock_state self.new ≡ signal_clock_state self.old }
    {
        for _ in 0..MOST_LOOKS {
            let signal = self.look_if_due();
            if signal.is_some() {
                return signal;
            }
            if !self.pause() {
                return None;
            }
        }
        None
    }

    /// Sleeps until the next look, if no pulse is due by then. Returns whether it slept.
    fn pause(&mut self) -> bool
        ensures { signal_clock_state self.new ≡ signal_clock_state self.old }
    {
        let pause = Duration::from_millis(LOOK_MILLIS);
        match self.clock.left() {
            Some(left) if left > pause => {
                thread::sleep(&self.rt, pause);
                true
            }
            Some(_) | None => false,
        }
    }

    /// Looks at the signals, unless it did so a moment ago.
    fn look_if_due(&mut self) -> Option<EndSignal>
        ensures { signal_clock_state self.new ≡ signal_clock_state self.old }
    {
        let now = millis(&self.rt);
        if now.saturating_sub(self.looked) < LOOK_MILLIS {
            return None;
        }
        self.looked = now;
        self.signals.pending()
    }
}

impl<R: Files<File = File> + time::Clock + Eprint + Copy + Drop + Send> Clock for SignalClock<R> {
    ghost use Rattle.real_devices.specs.State.{signal_clock_state, signal_of};

    ghost state = { signal_clock_state };

    /// Sleeps until the next pulse is due. It returns `Closed` exactly if it has seen a signal.
    fn next(&mut self) -> Beat
        ensures beats { Beats result (signal_clock_state self.old) (signal_clock_state self.new) }
        ensures closes { result ≡ Beat.Closed ↔ IsSome (signal_of self.new) }
    {
        if self.seen.is_none() {
            self.seen = self.look();
        }
        match self.seen {
            Some(signal) => {
                say_asked(&self.rt, &signal);
                Beat::Closed
            }
            None => self.clock.next(),
        }
    }

    /// Reports that the journal holds nine tenths of its limit, or that it is full, each once at most.
    fn holds(&mut self, commands: u32)
        ensures { signal_clock_state self.new ≡ signal_clock_state self.old }
    {
        self.clock.holds(commands)
    }
}
