//! A clock that keeps to wall time.
ghost use Rattle.std.specs.Prelude.{◌≡◌, ◌≢◌, ◌<◌};
ghost use Rattle.play_outside.specs.Clock.{Beats};
ghost use Rattle.real_devices.specs.Fresh.{quiet_clock};

use crate::complaint::{complain, say_full, say_nearly_full, say_stall};
use crate::fill::{Fill, Level};
use crate::schedule::{ClockStep, Schedule};
use play_outside::{Beat, Clock};
use std::io::{self, Eprint, ErrorKind};
use std::thread;
use std::time::{self, Duration, Instant};

/// Gives `rate` pulses in each second of wall time, from its first call on, and never closes. It reports on standard
/// error why a call failed, how many pulses it passed over, and, once each, that the journal of the history holds nine
/// tenths of its limit and that it is full. Its state does not count the pulses.
#[derive(Drop)]
pub struct RateClock<R> {
    rt: R,
    rate: u32,
    /// When pulses are due, once a call was made.
    schedule: Option<Schedule>,
    fill: Fill,
    faults: u64,
    ghost some: { 0 < rate },
}

impl<R: time::Clock + Eprint + Drop> RateClock<R> {
    ghost use Rattle.real_devices.specs.State.{clock_state};

    /// Returns a clock of `rate` pulses a second, beside a journal of at most `journal_limit` commands. No call of it
    /// was made yet.
    pub fn new(rt: R, rate: u32, journal_limit: u32) -> RateClock<R>
        requires { 0 < rate }
        ensures { clock_state result ≡ quiet_clock }
    {
        RateClock {
            rt,
            rate,
            schedule: None,
            fill: Fill::new(journal_limit),
            faults: 0,
        }
    }

    /// Returns how long it is until the next pulse is due, if that is known. If no call was made before, the pulses
    /// begin with this one.
    pub(crate) fn left(&mut self) -> Option<Duration>
        ensures { clock_state self.new ≡ clock_state self.old }
    {
        let now = Instant::now(&self.rt).ok()?;
        let schedule = self.schedule.unwrap_or(Schedule::begin(now));
        self.schedule = Some(schedule);
        schedule.left(now, self.rate)
    }

    /// Waits until the next pulse is due, or not at all if it is late. If it is more than a second late, the pulses
    /// begin anew from now, and the number that was passed over is reported.
    fn wait(&mut self) -> io::Result<()>
        ensures { self.new.faults ≡ self.old.faults }
    {
        let now = Instant::now(&self.rt)?;
        let mut schedule = self.schedule.unwrap_or(Schedule::begin(now));
        let step = schedule.next(now, self.rate).ok_or(ErrorKind::InvalidData)?;
        self.schedule = Some(schedule);
        match step {
            ClockStep::Wait(time) => thread::sleep(&self.rt, time),
            ClockStep::PassOver(pulses) => say_stall(&self.rt, pulses),
        }
        Ok(())
    }
}

impl<R: time::Clock + Eprint + Drop + Send> Clock for RateClock<R> {
    ghost use Rattle.real_devices.specs.State.{clock_state};

    ghost state = { clock_state };

    /// Sleeps until the next pulse is due. It never returns `Closed`.
    fn next(&mut self) -> Beat
        ensures beats { Beats result (clock_state self.old) (clock_state self.new) }
        ensures goes_on { result ≢ Beat.Closed }
    {
        match self.wait() {
            Ok(()) => Beat::Pulse,
            Err(error) => {
                complain(&self.rt, "clock", &error);
                self.faults = self.faults.saturating_add(1);
                Beat::Failed
            }
        }
    }

    /// Reports that the journal holds nine tenths of its limit, or that it is full, each once at most.
    fn holds(&mut self, commands: u32)
        ensures { clock_state self.new ≡ clock_state self.old }
    {
        match self.fill.note(commands) {
            None | Some(Level::Low) => {}
            Some(Level::NineTenths) => say_nearly_full(&self.rt, commands, self.fill.limit()),
            Some(Level::Full) => say_full(&self.rt, self.fill.limit()),
        }
    }
}
