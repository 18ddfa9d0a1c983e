//! Moments as timecodes.
ghost use Rattle.std.specs.Prelude.{◌<◌};
ghost use Rattle.play_schedule.specs.Timecode.{IsTimecodeOf};

use std::fmt;

/// A moment, written as `HH:MM:SS:FF`. A frame or an hour above 99 has three digits or more.
#[derive(Clone, Copy, Debug, PartialEq, Eq)]
pub struct Timecode {
    pub hours: u32,
    /// Below 60.
    pub minutes: u32,
    /// Below 60.
    pub seconds: u32,
    /// The number of the frame in its second, from 0.
    pub frame: u32,
}

impl Timecode {
    /// Returns the timecode of a moment, with `rate` frames a second.
    pub fn of(moment: u32, rate: u32) -> Timecode
        requires { 0 < rate }
        ensures { IsTimecodeOf rate moment result }
    {
        let seconds = moment / rate;
        let minutes = seconds / 60;
        Timecode {
            hours: minutes / 60,
            minutes: minutes % 60,
            seconds: seconds % 60,
            frame: moment % rate,
        }
    }
}

impl fmt::Display for Timecode {
    fn fmt<W: fmt::Write>(&self, f: &mut fmt::Formatter<W>) -> fmt::Result {
        let (hours, minutes) = (self.hours, self.minutes);
        let (seconds, frame) = (self.seconds, self.frame);
        write!(f, "{hours:02}:{minutes:02}:{seconds:02}:{frame:02}")
    }
}
