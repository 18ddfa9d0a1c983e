//! When a read skips the stream, and since when a client has sent no command.
ghost use Rattle.std.specs.Prelude.{◌≡◌, ◌↔◌, IsTrue, false};
ghost use Rattle.real_devices.specs.inner.Watch.{IsLookDue, IsSilent, heard};

use crate::open_line::OpenLine;
use std::io;
use std::time::Clock;

/// After how many seconds of reads that gave bytes a read reports that nothing has come yet, so that its caller can do
/// other work.
const LOOK_SECONDS: u64 = 1;

/// After how many seconds without a command of its client a connection may be ended if no place is free.
pub const SILENT_SECONDS: u64 = 600;

const NANOS_PER_SECOND: u64 = 1_000_000_000;

/// When a connection last reported that nothing has come yet, and when its client last sent a command, that is, when a
/// line of it that has a word ended. Moments are nanoseconds of one clock.
#[derive(Clone, Copy)]
pub(crate) struct Watch {
    looked: u64,
    spoke: u64,
    line: OpenLine,
    /// Whether the last read brought a command.
    has_asked: bool,
}

impl Watch {
    /// Begins now, as if the client had just sent a command and got its reply.
    pub(crate) fn begin(now: u64) -> Watch
        ensures { result ≡ record { looked = now; spoke = now; line = record { has_word = false }; has_asked = false } }
    {
        Watch {
            looked: now,
            spoke: now,
            line: OpenLine::new(),
            has_asked: false,
        }
    }

    /// Notes the bytes that a read gave.
    pub(crate) fn hear(&mut self, bytes: &[u8], now: u64)
        ensures { self.new ≡ heard bytes.now now self.old }
    {
        self.has_asked = self.line.take(bytes);
        if self.has_asked {
            self.spoke = now;
        }
    }

    /// Notes that nothing has come yet.
    pub(crate) fn look(&mut self, now: u64)
        ensures { self.new ≡ record self.old { looked = now } }
    {
        self.looked = now;
    }

    /// Returns whether the last read brought a command.
    pub(crate) fn has_asked(&self) -> bool
        ensures { result ≡ self.now.has_asked }
    {
        self.has_asked
    }

    /// Returns when the client last sent a command.
    pub(crate) fn spoke(&self) -> u64
        ensures { result ≡ self.now.spoke }
    {
        self.spoke
    }

    /// Returns whether it is a second or longer since a read last reported that nothing has come.
    pub(crate) fn is_look_due(&self, now: u64) -> bool
        ensures { IsTrue result ↔ IsLookDue self.now now }
    {
        now.saturating_sub(self.looked) >= LOOK_SECONDS * NANOS_PER_SECOND
    }

    /// Returns whether the client has sent no command for so long that its connection may be ended.
    pub(crate) fn is_silent(&self, now: u64) -> bool
        ensures { IsTrue result ↔ IsSilent self.now now }
    {
        now.saturating_sub(self.spoke) >= SILENT_SECONDS * NANOS_PER_SECOND
    }
}

/// Returns the nanoseconds of the clock. A `u64` holds 584 years of them.
pub(crate) fn moment<T: Clock>(time: &T) -> io::Result<u64> {
    let since = time.monotonic()?;
    Ok(u64::try_from(since.as_nanos()).unwrap_or(u64::MAX))
}
