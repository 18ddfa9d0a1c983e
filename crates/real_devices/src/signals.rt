//! Signals that ask the process to end.
use std::fmt::{self, Display, Formatter, Write};
use std::fs::{self, File};
use std::os::unix::fs::FileExt;
use std::rt::Files;

/// The file with the state of the process that opened it.
const STATUS: &str = "/proc/self/status";

/// The most bytes of that file that are read. It has some 1,500, and more for a user of many groups.
const STATUS_BYTES: usize = 4_096;

/// The beginning of the line with the pending signals of the whole process, which it blocks. Hexadecimal digits follow,
/// in which bit `n - 1` is for signal `n`.
const PENDING: &[u8] = b"ShdPnd:";

/// The beginning of the line with the signals that the process ignores, as after `nohup`.
const IGNORED: &[u8] = b"SigIgn:";

/// A signal that asks a process to end.
#[derive(Clone, Copy, Debug, PartialEq, Eq)]
pub enum EndSignal {
    /// SIGHUP: the terminal or the session that started the process is gone.
    Hangup,
    /// SIGINT: somebody at the terminal interrupts the process.
    Interrupt,
    /// SIGTERM: somebody asks the process to end.
    Terminate,
}

/// All signals that ask a process to end. If several are pending, the first of these is named.
const END_SIGNALS: [EndSignal; 3] = [
    EndSignal::Terminate,
    EndSignal::Interrupt,
    EndSignal::Hangup,
];

impl EndSignal {
    /// Returns its bit in a set of signals.
    const fn bit(self) -> u64 {
        match self {
            EndSignal::Hangup => 1,
            EndSignal::Interrupt => 1 << 1,
            EndSignal::Terminate => 1 << 14,
        }
    }
}

impl Display for EndSignal {
    fn fmt<W: Write>(&self, f: &mut Formatter<W>) -> fmt::Result {
        f.write_str(match self {
            EndSignal::Hangup => "SIGHUP",
            EndSignal::Interrupt => "SIGINT",
            EndSignal::Terminate => "SIGTERM",
        })
    }
}

/// The pending signals of this process. Only signals that were blocked when it was started are seen: any other ends it
/// at once.
#[derive(Drop)]
pub struct Signals {
    /// The file with the state of the process, if it could be opened.
    status: Option<File>,
}

impl Signals {
    /// Opens the file with the state of the process. Without it no signal is seen.
    pub fn new<R: Files<File = File>>(rt: &R) -> Signals {
        Signals {
            status: fs::open(rt, STATUS).ok(),
        }
    }

    /// Returns a pending signal that asks the process to end and is not ignored, if there is one.
    pub fn pending(&self) -> Option<EndSignal> {
        let mut room = [0; STATUS_BYTES];
        let count = self.status.as_ref()?.read_at(&mut room, 0).ok()?;
        let status = room.get(..count)?;
        let pending = signals_after(status, PENDING)?;
        let ignored = signals_after(status, IGNORED)?;
        END_SIGNALS
            .into_iter()
            .find(|signal| pending & !ignored & signal.bit() != 0)
    }
}

/// Returns the signals in the line that begins with `name`.
fn signals_after(status: &[u8], name: &[u8]) -> Option<u64> {
    for line in status.split(|byte| *byte == b'\n') {
        if let Some(digits) = line.strip_prefix(name) {
            return hexadecimal(digits.trim_ascii());
        }
    }
    None
}

/// Reads a number of at most 64 bits in hexadecimal digits.
fn hexadecimal(digits: &[u8]) -> Option<u64> {
    let mut number: u64 = 0;
    for digit in digits {
        let digit = char::from(*digit).to_digit(16)?;
        number = number.checked_mul(16)?.checked_add(u64::from(digit))?;
    }
    Some(number)
}
