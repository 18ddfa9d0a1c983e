//! The lines on standard error, for a person. Failures to write them are ignored.

use host_system::{Grouped, ProgramFile};
use play_server::Resumed;
use play_types::Config;
use std::fmt::{self, Display};
use std::io::Eprint;
use std::net::SocketAddr;

/// The name of the program. Each line on standard error begins with it, except that of a fault.
pub const PROGRAM: &str = "playd";

/// The line of the fault of words that are no command line.
pub const USAGE_FAULT: &str = "E usage";

/// Writes which words the program takes, with an example of each form, and from which sources it was built.
pub fn say_usage<E: Eprint>(errors: &E, program: &ProgramFile) {
    let _ = errors.eprintln(USAGE);
    program.say(errors, PROGRAM);
}

const USAGE: &str = "playd: unknown command line. The words are, in any order,
  --config FILE [--workers N] [--journal FILE] [--resume FILE]
with N from 1 to 64, and with --resume a history or a log that is neither the file of --journal nor its log, as in
  playd --config studio.toml
  playd --config studio.toml --workers 4
  playd --config studio.toml --journal evening.script
  playd --config studio.toml --journal later.script --resume evening.script.log";

/// Reports where the server listens, how many channels it has, how many connections it serves at once, and from which
/// sources the program was built. If `address` is `None`, the address of the configuration is named. If `address` is
/// not a loopback address, a line before that reports that other machines can reach it.
pub fn say_listening<E: Eprint>(
    errors: &E,
    config: &Config,
    address: Option<SocketAddr>,
    program: &ProgramFile,
) {
    match address {
        Some(address) => {
            if !address.ip().is_loopback() {
                say_open(errors, &address);
            }
            say_ready(errors, config, &address, program)
        }
        None => say_ready(errors, config, &config.listen().as_str(), program),
    }
}

/// Reports that other machines can reach this address.
fn say_open<E: Eprint>(errors: &E, address: &SocketAddr) {
    let _ = errors.eprintln(format_args!(
        "{PROGRAM}: {address} is not an address of this machine alone: whoever reaches it can do everything, and end the server; see \"Who may reach it\" in docs/OPERATING.md"
    ));
}

/// Reports that the server is ready, at this address.
fn say_ready<E: Eprint, D: Display>(
    errors: &E,
    config: &Config,
    address: &D,
    program: &ProgramFile,
) {
    let (channels, connections) = (config.channels().len(), config.connections());
    let (channel, connection) = (ending(channels == 1), ending(connections == 1));
    let _ = errors.eprintln(format_args!(
        "{PROGRAM}: listening on {address}, {channels} channel{channel}, {connections} connection{connection}{program}"
    ));
}

/// Returns the plural ending of a noun, which is empty after the number one.
fn ending(is_one: bool) -> &'static str {
    if is_one { "" } else { "s" }
}

/// Reports what a run goes on from: the timecode, the events, and what of the history at `path` was left out.
pub fn say_resumed<E: Eprint>(errors: &E, path: &str, resumed: &Resumed) {
    let moment = Moment {
        ticks: resumed.ticks,
        rate: u64::from(resumed.rate),
    };
    let (events, commands) = (
        Grouped(resumed.events),
        Grouped(u64::from(resumed.commands)),
    );
    let ticks = Grouped(resumed.ticks);
    let left_out = LeftOut {
        bytes: resumed.bytes_left_out,
        stop: resumed.stop_left_out,
    };
    let _ = errors.eprintln(format_args!(
        "{PROGRAM}: {path}: goes on at {moment}, after {events} events ({commands} commands and {ticks} ticks){left_out}"
    ));
}

/// A moment, in ticks since the beginning, with `rate` ticks a second.
#[derive(Clone, Copy)]
struct Moment {
    ticks: u64,
    rate: u64,
}

impl fmt::Display for Moment {
    /// Writes the moment as `HH:MM:SS:FF`. An hour or a frame above 99 has more digits.
    fn fmt<W: fmt::Write>(&self, f: &mut fmt::Formatter<W>) -> fmt::Result {
        let rate = self.rate.max(1);
        let seconds = self.ticks / rate;
        let (hours, minutes) = (seconds / 3_600, seconds / 60 % 60);
        let (seconds, frame) = (seconds % 60, self.ticks % rate);
        write!(f, "{hours:02}:{minutes:02}:{seconds:02}:{frame:02}")
    }
}

/// What of a history was left out.
#[derive(Clone, Copy)]
struct LeftOut {
    /// The number of bytes after the last line feed.
    bytes: u64,
    /// Whether a stop at the end was left out.
    stop: bool,
}

impl fmt::Display for LeftOut {
    /// Writes what was left out, as the end of a line, or nothing if nothing was.
    fn fmt<W: fmt::Write>(&self, f: &mut fmt::Formatter<W>) -> fmt::Result {
        match self.bytes {
            0 => {}
            1 => write!(f, "; 1 byte after the last line feed was left out")?,
            bytes => {
                let bytes = Grouped(bytes);
                write!(f, "; {bytes} bytes after the last line feed were left out")?;
            }
        }
        if self.stop {
            write!(f, "; its stop was left out")?;
        }
        Ok(())
    }
}
