//! The lines on standard error, for a person. Failures to write them are ignored.

use host_system::ProgramFile;
use play_outside::FileFault;
use real_devices::EndSignal;
use std::fmt::Display;
use std::io::{Eprint, Error, ErrorKind};
use std::net::SocketAddr;

/// The name of the program. Each line on standard error begins with it, except that of a fault.
pub const PROGRAM: &str = "playview";

/// The line of the fault of words that are no command line.
pub const USAGE_FAULT: &str = "E usage";

/// Writes which words the program takes, with an example of each form, and from which sources it was built.
pub fn say_usage<E: Eprint>(errors: &E, program: &ProgramFile) {
    let _ = errors.eprintln(USAGE);
    program.say(errors, PROGRAM);
}

const USAGE: &str = "playview: unknown command line. The words are, in any order,
  --config FILE --log FILE [--listen HOST:PORT] [--workers N] [--no-pictures] [--osc HOST:PORT]..
with N from 1 to 64, --osc up to eight times, and --log - for standard input, as in
  playview --config studio.toml --log evening.script.log
  playview --config studio.toml --log evening.script.log --listen 10.20.0.5:5280 --workers 2
  playview --config studio.toml --log evening.script.log --no-pictures --osc 10.20.0.7:9000
  ssh studio tail -n +1 -F evening.script.log | playview --config studio.toml --log -";

/// Reports where browsers reach the viewer, and from which sources the program was built. If `address` is not a
/// loopback address, a line before that reports that other machines can reach it.
pub fn say_listening<E: Eprint>(errors: &E, address: &SocketAddr, program: &ProgramFile) {
    if !address.ip().is_loopback() {
        let _ = errors.eprintln(format_args!(
            "{PROGRAM}: {address} is not an address of this machine alone: whoever reaches it sees what is on air; see \"Who may reach it\" in docs/OPERATING.md"
        ));
    }
    let _ = errors.eprintln(format_args!("{PROGRAM}: listening on http://{address}/{program}"));
}

/// Reports what there is to say of a log, or of what else has a name.
pub fn say_log<E: Eprint, D: Display>(errors: &E, log: &str, what: &D) {
    let _ = errors.eprintln(format_args!("{PROGRAM}: {log}: {what}"));
}

/// Reports that the run of a log has ended, and the path of its history.
pub fn say_history<E: Eprint>(errors: &E, log: &str, history: &str) {
    let _ = errors.eprintln(format_args!(
        "{PROGRAM}: {log}: the run has ended, and {history} is its history; its last state stays"
    ));
}

/// Reports that a signal asks the viewer to end.
pub fn say_asked<E: Eprint>(errors: &E, signal: EndSignal) {
    let _ = errors.eprintln(format_args!("{PROGRAM}: {signal}: the viewer ends"));
}

/// Reports why a datagram was not sent.
pub fn say_receiver<E: Eprint>(errors: &E, address: &SocketAddr, error: &Error) {
    let _ = errors.eprintln(format_args!("{PROGRAM}: status messages to {address}: {error}"));
}

/// Reports why what has this name was not opened, and returns the fault. Want of memory is not reported.
pub fn not_opened<E: Eprint>(errors: &E, name: &str, error: &Error) -> FileFault {
    if error.kind() == ErrorKind::OutOfMemory {
        return FileFault::OutOfMemory;
    }
    say_log(errors, name, error);
    FileFault::Failed
}
