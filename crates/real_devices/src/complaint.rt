//! The lines on standard error, for a person. Failures to write them are ignored.

use crate::pace::{LeftOut, Pace};
use std::fmt::Display;
use std::io::Eprint;
use std::time::Clock;

/// Reports why a file, or another thing that `of` names, failed.
pub(crate) fn complain<E: Eprint, D: Display>(errors: &E, of: &str, why: &D) {
    let _ = errors.eprintln(format_args!("playd: {of}: {why}"));
}

/// Reports why a connection failed, if a line of this kind may be written now.
pub(crate) fn complain_of_client<R: Clock + Eprint, C: Display, D: Display>(
    rt: &R,
    pace: &Pace,
    client: &C,
    why: &D,
) {
    if let Some(left_out) = pace.next(rt) {
        let _ = rt.eprintln(format_args!("playd: connection of {client}: {why}{left_out}"));
    }
}

/// Reports a passing error of the listening socket, if a line of this kind may be written now.
pub(crate) fn complain_of_socket<R: Clock + Eprint, D: Display>(rt: &R, pace: &Pace, why: &D) {
    if let Some(left_out) = pace.next(rt) {
        let _ = rt.eprintln(format_args!("playd: listening socket: {why}{left_out}"));
    }
}

/// Reports how many lines about connections, or about the listening socket, were left out, if any were.
pub(crate) fn say_left_out<E: Eprint>(errors: &E, of: &str, left_out: LeftOut) {
    if !left_out.is_none() {
        let _ = errors.eprintln(format_args!("playd: {of}{left_out}"));
    }
}

/// Reports the new name of a file that was moved out of the way.
pub(crate) fn say_kept<E: Eprint>(errors: &E, path: &str, kept: &str) {
    let _ = errors.eprintln(format_args!("playd: {path}: the file that was here is now {kept}"));
}

/// Reports that another server has the file of a history.
pub(crate) fn say_taken<E: Eprint>(errors: &E, path: &str) {
    let _ = errors.eprintln(format_args!("playd: {path}: another server writes its history there"));
}

/// Reports why a file keeps the name that it has until it is whole.
pub(crate) fn say_stays<E: Eprint, D: Display>(errors: &E, part: &str, why: &D) {
    let _ = errors.eprintln(format_args!("playd: {part}: keeps this name: {why}"));
}

/// Reports why a log failed, without which the run goes on.
pub(crate) fn say_log_failed<E: Eprint, D: Display>(errors: &E, log: &str, why: &D) {
    let _ = errors.eprintln(format_args!("playd: log: {log}: {why}; the run goes on without it"));
}

/// Reports what is wrong with a log, or that it stays.
pub(crate) fn say_log<E: Eprint, D: Display>(errors: &E, log: &str, what: &D) {
    let _ = errors.eprintln(format_args!("playd: log: {log}: {what}"));
}

/// Reports that a signal asks the server to end.
pub(crate) fn say_asked<E: Eprint, D: Display>(errors: &E, signal: &D) {
    let _ = errors.eprintln(format_args!("playd: {signal}: the run ends"));
}

/// Reports that some of the named pipes have no reader yet, and that the run begins without them.
pub(crate) fn say_unread<E: Eprint>(errors: &E) {
    let _ = errors.eprintln(
        "playd: nobody reads each pipe yet; the run begins, and who comes later gets the frames from then on",
    );
}

/// Reports that other machines can reach the address of an output.
pub(crate) fn say_open_output<E: Eprint, A: Display>(errors: &E, output: &str, address: &A) {
    let _ = errors.eprintln(format_args!(
        "playd: {output}: {address} is not an address of this machine alone: whoever reaches it can read this output; see \"Who may reach it\" in docs/OPERATING.md"
    ));
}

/// Reports that the run waits until somebody reads a named pipe.
pub(crate) fn say_waits_for_reader<E: Eprint>(errors: &E, pipe: &str) {
    let _ = errors.eprintln(format_args!("playd: {pipe}: waiting for a reader"));
}

/// Reports that the system has too few threads for a run.
pub(crate) fn say_few_threads<E: Eprint>(errors: &E, started: usize, wanted: u32) {
    let _ = errors.eprintln(format_args!("playd: threads: {started} of {wanted} could be started"));
}

/// Reports that an output, and all channels with it, wait for its reader.
pub(crate) fn say_stalled<E: Eprint>(errors: &E, output: &str) {
    let _ = errors.eprintln(format_args!(
        "playd: {output}: its reader has taken nothing for a second, and all channels wait for it"
    ));
}

/// Reports that the clock was more than a second late, and how many pulses it passed over.
pub(crate) fn say_stall<E: Eprint>(errors: &E, pulses: u128) {
    let _ = errors.eprintln(format_args!("playd: clock: {pulses} pulses were passed over"));
}

/// Reports that the journal of the history holds nine tenths of its limit or more.
pub(crate) fn say_nearly_full<E: Eprint>(errors: &E, commands: u32, limit: u32) {
    let _ = errors.eprintln(format_args!(
        "playd: journal: {commands} of {limit} commands are held, nine tenths or more; start the server again when nothing is on air"
    ));
}

/// Reports that the journal of the history is full.
pub(crate) fn say_full<E: Eprint>(errors: &E, limit: u32) {
    let _ = errors.eprintln(format_args!(
        "playd: journal: full with {limit} commands; each further command is answered 503 until the server is started again"
    ));
}
