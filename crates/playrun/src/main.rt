//! `playrun` plays the script on standard input, and writes its replies and frames to standard output.
#![tactic(auto)]

mod complaint;
mod counted_media;
mod play;
mod run_progress;
mod run_times;
mod script_ticks;
mod std_source;
mod std_teller;
#[cfg(test)]
mod tests;
mod tick_lines;
mod watched_sink;

use complaint::PROGRAM;
use counted_media::CountedMedia;
use host_system::{FolderMedia, Progress, StdSink, WordsFault, words_of};
use play::play;
use run_progress::RunProgress;
use run_script::Devices;
use script_ticks::ticks_of_script;
use std::alloc::AllocError;
use std::cell::Cell;
use std::env;
use std::io::IsTerminal;
use std::process::ExitCode;
use std_source::StdSource;
use std_teller::StdTeller;
use watched_sink::WatchedSink;

/// Plays a script on the devices of the system, and ends with the status of [`play()`].
fn main(rt: HostRuntime) -> Result<ExitCode, AllocError> {
    let alloc = rt.alloc();
    let words = words_of(alloc, env::args(&rt));
    let is_terminal = rt.stderr().is_terminal();
    let mut input = StdSource::new(rt.stdin(), rt.clone()?);
    let held = Cell::new(0);
    let folder = FolderMedia::new(rt.clone()?, PROGRAM, Progress::Silent);
    let mut media = CountedMedia::new(folder, &held);
    let progress = if is_terminal && writes_digests(&words) {
        Some(RunProgress::new(rt.clone()?, ticks_of_script(&rt)))
    } else {
        None
    };
    let mut output = WatchedSink::new(StdSink::new(rt.stdout(), rt.clone()?, PROGRAM), progress);
    let mut teller = StdTeller::new(rt.clone()?, is_terminal, &held);
    let devices = Devices {
        input: &mut input,
        media: &mut media,
        out: &mut output,
    };
    let status = play(&rt, alloc, words, devices, &mut teller);
    output.end();
    Ok(ExitCode::from(status))
}

/// Returns whether the words are those of a run that writes digests.
fn writes_digests(words: &Result<Vec<String>, WordsFault>) -> bool {
    match words {
        Ok(words) => match words.as_slice() {
            [first, _, _, .., last] => first.as_str() == "run" && last.as_str() == "--digest",
            _ => false,
        },
        Err(_) => false,
    }
}
