//! `playd` serves connections, and writes the frames of its channels to files.
#![tactic(auto)]

#[cfg(test)]
mod loopback;
#[cfg(test)]
mod memory_site;
mod read_count;
mod real_site;
mod said;
mod serving;
#[cfg(test)]
mod tests;
#[cfg(test)]
mod whole_server;

use host_system::{Progress, words_of};
use real_devices::{ErrorLines, Host};
use real_site::RealSite;
use serving::serve;
use std::env;
use std::io::IsTerminal;
use std::process::ExitCode;

/// Serves on the devices of the system, and ends with the status of [`serve()`]. A thread of its own writes standard
/// error.
fn main(rt: HostRuntime) -> ExitCode {
    let alloc = rt.alloc();
    let words = words_of(alloc, env::args(&rt));
    let progress = Progress::on(rt.stderr().is_terminal());
    let lines = ErrorLines::start(rt, alloc);
    let mut site = RealSite::new(Host::new(rt, &lines), rt, progress);
    let status = serve(&rt, alloc, words, &mut site);
    lines.finish(&rt);
    ExitCode::from(status)
}
