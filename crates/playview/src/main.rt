//! `playview` shows in a browser what is on air, by the log of a server, and sends status messages.
#![tactic(auto)]

mod door;
mod followed_file;
mod helpers;
mod input;
mod looks;
mod opening;
mod outside;
mod real_desk;
mod receivers;
mod said;
mod stream_input;
mod viewing;
mod visitors;

use helpers::Helpers;
use host_system::{Progress, words_of};
use real_desk::RealDesk;
use std::env;
use std::io::IsTerminal;
use std::process::ExitCode;
use viewing::view;

/// Shows the log on the devices of the system, and ends with the status of [`view()`].
fn main(rt: HostRuntime) -> ExitCode {
    let alloc = rt.alloc();
    let words = words_of(alloc, env::args(&rt));
    let progress = Progress::on(rt.stderr().is_terminal());
    let helpers = Helpers::start(&rt, alloc, rt.stdin()).ok();
    let mut desk = RealDesk::new(rt, helpers, progress);
    ExitCode::from(view(&rt, alloc, words, &mut desk))
}
