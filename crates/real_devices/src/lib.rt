//! The real devices of a server: connections over TCP, a clock that keeps to wall time, and files.
//!
//! Each device makes the real calls, implements its trait of `play_outside`, and reports on standard error why a call
//! failed. Its state counts faults and calls that found nothing yet; what was read, written or given back is not in it.
//! `ready` makes all devices that a configuration names, and `finish` ends them. The log is synced to the disk while it
//! is written, and removed once the history is whole. A signal that was blocked at the start closes the clock. An
//! output that is a named pipe, or that listens, is live: a thread of its own hands its frames to readers that come and
//! go. A history that a run goes on from is read from its file.
#![tactic(auto)]

mod complaint;
mod devices;
mod door_group;
mod error_lines;
pub mod examples;
mod file_limit;
mod file_sink;
mod file_source;
mod fill;
mod held_bytes;
mod host;
mod journal_names;
mod live;
mod log_file;
mod open_line;
mod output;
mod outs;
mod pace;
mod patience;
mod place;
mod rate_clock;
mod schedule;
mod signal_clock;
mod signals;
mod stall;
mod tcp_door;
mod tcp_link;
mod thread_trial;
mod used_files;
mod watch;

pub use devices::{RealDevices, finish, ready};
pub use door_group::DoorGroup;
pub use error_lines::ErrorLines;
pub use file_sink::FileSink;
pub use file_source::FileSource;
pub use host::Host;
pub use live::LiveRuntime;
pub use log_file::Synced;
pub use patience::{INTERRUPTIONS, RESTORED_WAITS, RESTORING_BYTES, WRITE_WAITS};
pub use place::Place;
pub use rate_clock::RateClock;
pub use signal_clock::SignalClock;
pub use signals::{EndSignal, Signals};
pub use tcp_door::TcpDoor;
pub use tcp_link::TcpLink;
pub use thread_trial::{start_threads, try_threads};
pub use watch::SILENT_SECONDS;
