//! A run of the server `playd` on the devices that it is given.
//!
//! [`serve`] runs a ticker, a worker for each door and a log on the devices, and [`serve_from`] does so from a [`Beginning`] with events.
//! Each worker serves the links of its door as sessions, the ticker makes the frames of each pulse, and the log keeps the history while
//! it grows. When all have ended, the text of the history is written.
#![tactic(auto)]

mod beginning;
mod connection_workers;
mod history;
mod log_thread;
mod run_memory;
mod run_threads;
mod served;
mod serving;
mod shared_run;
mod ticker_thread;
mod worker_session;

pub use beginning::Beginning;
pub use served::{ServeEnd, Served};
pub use serving::{serve, serve_from};
