//! Live outputs: their readers come and go, and no channel waits for them.

mod door;
mod listener;
mod pipe;
mod rhythm;
mod shared;
mod sink;
mod starting;
mod tally;
mod thread;
mod threads;

pub(crate) use pipe::{OpenPipe, is_pipe, open_pipe, set_nonblocking};
pub(crate) use sink::LiveSink;
pub(crate) use starting::{FirstReaders, address_of, count_live, start_listener, start_pipe};
pub use threads::LiveRuntime;
