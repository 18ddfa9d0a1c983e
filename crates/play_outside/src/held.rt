//! Devices for tests of threads: each holds one of its calls until a flag is set, and sets a flag at one of its calls.

mod clock;
mod door;
mod hold;
mod link;
mod sink;

pub use clock::HeldClock;
pub use door::HeldDoor;
pub use hold::{Flag, FlaggedCall};
pub use link::HeldLink;
pub use sink::HeldSink;
