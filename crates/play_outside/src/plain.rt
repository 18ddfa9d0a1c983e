//! Devices that never fail.

mod clock;
mod door;
mod link;
mod media;
mod sink;
mod source;

pub use clock::PlainClock;
pub use door::PlainDoor;
pub use link::PlainLink;
pub use media::PlainMedia;
pub use sink::PlainSink;
pub use source::PlainSource;
