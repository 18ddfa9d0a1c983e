//! Devices in memory, whose calls fail where this is planned.

mod clock;
mod door;
mod link;
mod media;
mod pieces;
mod planned_faults;
mod sink;
mod source;
mod unread;

pub use clock::MemClock;
pub use door::{DoorAnswer, MemDoor};
pub use link::{LinkPlan, MemLink};
pub use media::{MemConfig, MemFile, MemMedia};
pub use planned_faults::PlannedFaults;
pub use sink::MemSink;
pub use source::MemSource;
pub(crate) use unread::Unread;
