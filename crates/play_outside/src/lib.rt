//! The outside of the server as traits: what it reads, what it writes, the folder of configuration and media, and a clock,
//! links and doors.
//!
//! Each object counts its faults. The count never falls, a call returns `Failed` only if the count rose in that
//! call, and any other call leaves the count as it was. The ghost state of an object may expose what it has left,
//! took or holds, so that contracts can speak of bytes; the contracts of an object that exposes nothing claim nothing about
//! them.
#![tactic(auto)]

mod clock;
mod devices;
mod folder;
mod gather;
mod held;
mod link;
mod listener;
mod memory;
mod plain;
mod rest;
mod sink;
mod source;

pub use clock::{Beat, Clock};
pub use devices::Devices;
pub use folder::{FileFault, MediaDir};
pub use gather::Gather;
pub use held::{Flag, FlaggedCall, HeldClock, HeldDoor, HeldLink, HeldSink};
pub use link::{Link, LinkStep, Look};
pub use listener::{Arrival, Listener, MOST_AWAY};
pub use memory::{
    DoorAnswer, LinkPlan, MemClock, MemConfig, MemDoor, MemFile, MemLink, MemMedia, MemSink,
    MemSource, PlannedFaults,
};
pub use plain::{PlainClock, PlainDoor, PlainLink, PlainMedia, PlainSink, PlainSource};
pub use rest::Rest;
pub use sink::{Sent, Sink, WriteFailed, WriteStep, send, send_parts};
pub use source::{ReadStep, Source};
