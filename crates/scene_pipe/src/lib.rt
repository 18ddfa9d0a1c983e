//! Scenes on their way from the thread that stages ticks to the thread that renders and writes them, and back.
//!
//! A [`ScenePipe`] holds four [`Scenes`](play_types::Scenes) and two rings. [`StageEnd::room`] hands out scenes to fill,
//! [`StageEnd::send`] sends them with their tick, [`WriteEnd::take`] hands them out, and [`WriteEnd::give`] or
//! [`WriteEnd::broken`] sends them back. In contracts, each end has the lists of all that it sent and of all that came to it.
//! Once both ends are in one thread again, [`settle`] shows that what was taken is what was sent, in its order and whole, and
//! that what came back is a prefix of what was given back.
//!
//! Only [`ScenePipe::new`] allocates. A side that waits sleeps until the other side has pushed or popped an item.
#![tactic(auto)]

pub mod examples;
mod item;
pub mod laws;
mod pipe;
mod ring;
mod settling;
mod sleep;
mod stage_end;
mod write_end;

pub use item::{Returned, Room, Taken};
pub use pipe::{SETS, ScenePipe};
pub use settling::settle;
pub use stage_end::StageEnd;
pub use write_end::WriteEnd;
