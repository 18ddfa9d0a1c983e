//! What routes show: the pictures of the tick before.
//!
//! [`Routes`] is given what each place shows, tick by tick, and returns which still a producer shows, by what was shown at
//! the tick before. It keeps the last two ticks, and no others. So a route to a place shows what the place showed one tick
//! earlier, and a route to a channel shows the frame that the channel had then.
#![tactic(auto)]

pub mod examples;
pub mod laws;
mod layers;
mod routes;
mod tick;

pub use routes::Routes;
