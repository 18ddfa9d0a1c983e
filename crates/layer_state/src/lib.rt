//! One layer of a channel, tick by tick: its foreground, its background, and what it shows.
//!
//! Each call of a [`Layer`] is one step of what the definitions call the life of its place: a command has the effect that `effect`
//! gives, and a tick is one tick of `after`. So a layer that was given the acts on its place and the ticks between them is the
//! `life` of that place. No call allocates, and none refuses.
#![tactic(auto)]

pub mod examples;
mod foreground;
mod front;
pub mod laws;
mod layer;
mod playhead;
mod shown;

pub use front::Front;
pub use layer::Layer;
pub use shown::Shown;
