//! Mixer values on their way from one number to another.
//!
//! A [`Tween`] has the value at its start and at its end, the tick at which it starts, its duration in ticks and its curve.
//! [`Tween::at`] returns its value after a number of ticks, exactly as the curve defines it.
#![tactic(auto)]

mod tween;

pub use tween::Tween;
