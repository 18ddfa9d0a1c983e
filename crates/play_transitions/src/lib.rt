//! What a transition shows of the old picture and of the new one, column by column.
//!
//! [`pick`] returns which column of which picture one column of the raster shows at a step of the transition, and [`runs`] returns
//! this for all columns at once, as at most two runs of neighbouring columns. Rows stay as they are. No call allocates, and none
//! refuses.
#![tactic(auto)]

mod columns;
mod row;

pub use columns::{Column, pick};
pub use row::{Run, RunPair, runs};
