//! What follows from the contracts of the server: its history, played as a script, has its replies, frames, recordings and log again.
//!
//! No program calls [`laws`]; each is the contract of a function that does nothing.
#![tactic(auto)]

pub mod laws;
