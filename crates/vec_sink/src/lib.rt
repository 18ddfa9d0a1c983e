//! A sink that keeps what is written to it, however long it is.
//!
//! A [`VecSink`] allocates as it takes bytes. A write fails only if memory runs out.
#![tactic(auto)]

mod vec_sink;

pub use vec_sink::VecSink;
