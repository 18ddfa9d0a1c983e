//! The whole server over devices in memory, with ample memory.
//!
//! Calls of devices wait for one another by flags, so that each run has exactly the order that its test is about. The
//! expected bytes were worked out by hand.
mod devices;
mod ends;
mod plan;
mod replay;
mod resumes;
mod shows;
