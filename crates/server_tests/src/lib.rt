//! Tests of the parts of the server: sessions and connections, threads that share a stage, ticks, and rendering by several workers.
//! They check what no clause states, against values from other programs or worked out by hand.
#![tactic(auto)]

#[cfg(test)]
mod bands;
#[cfg(test)]
mod config;
#[cfg(test)]
mod connections;
#[cfg(test)]
mod renderers;
#[cfg(test)]
mod sessions;
#[cfg(test)]
mod shared_stages;
#[cfg(test)]
mod stages;
#[cfg(test)]
mod ticks;
#[cfg(test)]
mod wake_ups;
