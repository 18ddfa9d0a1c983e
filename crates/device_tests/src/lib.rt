//! Tests of real devices: sockets, clients that are silent, clocks and live outputs. They check what no clause states.
#![tactic(auto)]

#[cfg(test)]
mod clocks;
#[cfg(test)]
mod live_outputs;
#[cfg(test)]
mod silences;
#[cfg(test)]
mod sockets;
