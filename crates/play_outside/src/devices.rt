//! All devices of a server.

/// What a server runs on: its clock, a door for each connection worker, an output for each channel, one for the text of the
/// history, and one for the log, which is written while the server runs.
#[derive(Drop)]
pub struct Devices<C, D, O> {
    pub clock: C,
    pub doors: Vec<D>,
    pub outs: Vec<O>,
    pub history: O,
    pub log: O,
}
