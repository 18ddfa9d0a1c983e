//! The result of a run.

use play_outside::Devices;

/// The result of serving: the devices, and how the run ended.
#[derive(Drop)]
pub struct Served<C, D, O> {
    /// The devices, each at its place.
    pub devices: Devices<C, D, O>,
    /// How the run ended.
    pub end: ServeEnd,
}

/// How serving ended.
#[derive(Clone, Copy, Debug, PartialEq, Eq)]
pub enum ServeEnd {
    /// A client stopped the server, the clock was closed, or the history has the maximum number of ticks. No device failed.
    Ended,
    /// The clock, a door, an output, or the output for the history or for the log failed.
    DeviceFault,
    /// Memory ran out before the run. No call was made on a device.
    OutOfMemory,
}
