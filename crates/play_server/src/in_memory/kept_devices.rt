//! Devices that a site in memory keeps.
ghost use Rattle.std.specs.Prelude.{◌≡◌};
ghost use Rattle.server_run.specs.Devices.{device_states};
ghost use Rattle.play_server.specs.Unused.{AreUnused, unused-prop};

use play_outside::{Clock, Devices, Listener, Sink};

/// Devices that are fresh and without faults, and marked by their places.
#[derive(Drop)]
pub(crate) struct KeptDevices<C: Clock, D: Listener, O: Sink> {
    pub(crate) devices: Devices<C, D, O>,
    ghost unused: { AreUnused (device_states C.state D.state O.state) devices } by { unused-prop (device_states C.state D.state O.state) devices },
}

impl<C: Clock, D: Listener, O: Sink> KeptDevices<C, D, O> {
    ghost use Rattle.server_run.specs.Devices.{device_states};
    ghost use Rattle.play_server.specs.Site.{AreNew};

    /// Keeps the devices.
    pub(crate) fn new(devices: Devices<C, D, O>) -> KeptDevices<C, D, O>
        requires { AreNew (device_states C.state D.state O.state) devices }
        ensures { result.devices ≡ devices }
    {
        KeptDevices { devices }
    }
}
