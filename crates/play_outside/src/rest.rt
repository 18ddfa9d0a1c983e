//! A sink whose writer polls for something to write.
ghost use Rattle.std.specs.Prelude.{◌≡◌};

use super::Sink;

/// A sink whose writer polls for something to write, and waits between two polls.
pub trait Rest: Sink {
    /// Waits, and takes no bytes. The sink decides for how long: one in memory does not wait at all.
    fn rest(&mut self)
        ensures { Self.state self.new ≡ Self.state self.old };
}
