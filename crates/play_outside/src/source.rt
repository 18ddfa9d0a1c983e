//! What is read.
ghost use Rattle.std.specs.Prelude.{◌<◌, length};
ghost use Rattle.play_outside.specs.SourceState.{SourceState};
ghost use Rattle.play_outside.specs.Source.{Reads};

/// What a read did.
#[derive(Clone, Copy, Debug, PartialEq, Eq)]
pub enum ReadStep {
    /// This many bytes were put at the beginning of the buffer, at least one.
    Got(usize),
    /// Nothing is left.
    End,
    /// The device failed, and gave nothing.
    Failed,
}

/// Bytes to read, from the first to the last.
pub trait Source {
    /// The bytes that are left, if exposed, and the number of faults.
    ghost state: { Self → SourceState };

    /// Reads into the beginning of the buffer, finds that nothing is left, or fails and gives nothing. A failed read
    /// raises the count of faults.
    fn read(&mut self, buf: &mut [u8]) -> ReadStep
        requires { 0 < length buf.old }
        ensures { Reads result buf.new (state self.old) (state self.new) };
}
