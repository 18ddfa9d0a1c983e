//! Output whose progress is reported.
ghost use Rattle.std.specs.Prelude.{◌≡◌};

use super::run_progress::RunProgress;
use play_outside::{Sink, WriteStep};
use std::io::Eprint;
use std::time::Clock;

/// Writes to another sink, and passes the bytes that it took to the progress of a run, if there is one. Its state is
/// that of the other sink, and it changes no byte and no step.
#[derive(Drop)]
pub struct WatchedSink<O, R> {
    output: O,
    progress: Option<RunProgress<R>>,
}

impl<O: Sink, R: Eprint + Clock + Drop> WatchedSink<O, R> {
    /// Returns a sink over another one.
    pub fn new(output: O, progress: Option<RunProgress<R>>) -> WatchedSink<O, R>
        ensures { ⟦<WatchedSink<O, R> as Sink>⟧.state result ≡ O.state output }
    {
        WatchedSink { output, progress }
    }

    /// Makes the last report on the progress of the run.
    pub fn end(&self) {
        if let Some(progress) = &self.progress {
            progress.end();
        }
    }
}

impl<O: Sink, R: Eprint + Clock + Drop> Sink for WatchedSink<O, R> {
    ghost state = { λ s. O.state s.output };

    fn write(&mut self, piece: &[u8]) -> WriteStep {
        let step = self.output.write(piece);
        if let (WriteStep::Took(count), Some(progress)) = (step, &mut self.progress) {
            progress.take(&piece[..count]);
        }
        step
    }
}
