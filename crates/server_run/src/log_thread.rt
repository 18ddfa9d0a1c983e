//! What the thread of the log owns.
ghost use Rattle.std.specs.Prelude.{◌≡◌};
ghost use Rattle.server_run.specs.inner.Threads.{HasLogged, IsLogOf};

use history_log::keep_log;
use play_journal::LogRoom;
use play_outside::{Rest, Sent, Sink};
use play_types::MediaNames;
use stage_lock::{Pass, SharedStage};
use std::sync::Wait;

/// What the thread of the log owns: its pass, room for the events of one read of the journal, and the output for the log.
#[derive(Drop)]
pub(crate) struct LogThread<O> {
    pub(crate) pass: Pass,
    pub(crate) room: LogRoom,
    pub(crate) log: O,
}

impl<O: Sink> LogThread<O> {
    /// Creates the state of the log thread before it has read any event.
    pub(crate) fn new(pass: Pass, room: LogRoom, log: O) -> LogThread<O>
        ensures { result ≡ record { pass = pass; room = room; log = log } }
    {
        LogThread { pass, room, log }
    }

    /// Returns the pass and the output.
    pub(crate) fn into_parts(self) -> (Pass, O)
        ensures { result ≡ (self.pass, self.log) }
    {
        let LogThread { pass, log, .. } = self;
        (pass, log)
    }
}

impl<O: Rest> LogThread<O> {
    /// Writes all events of the stage in pieces until its stop is written or a write fails, and returns which.
    pub(crate) fn run<R: Wait>(&mut self, rt: &R, stage: &SharedStage, names: &MediaNames) -> Sent
        requires { IsLogOf stage.now self.old }
        ensures { HasLogged O.state stage.now.sizes.given names.now result (self.old, self.new) }
    {
        keep_log(
            rt,
            stage,
            &mut self.pass,
            &mut self.room,
            names,
            &mut self.log,
        )
    }
}
