//! What is to be done for a line of a connection.
ghost use Rattle.std.specs.Prelude.{◌≡◌};
ghost use Rattle.play_session.specs.Step.{ends};

use play_types::{Cmd, Reply};

/// What is to be done for a line of a connection.
#[derive(Debug, Drop)]
pub enum Step {
    /// The reply is sent. `NoMemory` is the reply to a line that is given up because memory ran out.
    Local(Reply),
    /// The stage is asked for this command.
    Ask(Cmd),
    /// The stage is asked for the commands of `Session::batch` as one event.
    AskBatch,
    /// The server ends.
    Kill,
    /// The connection ends.
    Bye,
    /// The line holds no word: nothing is done.
    Skip,
    /// No whole line is held.
    NeedMore,
}

impl Step {
    /// Returns whether the step ends the connection: `Kill` or `Bye`.
    pub fn is_end(&self) -> bool
        ensures { result ≡ ends self.now }
    {
        match self {
            Step::Kill | Step::Bye => true,
            Step::Local(_) | Step::Ask(_) | Step::AskBatch | Step::Skip | Step::NeedMore => false,
        }
    }
}
