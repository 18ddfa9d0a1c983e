//! The batch of a connection.
ghost use Rattle.std.specs.Prelude.{◌≡◌, ◌∷◌, [], IfOk, Some, true, false};
ghost use Rattle.history_model.specs.sessions.Line.{Asks};
ghost use Rattle.history_model.specs.sessions.Session.{step_commit, step_inside, step_outside, step_waiting};
ghost use Rattle.play_session.specs.inner.BatchState.{after_inside, after_meaning, after_outside, step_for, with_command};
ghost use Rattle.play_session.specs.Step.{viewed};
ghost use Rattle.play_session.specs.inner.Meaning.{meaning_view};

use crate::meaning::Meaning;
use crate::step::Step;
use play_types::{Cmd, ILLEGAL_WORD, MAX_BATCH_COMMANDS, Name, Parsed, Reply};
use std::alloc::{AllocError, Global};
use std::marker::Model;

/// A batch, open or closed. A closed batch keeps its commands until the next one is opened.
#[derive(Debug, Drop)]
pub struct Batch {
    is_open: bool,
    commands: Vec<Cmd>,
}

impl Model for Batch {
    ghost use Rattle.std.specs.Prelude.{◌≤◌, vec_capacity, vec_len};
    ghost use Rattle.play_types.specs.declared.command.TheConstants.{MAX_BATCH_COMMANDS};
    ghost use Rattle.play_session.specs.inner.BatchState.{BatchState};

    ghost Value = { BatchState };

    ghost view = { λ b. record { is_open = b.is_open; commands = b.commands.items } };

    ghost invariant = { λ b. (vec_len b.commands ≤ MAX_BATCH_COMMANDS) × (MAX_BATCH_COMMANDS ≤ vec_capacity b.commands) };
}

impl Batch {
    /// Creates a closed batch without commands, with room for `MAX_BATCH_COMMANDS` commands.
    pub fn new(alloc: Global) -> Result<Batch, AllocError>
        ensures { IfOk result (λ batch. batch ≡ record { is_open = false; commands = [] }) }
    {
        let commands = Vec::with_capacity(alloc, MAX_BATCH_COMMANDS)?;
        Ok(Batch {
            is_open: false,
            commands,
        })
    }

    /// Closes the batch and drops its commands.
    pub fn clear(&mut self)
        ensures { self.new ≡ record { is_open = false; commands = [] } }
    {
        self.is_open = false;
        self.commands.clear();
    }

    /// Returns the commands of the batch, or of the last one if the batch is closed.
    pub fn commands(&self) -> &[Cmd]
        ensures { result.now ≡ self.now.commands }
    {
        self.commands.as_slice()
    }

    /// Applies a line of this meaning to the batch, and returns the step of the line.
    pub fn step(&mut self, meaning: Meaning) -> Step
        ensures step { viewed result self.new.commands ≡ Some (step_for self.old (meaning_view meaning)) }
        ensures batch { self.new ≡ after_meaning self.old (meaning_view meaning) }
    {
        match meaning {
            Meaning::Blank => Step::Skip,
            Meaning::Wrong(reply) => Step::Local(reply),
            Meaning::Asks(asked) => self.step_for_ask(asked),
        }
    }

    /// Applies a parsed line to the batch, and returns the step of the line.
    fn step_for_ask(&mut self, asked: Parsed) -> Step
        ensures step { viewed result self.new.commands ≡ Some (step_for self.old (Asks asked)) }
        ensures batch { self.new ≡ after_meaning self.old (Asks asked) }
    {
        if self.is_open {
            self.step_inside(asked)
        } else {
            self.step_outside(asked)
        }
    }

    /// Applies a parsed line while no batch is open, and returns the step of the line.
    fn step_outside(&mut self, asked: Parsed) -> Step
        ensures step { viewed result self.new.commands ≡ Some (step_outside asked) }
        ensures batch { self.new ≡ after_outside self.old asked }
    {
        match asked {
            Parsed::Stage(command) => Step::Ask(command),
            Parsed::Begin => self.begin(),
            Parsed::Commit => refused(Name::Commit),
            Parsed::Discard => refused(Name::Discard),
            Parsed::Cls => Step::Local(Reply::Cls),
            Parsed::Version => Step::Local(Reply::Version),
            Parsed::Bye => Step::Bye,
            Parsed::Kill => Step::Kill,
        }
    }

    /// Applies a parsed line to the open batch, and returns the step of the line.
    fn step_inside(&mut self, asked: Parsed) -> Step
        ensures step { viewed result self.new.commands ≡ Some (step_inside self.old.commands asked) }
        ensures batch { self.new ≡ after_inside self.old asked }
    {
        match asked {
            Parsed::Stage(command) => self.add(command),
            Parsed::Begin => refused(Name::Begin),
            Parsed::Commit => self.commit(),
            Parsed::Discard => self.discard(),
            Parsed::Cls => refused(Name::Cls),
            Parsed::Version => refused(Name::Version),
            Parsed::Bye => refused(Name::Bye),
            Parsed::Kill => refused(Name::Kill),
        }
    }

    /// Opens an empty batch, and returns the reply `Done`.
    fn begin(&mut self) -> Step
        ensures step { result ≡ Step.Local (Reply.Done Name.Begin) }
        ensures batch { self.new ≡ record { is_open = true; commands = [] } }
    {
        self.is_open = true;
        self.commands.clear();
        done(Name::Begin)
    }

    /// Adds a command to the open batch, and returns the reply. The command is refused if it is a query or the batch is full.
    fn add(&mut self, command: Cmd) -> Step
        ensures step { viewed result self.new.commands ≡ Some (step_waiting self.old.commands command) }
        ensures batch { self.new ≡ record { is_open = self.old.is_open; commands = with_command self.old.commands command } }
    {
        let name = command.name();
        if command.is_query() || self.commands.len() >= MAX_BATCH_COMMANDS {
            return refused(name);
        }
        self.commands.push_reserved(command);
        done(name)
    }

    /// Closes the open batch, and returns `AskBatch` if the batch has a command, and the reply `Done` otherwise.
    fn commit(&mut self) -> Step
        ensures step { viewed result self.new.commands ≡ Some (step_commit self.old.commands) }
        ensures batch { self.new ≡ record { is_open = false; commands = self.old.commands } }
    {
        self.is_open = false;
        if self.commands.is_empty() {
            return done(Name::Commit);
        }
        Step::AskBatch
    }

    /// Closes the open batch, and returns the reply `Done`.
    fn discard(&mut self) -> Step
        ensures step { result ≡ Step.Local (Reply.Done Name.Discard) }
        ensures batch { self.new ≡ record { is_open = false; commands = self.old.commands } }
    {
        self.is_open = false;
        done(Name::Discard)
    }
}

/// Returns the step with the reply that a command is done.
fn done(name: Name) -> Step
    ensures { result ≡ Step.Local (Reply.Done name) }
{
    Step::Local(Reply::Done(name))
}

/// Returns the step with the reply that a command is refused, with code 403.
fn refused(name: Name) -> Step
    ensures { result ≡ Step.Local (Reply.Refused 403 name) }
{
    Step::Local(Reply::Refused(ILLEGAL_WORD, name))
}
