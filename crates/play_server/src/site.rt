//! Where the devices of a run come from.
ghost use Rattle.std.specs.Prelude.{◌≡◌, Option, true, false, IfOk, MatchResult, option_map};
ghost use Rattle.std.specs.Borrow.{sem, Lends};
ghost use Rattle.play_server.specs.SiteState.{SiteState, after_call};
ghost use Rattle.server_run.specs.Devices.{device_states};
ghost use Rattle.play_server.specs.Site.{AreReady, Finishes, IsNotOpened, IsNotReady, Opens, Says, ready_call};

use crate::resumed::Resumed;
use history_reader::ReadTeller;
use play_outside::{Clock, Devices, FileFault, Listener, MediaDir, Rest, Source, WriteStep};
use play_types::{ByteList, Config};
use std::alloc::Global;

/// A call of [`Site::ready`].
#[derive(Debug, Drop)]
pub struct ReadyCall {
    /// The configuration that it was given.
    pub config: Config,
    /// The bytes of the path of the history's file that it was given, if there was one.
    pub history: Option<ByteList>,
    /// Whether it gave devices.
    pub ok: bool,
}

/// The result of a call of [`Site::finish`].
#[derive(Clone, Copy, Debug, PartialEq, Eq)]
pub enum FinishStep {
    /// The history has its name, or there is none to keep.
    Done,
    /// The history did not get its name.
    Failed,
}

/// A folder of configuration and media, a history to go on from, and the devices of a run.
pub trait Site {
    /// The folder.
    type Media: MediaDir;

    /// The file of a history that a run goes on from.
    type History: Source + Drop;

    /// What is told how far the reading of a history is.
    type Teller: ReadTeller;

    /// The clock whose pulses make the ticks.
    type Clock: Clock;

    /// The door of a connection worker.
    type Door: Listener;

    /// The outputs: of a channel, for the text of the history, and for the log.
    type Out: Rest + Send;

    /// The calls, if the site records them, the state of the source that `resume` gives, and the number of faults of `ready`, `finish`,
    /// `resume` and `say`.
    ghost state: { Self → SiteState Self.Clock Self.Door Self.Out };

    /// The folder as it is now.
    ghost folder: { Self → Self.Media };

    /// The site with another folder in place of its own.
    ghost with_folder: { Self → Self.Media → Self };

    /// Lends the folder. Reads of it leave the rest of the site unchanged.
    fn media(&mut self) -> &mut Self::Media
        ensures* writes_back { sem 𝓛 (Lends Self.row Self.Media.row self.entry result (with_folder self.old)) }
        ensures value { result.now ≡ folder self.old };

    /// Opens the file of a history to read, from its beginning. No read of it has failed yet.
    ///
    /// A failed call raises the count of faults by one. A call that opens nothing is not recorded.
    fn resume(&mut self, alloc: Global, path: &str) -> Result<Self::History, FileFault>
        ensures told { MatchResult result
            (λ file. Opens path.now (Self.History.state file) (state self.old) (state self.new))
            (λ fault. IsNotOpened fault (state self.old) (state self.new)) }
        ensures folder { folder self.new ≡ folder self.old };

    /// Returns what is told how far the reading of a history is.
    fn teller(&self) -> Self::Teller;

    /// Reports to a person, at the end of the reading of the history at `path`, what the run goes on from. If the history was not read,
    /// `resumed` is `None`, and only what was told so far is ended.
    fn tell_resumed(&self, path: &str, teller: Self::Teller, resumed: Option<Resumed>);

    /// Returns the devices for a run with this configuration: as many doors as it has connections and as many outputs as it has
    /// channels. `history` is the path of the file that the history is written to, if there is one. The devices are fresh and
    /// without faults; the doors and the outputs have their positions, from 1 on, as marks, and the outputs for the history and for
    /// the log have the mark 0. The site chooses where the log is kept.
    ///
    /// A failed call raises the count of faults by one. A call that runs out of memory is only counted.
    fn ready(
        &mut self,
        alloc: Global,
        config: &Config,
        history: Option<&str>,
    ) -> Result<Devices<Self::Clock, Self::Door, Self::Out>, FileFault>
        ensures ready { IfOk result (AreReady (device_states Self.Clock.state Self.Door.state Self.Out.state) config.now) }
        ensures told { MatchResult result
            (λ _. state self.new ≡ after_call (ready_call config.now (option_map (λ path. path.now) history.entry) true) (state self.old))
            (λ fault. IsNotReady fault (ready_call config.now (option_map (λ path. path.now) history.entry) false) (state self.old) (state self.new)) }
        ensures folder { folder self.new ≡ folder self.old };

    /// Takes the devices of a run back, and gives the history its name. A failed call takes them back too, and raises the count
    /// of faults by one.
    fn finish(&mut self, devices: Devices<Self::Clock, Self::Door, Self::Out>) -> FinishStep
        ensures told { Finishes result devices (state self.old) (state self.new) }
        ensures folder { folder self.new ≡ folder self.old };

    /// Prints `line`, which is given without its line feed. A failed call raises the count of faults by one, and records nothing
    /// of the line.
    fn say(&mut self, line: &str) -> WriteStep
        ensures told { Says result line.now (state self.old) (state self.new) }
        ensures folder { folder self.new ≡ folder self.old };

    ghost folder_is: { (site : Self) (other : Self.Media) → folder (with_folder site other) ≡ other };

    ghost state_stays: { (site : Self) (other : Self.Media) → state (with_folder site other) ≡ state site };
}
