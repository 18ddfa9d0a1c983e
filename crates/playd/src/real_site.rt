//! The site of a server over the system.
ghost use Rattle.std.specs.Prelude.{◌≡◌, None, MatchResult, refl};
ghost use Rattle.play_outside.specs.Faults.{one_more};
ghost use Rattle.play_server.specs.Site.{Finishes, IsNotOpened, Opens};

use crate::read_count::ReadCount;
use crate::said::{PROGRAM, USAGE_FAULT, say_listening, say_resumed, say_usage};
use host_system::{FolderMedia, ProgramFile, Progress, words_of};
use play_outside::{FileFault, MediaDir, Source, WriteStep};
use play_server::{FinishStep, Resumed, Site};
use play_types::Config;
use real_devices::{
    FileSink, FileSource, LiveRuntime, RealDevices, SignalClock, TcpDoor, try_threads,
};
use std::alloc::Global;
use std::env::{self, Env};
use std::fs::File;
use std::io::Eprint;
use std::net::{Net, SocketAddr, TcpListener, TcpStream};
use std::rt::Files;
use std::thread::Threads;
use std::time::Clock;

/// The files of the system, and the devices that a configuration names. It writes its lines to standard error. Its
/// state does not list its calls, nor what a history holds.
#[derive(Drop)]
pub struct RealSite<R, H> {
    rt: R,
    /// The runtime of the threads of live outputs.
    host: H,
    media: FolderMedia<R>,
    program: ProgramFile,
    progress: Progress,
    faults: u64,
}

impl<R: Files + Eprint + AllocGlobal + Copy + Drop, H: Drop> RealSite<R, H> {
    /// Returns the site over a runtime; the threads of its live outputs run over `host`. No call of it, and no read of
    /// its folder, has failed yet. How much it reports on standard error about the clips and the history that are read
    /// depends on `progress`.
    pub fn new(rt: R, host: H, progress: Progress) -> RealSite<R, H>
        ensures faults { result.faults ≡ 0 }
        ensures folder { ⟦<FolderMedia<R> as MediaDir>⟧.state result.media ≡ record { files = None; faults = 0 } }
    {
        RealSite {
            rt,
            host,
            media: FolderMedia::new(rt, PROGRAM, progress),
            program: ProgramFile::find(&rt),
            progress,
            faults: 0,
        }
    }

    /// Counts a failed call.
    fn raise(&mut self)
        ensures { self.new ≡ record self.old { faults = one_more self.old.faults } }
    {
        self.faults = self.faults.saturating_add(1);
    }
}

impl<
    R: Net<Listener = TcpListener, Stream = TcpStream>
        + Files<File = File>
        + Clock
        + Eprint
        + AllocGlobal
        + Env
        + Threads
        + Copy
        + Drop
        + Send,
    H: LiveRuntime + Drop,
> Site for RealSite<R, H> {
    type Media = FolderMedia<R>;

    type History = FileSource<File, R>;

    type Teller = ReadCount<R>;

    type Clock = SignalClock<R>;

    type Door = TcpDoor<R>;

    type Out = FileSink<File, R>;

    ghost state = { λ s. record { told = None; history = record { left = None; faults = 0 }; faults = s.faults } };

    ghost folder = { λ s. s.media };

    ghost with_folder = { λ s other. record s { media = other } };

    fn media(&mut self) -> &mut FolderMedia<R> {
        &mut self.media
    }

    /// Opens a regular file. Standard error says why a file was not opened.
    fn resume(&mut self, alloc: Global, path: &str) -> Result<FileSource<File, R>, FileFault>
        ensures told { MatchResult result
            (λ file. Opens path.now (⟦<FileSource<File, R> as Source>⟧.state file) (⟦<RealSite<R, H> as Site>⟧.state self.old) (⟦<RealSite<R, H> as Site>⟧.state self.new))
            (λ fault. IsNotOpened fault (⟦<RealSite<R, H> as Site>⟧.state self.old) (⟦<RealSite<R, H> as Site>⟧.state self.new)) }
        ensures folder { self.new.media ≡ self.old.media }
    {
        let opened = FileSource::open(self.rt, alloc, path);
        match &opened {
            Err(FileFault::Failed) => self.raise(),
            Ok(_) | Err(FileFault::OutOfMemory) => {}
        }
        opened
    }

    fn teller(&self) -> ReadCount<R> {
        ReadCount::new(self.rt, self.progress)
    }

    /// Reports on standard error what the run goes on from.
    fn tell_resumed(&self, path: &str, teller: ReadCount<R>, resumed: Option<Resumed>) {
        teller.end_line();
        if let Some(resumed) = resumed {
            say_resumed(&self.rt, path, &resumed);
        }
    }

    /// Makes the devices that the configuration names, if the system has threads for them, and reports where the server
    /// listens.
    fn ready(
        &mut self,
        alloc: Global,
        config: &Config,
        history: Option<&str>,
    ) -> Result<RealDevices<R>, FileFault> {
        try_threads(&self.rt, alloc, config)?;
        let source = path_after(&self.rt, alloc, CONFIG);
        let source = source.as_ref().map(|path| path.as_str());
        let resumed = path_after(&self.rt, alloc, RESUME);
        let resumed = resumed.as_ref().map(|path| path.as_str());
        match real_devices::ready(self.rt, &self.host, alloc, config, source, resumed, history) {
            Ok(devices) => {
                say_listening(&self.rt, config, address_of(&devices), &self.program);
                Ok(devices)
            }
            Err(FileFault::Failed) => {
                self.raise();
                Err(FileFault::Failed)
            }
            Err(FileFault::OutOfMemory) => Err(FileFault::OutOfMemory),
        }
    }

    /// Closes the listening socket and the files, after each live output has handed out what waits, for two seconds at
    /// most. The file of the history gets its name, if the history was written.
    fn finish(&mut self, devices: RealDevices<R>) -> FinishStep
        ensures told { Finishes result devices (⟦<RealSite<R, H> as Site>⟧.state self.old) (⟦<RealSite<R, H> as Site>⟧.state self.new) }
        ensures folder { self.new.media ≡ self.old.media }
    {
        match real_devices::finish(devices) {
            Ok(()) => FinishStep::Done,
            Err(_) => {
                self.raise();
                FinishStep::Failed
            }
        }
    }

    /// Writes a line to standard error. Before the line of the usage fault it writes the usage of the program.
    fn say(&mut self, line: &str) -> WriteStep {
        if line == USAGE_FAULT {
            say_usage(&self.rt, &self.program);
        }
        match self.rt.eprintln(line) {
            Ok(()) => WriteStep::Took(line.len()),
            Err(_) => {
                self.raise();
                WriteStep::Failed
            }
        }
    }

    ghost folder_is = { λ _ _. refl };

    ghost state_stays = { λ _ _. refl };
}

/// Returns the address that the doors listen on, if the system gives it.
fn address_of<R: Clock + Eprint + Copy + Drop>(devices: &RealDevices<R>) -> Option<SocketAddr> {
    devices.doors.first()?.address().ok()
}

/// The word before the path of the configuration.
const CONFIG: &str = "--config";

/// The word before the path of the history that the run goes on from.
const RESUME: &str = "--resume";

/// Returns the path after `option` in the words of the program, so that no output empties that file. Returns `None` if the
/// option is not there, and if the words cannot be read once more.
fn path_after<R: Env + AllocGlobal>(rt: &R, alloc: Global, option: &str) -> Option<String> {
    let mut is_next = false;
    for word in words_of(alloc, env::args(rt)).ok()? {
        if is_next {
            return Some(word);
        }
        if let Some(path) = after_option(word.as_str(), option) {
            return String::from_str(alloc, path).ok();
        }
        is_next = word.as_str() == option;
    }
    None
}

/// Returns the path in a word `OPTION=PATH`.
fn after_option<'a>(word: &'a str, option: &str) -> Option<&'a str> {
    word.strip_prefix(option)?.strip_prefix('=')
}
