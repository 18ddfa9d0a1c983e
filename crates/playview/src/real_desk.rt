//! The desk of a viewer over the system.
ghost use Rattle.std.specs.Prelude.{◌≡◌, None, refl};
ghost use Rattle.play_outside.specs.Faults.{one_more};

use crate::helpers::Helpers;
use crate::opening::open_outside;
use crate::outside::Outside;
use crate::said::{PROGRAM, USAGE_FAULT, say_usage};
use host_system::{FolderMedia, ProgramFile, Progress};
use http_pages::Page;
use play_outside::{FileFault, MediaDir, WriteStep};
use play_viewer::{Desk, DeskStep, ViewerWords};
use std::alloc::{AllocGlobal, Global};
use std::fs::File;
use std::io::Eprint;
use std::net::{Net, TcpListener, TcpStream};
use std::rt::Files;
use std::sync::Wait;
use std::time::Clock;

/// The files of the system, the log that is followed, browsers, and receivers of status messages. It writes its lines to
/// standard error. Its state does not list its calls.
#[derive(Drop)]
pub struct RealDesk<R: Wait> {
    rt: R,
    /// The threads beside that of the viewer, until it is opened. There are none if the system has too few.
    helpers: Option<Helpers>,
    media: FolderMedia<R>,
    program: ProgramFile,
    /// What was opened, once it was.
    outside: Option<Outside>,
    faults: u64,
}

impl<R: Files + Eprint + AllocGlobal + Wait + Copy + Drop> RealDesk<R> {
    /// Returns the desk over a runtime, with these threads. No call of it, and no read of its folder, has failed yet. How
    /// much it reports on standard error about the clips that are read depends on `progress`.
    pub fn new(rt: R, helpers: Option<Helpers>, progress: Progress) -> RealDesk<R>
        ensures faults { result.faults ≡ 0 }
        ensures folder { ⟦<FolderMedia<R> as MediaDir>⟧.state result.media ≡ record { files = None; faults = 0 } }
    {
        RealDesk {
            rt,
            helpers,
            media: FolderMedia::new(rt, PROGRAM, progress),
            program: ProgramFile::find(&rt),
            outside: None,
            faults: 0,
        }
    }

    /// Counts a failed call.
    fn raise(&mut self)
        ensures { self.new ≡ record self.old { faults = one_more self.old.faults } }
    {
        self.faults = self.faults.saturating_add(1);
    }
}

impl<
    R: Net<Listener = TcpListener, Stream = TcpStream>
        + Files<File = File>
        + Wait
        + Clock
        + Eprint
        + AllocGlobal
        + Copy
        + Drop,
> Desk for RealDesk<R> {
    type Media = FolderMedia<R>;

    ghost state = { λ d. record { told = None; faults = d.faults } };

    ghost folder = { λ d. d.media };

    ghost with_folder = { λ d other. record d { media = other } };

    fn media(&mut self) -> &mut FolderMedia<R> {
        &mut self.media
    }

    /// Opens the log, the receivers of status messages and the address for browsers. Standard error says why one of them
    /// was not opened. Memory has run out also if the system has too few threads.
    fn open(&mut self, alloc: Global, words: &ViewerWords) -> Result<(), FileFault> {
        let Some(helpers) = self.helpers.take() else {
            return Err(FileFault::OutOfMemory);
        };
        match open_outside(&self.rt, alloc, words, helpers, &self.program) {
            Ok(outside) => {
                self.outside = Some(outside);
                Ok(())
            }
            Err(FileFault::Failed) => {
                self.raise();
                Err(FileFault::Failed)
            }
            Err(FileFault::OutOfMemory) => Err(FileFault::OutOfMemory),
        }
    }

    /// Waits for what comes next. A desk that was not opened has failed.
    fn next(&mut self, room: &mut [u8]) -> DeskStep {
        let step = match &mut self.outside {
            Some(outside) => outside.next(&self.rt, room),
            None => DeskStep::Failed,
        };
        if matches!(step, DeskStep::Failed) {
            self.raise();
        }
        step
    }

    fn answer(&mut self, page: Option<Page>) {
        if let Some(outside) = &mut self.outside {
            outside.answer(&self.rt, page);
        }
    }

    fn send(&mut self, datagrams: &[Vec<u8>]) {
        if let Some(outside) = &mut self.outside {
            outside.send(&self.rt, datagrams);
        }
    }

    /// Writes a line to standard error. Before the line of the usage fault it writes the usage of the program.
    fn say(&mut self, line: &str) -> WriteStep {
        if line == USAGE_FAULT {
            say_usage(&self.rt, &self.program);
        }
        match self.rt.eprintln(line) {
            Ok(()) => WriteStep::Took(line.len()),
            Err(_) => {
                self.raise();
                WriteStep::Failed
            }
        }
    }

    ghost folder_is = { λ _ _. refl };

    ghost state_stays = { λ _ _. refl };
}
