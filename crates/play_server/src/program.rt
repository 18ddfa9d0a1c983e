//! The program: the arguments, the folder, the devices and the exit status.
ghost use Rattle.std.specs.Prelude.{◌≡◌, ◌≤◌, ◌∷◌, Err, codes, map, option_map, string_bytes};
ghost use Rattle.play_server.specs.Program.{RunsLine, RunsOn, RunsServer, asked_of, fault_of_words};
ghost use Rattle.play_server.specs.inner.Resuming.{result_of};
ghost use Rattle.server_run.specs.Devices.{device_states};
ghost use Rattle.play_server.specs.Statuses.{HasItsCause};

use crate::ending::end_with;
use crate::resuming::serve_after;
use crate::site::{FinishStep, Site};
use crate::words::{ServerWords, ServerWordsFault};
use server_run::{ServeEnd, Served, serve};
use server_setup::{RunFault, ServerSetup, laws, set_up};
use std::alloc::Global;
use std::sync::Wait;
use std::thread::Threads;

/// Serves clients: parses the arguments, reads the configuration and the clips, takes the devices of a run from `site`, and serves
/// until the stage is stopped.
///
/// `words` are the arguments of [`ServerWords::read`](crate::ServerWords::read). They are checked first, then the configuration is
/// read and checked, then the clips are read, then the history that the run goes on from is read, if the arguments name one, then the
/// site is asked for devices, once, and then the run begins. The first fault decides the exit status, which is returned.
///
/// | Status | Cause | The line that the site prints |
/// |---|---|---|
/// | 0 | a client, the clock or the limit of ticks ended the run, and no device failed | |
/// | 1 | the arguments are not a valid command line | `E usage` |
/// | 2 | the configuration is not TOML, or a key of it is refused | `E config text`, `E config key KEY` |
/// | 2 | the line of this number is none of a history there, or the history is too long | `E resume n`, `E input too long` |
/// | 3 | two clip files have one name, or the clip files are too large | `E media twice NAME`, `E media total n` |
/// | 4 | a read of the folder or of a history, the site, or a device of the run failed, or the history did not get its name | `E device` |
/// | 5 | memory ran out before a call was made on a device | `E memory` |
///
/// The site takes the devices back however the run ended; a history that does not get its name changes the status only of a run
/// that would end with 0. If memory runs out for a line with a key, a name or the number of a line, the status is 5 and the line is `E memory`. A line that
/// cannot be printed changes no status.
pub fn serve_main<R: Threads + Wait + Sync, E: Site>(
    rt: &R,
    alloc: Global,
    words: &[String],
    site: &mut E,
) -> u8
    ensures runs { RunsServer (device_states E.Clock.state E.Door.state E.Out.state) E.Door.Line.state
        (codes "playd" ∷ map string_bytes words.now) result (
          record { folder = E.Media.state (E.folder site.old); site = E.state site.old },
          record { folder = E.Media.state (E.folder site.new); site = E.state site.new },
        ) }
    ensures causes { HasItsCause (device_states E.Clock.state E.Door.state E.Out.state) E.Door.Line.state
        (codes "playd" ∷ map string_bytes words.now) result (
          record { folder = E.Media.state (E.folder site.old); site = E.state site.old },
          record { folder = E.Media.state (E.folder site.new); site = E.state site.new },
        ) }
{
    laws::first_fault_decides();
    match serve_words(rt, alloc, words, site) {
        Ok(()) => 0,
        Err(fault) => end_with(alloc, &fault, site),
    }
}

/// Parses the arguments, sets up, and serves, from nothing or from a history.
fn serve_words<R: Threads + Wait + Sync, E: Site>(
    rt: &R,
    alloc: Global,
    words: &[String],
    site: &mut E,
) -> Result<(), RunFault>
    ensures { RunsLine (device_states E.Clock.state E.Door.state E.Out.state) E.Door.Line.state
        (codes "playd" ∷ map string_bytes words.now) result (
          record { folder = E.Media.state (E.folder site.old); site = E.state site.old },
          record { folder = E.Media.state (E.folder site.new); site = E.state site.new },
        ) }
{
    let words = ServerWords::read(alloc, words)?;
    let setup = set_up(rt, alloc, words.config.as_str(), site.media())?;
    match &words.resume {
        Some(path) => serve_after(rt, alloc, &words, path.as_str(), setup, site),
        None => serve_setup(rt, alloc, &words, &setup, site),
    }
}

/// Takes devices for a configuration and clips from the site, serves, and gives them back.
fn serve_setup<R: Threads + Wait + Sync, E: Site>(
    rt: &R,
    alloc: Global,
    words: &ServerWords,
    setup: &ServerSetup,
    site: &mut E,
) -> Result<(), RunFault>
    requires workers { 1 ≤ words.now.workers }
    requires few { words.now.workers ≤ 64 }
    ensures run { RunsOn (device_states E.Clock.state E.Door.state E.Out.state) E.Door.Line.state
        (asked_of setup.now (option_map string_bytes words.now.journal)) result (E.state site.old, E.state site.new) }
    ensures folder { E.folder site.new ≡ E.folder site.old }
{
    let devices = site.ready(alloc, &setup.config, journal_path(words))?;
    let served = serve(
        rt,
        alloc,
        &setup.config,
        &setup.media,
        words.workers,
        devices,
    );
    let Served { devices, end } = served;
    let step = site.finish(devices);
    result_of(end, step)
}

/// Returns the result of a run that ended with `end`, after the site took the devices back.
pub(crate) fn result_of(end: ServeEnd, step: FinishStep) -> Result<(), RunFault>
    ensures { result ≡ result_of end step }
{
    match (end, step) {
        (ServeEnd::Ended, FinishStep::Done) => Ok(()),
        (ServeEnd::Ended, FinishStep::Failed) => Err(RunFault::Device),
        (ServeEnd::DeviceFault, _) => Err(RunFault::Device),
        (ServeEnd::OutOfMemory, _) => Err(RunFault::OutOfMemory),
    }
}

/// Returns the path of the history's file, if there is one.
pub(crate) fn journal_path(words: &ServerWords) -> Option<&str>
    ensures { option_map (λ path. path.now) result ≡ option_map string_bytes words.now.journal }
{
    words.journal.as_ref().map(|path| path.as_str())
}

impl From<ServerWordsFault> for RunFault {
    ghost from_gives = { λ error fault. fault ≡ fault_of_words error };

    fn from(fault: ServerWordsFault) -> RunFault {
        match fault {
            ServerWordsFault::Usage => RunFault::Usage,
            ServerWordsFault::OutOfMemory => RunFault::OutOfMemory,
        }
    }
}
