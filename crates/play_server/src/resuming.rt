//! A run that goes on from a history.
ghost use Rattle.std.specs.Prelude.{◌≡◌, ◌≤◌, option_map, string_bytes};
ghost use Rattle.clip_format.specs.Table.{media_names};
ghost use Rattle.server_run.specs.Devices.{device_states};
ghost use Rattle.play_server.specs.Program.{GoesOn, OpensNothing, RunsOpened, asked_after};
ghost use Rattle.play_server.specs.inner.Resuming.{CanGoOn, Resumes};

use crate::program::{journal_path, result_of};
use crate::resumed::Resumed;
use crate::site::Site;
use crate::words::ServerWords;
use history_reader::{ReadHistory, read_history};
use server_run::{Beginning, Served, serve_from};
use server_setup::{RunFault, ServerSetup};
use std::alloc::Global;
use std::sync::Wait;
use std::thread::Threads;

/// Opens the history at `path`, reads it on a setup, and serves in a run that goes on from it.
pub(crate) fn serve_after<R: Threads + Wait + Sync, E: Site>(
    rt: &R,
    alloc: Global,
    words: &ServerWords,
    path: &str,
    setup: ServerSetup,
    site: &mut E,
) -> Result<(), RunFault>
    requires workers { 1 ≤ words.now.workers }
    requires few { words.now.workers ≤ 64 }
    requires names { setup.names ≡ media_names setup.media }
    ensures run { Resumes (device_states E.Clock.state E.Door.state E.Out.state) E.Door.Line.state
        (record { setup = setup; from = path.now; path = option_map string_bytes words.now.journal }) result (E.state site.old, E.state site.new) }
    ensures folder { E.folder site.new ≡ E.folder site.old }
{
    let mut file = site.resume(alloc, path)?;
    let mut teller = site.teller();
    let read = read_history(alloc, setup, &mut file, &mut teller);
    let resumed = match &read {
        Ok(history) => Some(Resumed::of(history)),
        Err(_) => None,
    };
    site.tell_resumed(path, teller, resumed);
    serve_history(rt, alloc, words, read?, site)
}

/// Serves in a run that goes on from a history that was read.
fn serve_history<R: Threads + Wait + Sync, E: Site>(
    rt: &R,
    alloc: Global,
    words: &ServerWords,
    history: ReadHistory,
    site: &mut E,
) -> Result<(), RunFault>
    requires workers { 1 ≤ words.now.workers }
    requires few { words.now.workers ≤ 64 }
    requires goes_on { CanGoOn history }
    ensures run { GoesOn (device_states E.Clock.state E.Door.state E.Out.state) E.Door.Line.state
        (asked_after history (option_map string_bytes words.now.journal)) result (E.state site.old, E.state site.new) }
    ensures folder { E.folder site.new ≡ E.folder site.old }
{
    let ReadHistory { stage, setup, .. } = history;
    let (config, media) = (&setup.config, &setup.media);
    let beginning = Beginning::after(rt, alloc, config, media, words.workers, stage)?;
    let devices = site.ready(alloc, config, journal_path(words))?;
    let served = serve_from(rt, alloc, config, media, beginning, devices);
    let Served { devices, end } = served;
    let step = site.finish(devices);
    result_of(end, step)
}
