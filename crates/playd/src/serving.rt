//! The whole program, over its words and its site.
ghost use Rattle.std.specs.Prelude.{◌≡◌, ◌∷◌, IfOk, IfErr, codes, map, string_bytes};
ghost use Rattle.play_server.specs.Program.{RunsServer};
ghost use Rattle.server_run.specs.Devices.{device_states};
ghost use Rattle.host_system.specs.Words.{run_fault_of};
ghost use Rattle.playd.specs.Serve.{EndsAtOnce};

use host_system::WordsFault;
use play_server::{Site, serve_main};
use server_setup::RunFault;
use std::alloc::Global;
use std::sync::Wait;
use std::thread::Threads;

/// Serves as `serve_main` does with these words, and returns the exit status. If the words could not be read, the
/// status is 1, as for words that are no command line, or 5 if memory ran out; then the site writes the line of that
/// fault, and does nothing else.
pub fn serve<R: Threads + Wait + Sync, E: Site>(
    rt: &R,
    alloc: Global,
    words: Result<Vec<String>, WordsFault>,
    site: &mut E,
) -> u8
    ensures known { IfOk words (λ list. RunsServer (device_states E.Clock.state E.Door.state E.Out.state) E.Door.Line.state
        (codes "playd" ∷ map string_bytes list.items) result (
          record { folder = E.Media.state (E.folder site.old); site = E.state site.old },
          record { folder = E.Media.state (E.folder site.new); site = E.state site.new },
        )) }
    ensures unknown { IfErr words (λ fault. EndsAtOnce (run_fault_of fault) result (E.state site.old) (E.state site.new)) }
    ensures unread { IfErr words (λ _. E.folder site.new ≡ E.folder site.old) }
{
    match words {
        Ok(words) => serve_main(rt, alloc, words.as_slice(), site),
        Err(fault) => end(fault, site),
    }
}

/// Reports the fault of words that could not be read, and returns its exit status.
fn end<E: Site>(fault: WordsFault, site: &mut E) -> u8
    ensures ends { EndsAtOnce (run_fault_of fault) result (E.state site.old) (E.state site.new) }
    ensures unread { E.folder site.new ≡ E.folder site.old }
{
    let fault = RunFault::from(fault);
    let line = fault.short_line().unwrap();
    let _ = site.say(line);
    fault.status()
}
