//! The whole program, over its words and its desk.
ghost use Rattle.std.specs.Prelude.{◌≡◌, ◌∷◌, IfOk, IfErr, codes, map, string_bytes};
ghost use Rattle.host_system.specs.Words.{run_fault_of};
ghost use Rattle.play_viewer.specs.Program.{RunsViewer};
ghost use Rattle.play_viewer.specs.Statuses.{HasItsCause};
ghost use Rattle.playview.specs.Ending.{EndsAtOnce};

use host_system::WordsFault;
use play_viewer::{Desk, view_main};
use server_setup::RunFault;
use std::alloc::Global;
use std::sync::Wait;
use std::thread::Threads;

/// Shows a log as `view_main` does with these words, and returns the exit status. If the words could not be read, the
/// status is 1, as for words that are no command line, or 5 if memory ran out; then the desk writes the line of that
/// fault, and does nothing else.
pub fn view<R: Threads + Wait + Sync + Copy + Drop, D: Desk>(
    rt: &R,
    alloc: Global,
    words: Result<Vec<String>, WordsFault>,
    desk: &mut D,
) -> u8
    ensures known { IfOk words (λ list. RunsViewer (codes "playview" ∷ map string_bytes list.items) result (
      record { folder = D.Media.state (D.folder desk.old); desk = D.state desk.old },
      record { folder = D.Media.state (D.folder desk.new); desk = D.state desk.new },
    )) }
    ensures causes { IfOk words (λ list. HasItsCause (codes "playview" ∷ map string_bytes list.items) result (
      record { folder = D.Media.state (D.folder desk.old); desk = D.state desk.old },
      record { folder = D.Media.state (D.folder desk.new); desk = D.state desk.new },
    )) }
    ensures unknown { IfErr words (λ fault. EndsAtOnce (run_fault_of fault) result (D.state desk.old) (D.state desk.new)) }
    ensures unread { IfErr words (λ _. D.folder desk.new ≡ D.folder desk.old) }
{
    match words {
        Ok(words) => view_main(rt, alloc, words.as_slice(), desk),
        Err(fault) => end(fault, desk),
    }
}

/// Reports the fault of words that could not be read, and returns its exit status.
fn end<D: Desk>(fault: WordsFault, desk: &mut D) -> u8
    ensures ends { EndsAtOnce (run_fault_of fault) result (D.state desk.old) (D.state desk.new) }
    ensures unread { D.folder desk.new ≡ D.folder desk.old }
{
    let fault = RunFault::from(fault);
    let line = fault.short_line().unwrap();
    let _ = desk.say(line);
    fault.status()
}
