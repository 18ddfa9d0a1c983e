//! The program: the arguments, the folder, the desk and the exit status.
ghost use Rattle.std.specs.Prelude.{◌≡◌, ◌≤◌, ◌∷◌, codes, map, string_bytes};
ghost use Rattle.play_viewer.specs.Program.{OpensAndViews, RunsLine, RunsViewer, fault_of_words};
ghost use Rattle.play_viewer.specs.Statuses.{HasItsCause};

use crate::desk::Desk;
use crate::ending::end_with;
use crate::viewing::view_log;
use crate::words::{ViewerWords, ViewerWordsFault};
use live_view::{LiveView, ViewOptions};
use server_setup::{RunFault, ServerSetup, laws, set_up};
use std::alloc::Global;
use std::sync::Wait;
use std::thread::Threads;

/// Views a log: parses the arguments, reads the configuration and the clips, opens the desk, and answers requests and sends status
/// messages by what was read of the log, until the desk ends it.
///
/// `words` are the arguments of [`ViewerWords::read`](crate::ViewerWords::read). They are checked first, then the configuration is
/// read and checked, then the clips are read, then the desk is opened, once, and then the viewing begins. The first fault decides the
/// exit status, which is returned. If it is known what the files of the folder hold, their first fault decides it, and without one it
/// is 0, or 2 for the log, unless a read of the folder or the desk fails or memory runs out.
///
/// | Status | Cause | The line that the desk prints |
/// |---|---|---|
/// | 0 | the desk ended the viewing | |
/// | 1 | the arguments are not a valid command line | `E usage` |
/// | 2 | the configuration is not TOML, or a key of it is refused | `E config text`, `E config key KEY` |
/// | 2 | the line of this number is none of a log, or the log is too long | `E line n`, `E input too long` |
/// | 3 | two clip files have one name, or the clip files are too large | `E media twice NAME`, `E media total n` |
/// | 4 | a read of the folder or the desk failed | `E device` |
/// | 5 | memory ran out | `E memory` |
///
/// If memory runs out for a line with a key, a name or a number, the status is 5 and the line is `E memory`. A line that cannot be
/// printed changes no status.
pub fn view_main<R: Threads + Wait + Sync + Copy + Drop, D: Desk>(
    rt: &R,
    alloc: Global,
    words: &[String],
    desk: &mut D,
) -> u8
    ensures runs { RunsViewer (codes "playview" ∷ map string_bytes words.now) result (
      record { folder = D.Media.state (D.folder desk.old); desk = D.state desk.old },
      record { folder = D.Media.state (D.folder desk.new); desk = D.state desk.new },
    ) }
    ensures causes { HasItsCause (codes "playview" ∷ map string_bytes words.now) result (
      record { folder = D.Media.state (D.folder desk.old); desk = D.state desk.old },
      record { folder = D.Media.state (D.folder desk.new); desk = D.state desk.new },
    ) }
{
    laws::first_fault_decides();
    match view_words(rt, alloc, words, desk) {
        Ok(()) => 0,
        Err(fault) => end_with(alloc, &fault, desk),
    }
}

/// Parses the arguments, sets up, and views.
fn view_words<R: Threads + Wait + Sync + Copy + Drop, D: Desk>(
    rt: &R,
    alloc: Global,
    words: &[String],
    desk: &mut D,
) -> Result<(), RunFault>
    ensures { RunsLine (codes "playview" ∷ map string_bytes words.now) result (
      record { folder = D.Media.state (D.folder desk.old); desk = D.state desk.old },
      record { folder = D.Media.state (D.folder desk.new); desk = D.state desk.new },
    ) }
{
    let words = ViewerWords::read(alloc, words)?;
    let setup = set_up(rt, alloc, words.config.as_str(), desk.media())?;
    view_setup(rt, alloc, &words, setup, desk)
}

/// Opens the desk, and views on a setup.
fn view_setup<R: Threads + Wait + Sync + Copy + Drop, D: Desk>(
    rt: &R,
    alloc: Global,
    words: &ViewerWords,
    setup: ServerSetup,
    desk: &mut D,
) -> Result<(), RunFault>
    requires workers { 1 ≤ words.now.workers }
    requires few { words.now.workers ≤ 64 }
    ensures views { OpensAndViews words.now setup result (D.state desk.old) (D.state desk.new) }
    ensures folder { D.folder desk.new ≡ D.folder desk.old }
{
    desk.open(alloc, words)?;
    let options = ViewOptions {
        pictures: words.pictures,
        workers: words.workers,
    };
    let view = LiveView::new(*rt, alloc, setup, options)?;
    view_log(rt, alloc, view, desk)
}

impl From<ViewerWordsFault> for RunFault {
    ghost from_gives = { λ error fault. fault ≡ fault_of_words error };

    fn from(fault: ViewerWordsFault) -> RunFault {
        match fault {
            ViewerWordsFault::Usage => RunFault::Usage,
            ViewerWordsFault::OutOfMemory => RunFault::OutOfMemory,
        }
    }
}
