//! The whole program, over its words and its devices.
ghost use Rattle.std.specs.Prelude.{◌≡◌, IfOk, IfErr, map, string_bytes};
ghost use Rattle.server_setup.specs.Fault.{fault_line, status_of};
ghost use Rattle.run_script.specs.Program.{PlaysScript, WritesFaultLine};
ghost use Rattle.host_system.specs.Words.{run_fault_of};
ghost use Rattle.playrun.specs.Play.{EndsAtOnce};

use super::complaint::say_usage;
use host_system::WordsFault;
use play_outside::{MediaDir, Sink, Source};
use run_script::{Devices, Teller, run_and_tell};
use server_setup::RunFault;
use std::alloc::Global;
use std::io::Eprint;
use std::rt::Files;
use std::thread::Threads;

/// Plays a script as `run_and_tell` does with these words, and returns the exit status. If the words could not be read,
/// the status is 1, as for words that are no command line, or 5 if memory ran out; nothing is read then. At status 1
/// standard error gets the usage of the program.
pub fn play<
    R: Threads + Sync + Eprint + Files + AllocGlobal,
    I: Source,
    M: MediaDir,
    O: Sink,
    T: Teller,
>(
    rt: &R,
    alloc: Global,
    words: Result<Vec<String>, WordsFault>,
    devices: Devices<'_, I, M, O>,
    teller: &mut T,
) -> u8
    ensures known { IfOk words (λ list. PlaysScript (map string_bytes list.items) result
        (record { media = M.state devices.entry.media.now; input = I.state devices.entry.input.now; out = O.state devices.entry.out.now })
        (record { media = M.state devices.exit.1.0.now; input = I.state devices.exit.0.now; out = O.state devices.exit.1.1.0.now })) }
    ensures unknown { IfErr words (λ fault. EndsAtOnce (run_fault_of fault) result
        (record { media = M.state devices.entry.media.now; input = I.state devices.entry.input.now; out = O.state devices.entry.out.now })
        (record { media = M.state devices.exit.1.0.now; input = I.state devices.exit.0.now; out = O.state devices.exit.1.1.0.now })) }
{
    let status = match words {
        Ok(words) => run_and_tell(rt, alloc, words.as_slice(), devices, teller),
        Err(fault) => end(RunFault::from(fault), devices.out),
    };
    if status == RunFault::Usage.status() {
        say_usage(rt);
    }
    status
}

/// Writes the line of a fault, and returns its exit status.
fn end<O: Sink>(fault: RunFault, out: &mut O) -> u8
    ensures status { result ≡ status_of fault }
    ensures said { WritesFaultLine (fault_line fault) (O.state out.old) (O.state out.new) }
{
    let _ = fault.send_line(out);
    fault.status()
}
