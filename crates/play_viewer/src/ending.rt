//! The end of the program after a fault.
ghost use Rattle.std.specs.Prelude.{◌≡◌, ◌∷◌, ◌++◌, []};
ghost use Rattle.server_setup.specs.Fault.{fault_line, status_of};
ghost use Rattle.server_setup.specs.declared.fault.RunFault.TheVariants.{OutOfMemory};
ghost use Rattle.play_viewer.specs.Program.{EndsWithFault, SaysLine};

use crate::desk::Desk;
use server_setup::RunFault;
use std::alloc::Global;

/// Prints the line of `fault`, and returns its exit status.
///
/// If memory runs out for the line, it prints `E memory` instead, and returns 5.
pub(crate) fn end_with<D: Desk>(alloc: Global, fault: &RunFault, desk: &mut D) -> u8
    ensures ends { EndsWithFault fault.now result (D.state desk.old) (D.state desk.new) }
    ensures folder { D.folder desk.new ≡ D.folder desk.old }
{
    if let Some(line) = fault.short_line() {
        return say(line, fault, desk);
    }
    match fault.line(alloc) {
        Ok(line) => say(line.as_str(), fault, desk),
        Err(_) => end_without_memory(desk),
    }
}

/// Prints the line of the fault that memory ran out, and returns its exit status.
fn end_without_memory<D: Desk>(desk: &mut D) -> u8
    ensures said { SaysLine OutOfMemory (D.state desk.old) (D.state desk.new) }
    ensures status { result ≡ 5 }
    ensures folder { D.folder desk.new ≡ D.folder desk.old }
{
    let fault = RunFault::OutOfMemory;
    let line = fault.short_line().unwrap();
    say(line, &fault, desk)
}

/// Prints `line`, which is the line of `fault`, and returns the exit status of `fault`, even if the line cannot be printed.
fn say<D: Desk>(line: &str, fault: &RunFault, desk: &mut D) -> u8
    requires { line.now ++ 10 ∷ [] ≡ fault_line fault.now }
    ensures said { SaysLine fault.now (D.state desk.old) (D.state desk.new) }
    ensures status { result ≡ status_of fault.now }
    ensures folder { D.folder desk.new ≡ D.folder desk.old }
{
    let _ = desk.say(line);
    fault.status()
}
