//! The end of the program after a fault.
ghost use Rattle.std.specs.Prelude.{◌≡◌, ◌∷◌, ◌++◌, []};
ghost use Rattle.server_setup.specs.Fault.{fault_line, status_of};
ghost use Rattle.server_setup.specs.declared.fault.RunFault.TheVariants.{MediaTotal, OutOfMemory};
ghost use Rattle.play_server.specs.Program.{SaysLine};
ghost use Rattle.play_server.specs.inner.Ending.{EndsWithFault};

use crate::site::Site;
use arrayvec::ArrayString;
use itoa::Buffer;
use server_setup::RunFault;
use std::alloc::Global;

/// The maximum length in bytes of the line `E media total n`, without its line feed.
const TOTAL_BYTES: usize = 34;

/// Prints the line of `fault`, and returns its exit status.
///
/// If memory runs out for the line, it prints `E memory` instead, and returns 5.
pub(crate) fn end_with<E: Site>(alloc: Global, fault: &RunFault, site: &mut E) -> u8
    ensures ends { EndsWithFault fault.now result (E.state site.old) (E.state site.new) }
    ensures folder { E.folder site.new ≡ E.folder site.old }
{
    if let Some(line) = fault.short_line() {
        return say(line, fault, site);
    }
    if let RunFault::MediaTotal(total) = fault {
        return say(total_line(*total).as_str(), fault, site);
    }
    match fault.line(alloc) {
        Ok(line) => say(line.as_str(), fault, site),
        Err(_) => end_without_memory(site),
    }
}

/// Prints the line of the fault that memory ran out, and returns its exit status.
fn end_without_memory<E: Site>(site: &mut E) -> u8
    ensures said { SaysLine OutOfMemory (E.state site.old) (E.state site.new) }
    ensures status { result ≡ 5 }
    ensures folder { E.folder site.new ≡ E.folder site.old }
{
    let fault = RunFault::OutOfMemory;
    let line = fault.short_line().unwrap();
    say(line, &fault, site)
}

/// Prints `line`, which is the line of `fault`, and returns the exit status of `fault`, even if the line cannot be printed.
fn say<E: Site>(line: &str, fault: &RunFault, site: &mut E) -> u8
    requires { line.now ++ 10 ∷ [] ≡ fault_line fault.now }
    ensures said { SaysLine fault.now (E.state site.old) (E.state site.new) }
    ensures status { result ≡ status_of fault.now }
    ensures folder { E.folder site.new ≡ E.folder site.old }
{
    let _ = site.say(line);
    fault.status()
}

/// Returns the line, without its line feed, for clip files of `total` bytes in all.
fn total_line(total: u64) -> ArrayString<TOTAL_BYTES>
    ensures { result.bytes ++ 10 ∷ [] ≡ fault_line (MediaTotal total) }
{
    let mut line = ArrayString::new();
    line.push_str("E media total ");
    line.push_str(Buffer::new().format(total));
    line
}
