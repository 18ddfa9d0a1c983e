//! The lines of an event, in memory.
ghost use Rattle.std.specs.Prelude.{◌≡◌, ◌==◌, ◌++◌, [], IfOk, OnOk, None, Some, if◌then◌else◌};
ghost use Rattle.std.specs.String.{string_bytes};
ghost use Rattle.view_status.specs.Events.{event_text};
ghost use Rattle.view_status.specs.Tokens.{member, text};

use crate::document::Document;
use cmd_print::print_event;
use play_outside::{Sent, Sink, WriteStep};
use play_types::{Event, MediaNames};
use std::alloc::{AllocError, Global};

/// Writes the lines of an event in the text of a history as a member.
pub(crate) fn write_text(
    alloc: Global,
    event: &Event,
    names: &MediaNames,
    document: &mut Document,
) -> Result<(), AllocError>
    ensures { OnOk result (document.new ≡ document.old ++ member "text" (text (event_text names.now event.now))) }
{
    let text = event_text(alloc, event, names)?;
    document.text_member("text", text.as_str())
}

/// Returns the lines of an event in the text of a history, in which clips are named as in `names`.
fn event_text(alloc: Global, event: &Event, names: &MediaNames) -> Result<String, AllocError>
    ensures { IfOk result (λ text. string_bytes text ≡ event_text names.now event.now) }
{
    let mut lines = Lines::new(alloc);
    match print_event(event, 1, names, &mut lines) {
        Sent::All => String::from_utf8_lossy(alloc, &lines.taken),
        Sent::Failed => Err(AllocError),
    }
}

/// A sink that keeps what it takes. A write fails if memory runs out, and then so does each later one.
#[derive(Drop)]
struct Lines {
    taken: Vec<u8>,
    faults: u64,
}

impl Lines {
    /// Creates a sink that has taken nothing, without allocating.
    fn new(alloc: Global) -> Lines
        ensures taken { result.taken.items ≡ [] }
        ensures faults { result.faults ≡ 0 }
    {
        Lines {
            taken: Vec::new(alloc),
            faults: 0,
        }
    }
}

impl Sink for Lines {
    ghost state = { λ l. record { taken = Some l.taken.items; faults = l.faults; mark = 0; at_fault = if l.faults == 0 then None else Some l.taken.items; reading = None; idle = 0 } };

    fn write(&mut self, piece: &[u8]) -> WriteStep {
        if self.faults > 0 || self.taken.extend_from_slice(piece).is_err() {
            self.faults = self.faults.saturating_add(1);
            return WriteStep::Failed;
        }
        WriteStep::Took(piece.len())
    }
}
