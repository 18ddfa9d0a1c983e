//! The text of a history.
ghost use Rattle.play_outside.specs.Sink.{Sends};
ghost use Rattle.history_model.specs.text.History.{history_text};

use cmd_print::{add_event, laws};
use play_journal::Journal;
use play_outside::{Gather, Sent, Sink};
use play_types::MediaNames;

/// How many bytes of the text are gathered before they are written.
const GATHERED: usize = 65_536;

/// Writes the text of the history of `journal`, in which clips are named as in `media`. A text of at most 65,536 bytes is
/// one write.
///
/// The result is `Failed` only if `to` failed, and then a prefix of the text was written.
pub(crate) fn write_history<K: Sink>(journal: &Journal, media: &MediaNames, to: &mut K) -> Sent
    ensures { Sends result (history_text media.now journal.now.events) (K.state to.old) (K.state to.new) }
{
    laws::history_text_by_runs();
    let mut text = Gather::<GATHERED>::new();
    for run in journal.events() {
        add_event(run.event, run.times, media, &mut text, to)?;
    }
    text.finish(to)
}
