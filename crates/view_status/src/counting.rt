//! The number of events of a journal.
ghost use Rattle.std.specs.Prelude.{◌≡◌, length};

use play_journal::Journal;

/// Returns the number of events of a journal.
pub(crate) fn event_count(journal: &Journal) -> u64
    ensures { result ≡ length journal.now.events }
{
    // The commands held and the ticks bound the number of events.
    let _held = journal.held();
    let mut count = 0;
    for run in journal.events() {
        count += run.times;
    }
    count
}
