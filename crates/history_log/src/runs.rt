//! The text of the runs in a room.
ghost use Rattle.std.specs.Prelude.{◌≡◌, ◌++◌, []};
ghost use Rattle.std.specs.List.{flat_map};
ghost use Rattle.play_journal.specs.Room.{logged_run};
ghost use Rattle.play_journal.specs.Runs.{AreApart, HasItsTimes, events_of};
ghost use Rattle.play_outside.specs.Gathered.{Adds};
ghost use Rattle.play_outside.specs.Sink.{Sends};
ghost use Rattle.history_model.specs.text.History.{history_text};

use cmd_print::{add_batch, add_command_line, add_stop, add_ticks, laws};
use play_journal::{LogRoom, LogRun};
use play_outside::{Gather, Sent, Sink};
use play_types::MediaNames;

/// How many bytes of the text are gathered before they are written.
pub(crate) const GATHERED: usize = 65_536;

/// Writes the text of the runs of a room, in which clips are named as in `names`. It gathers whole lines in `text`, which is
/// empty before and afterwards.
///
/// The result is `Failed` only if `log` failed, and then a prefix of the text was written.
pub(crate) fn write_runs<K: Sink>(
    room: &LogRoom,
    names: &MediaNames,
    text: &mut Gather<GATHERED>,
    log: &mut K,
) -> Sent
    requires none { text.old ≡ [] }
    requires apart { AreApart room.now }
    ensures sends { Sends result (history_text names.now (flat_map events_of room.now)) (K.state log.old) (K.state log.new) }
    ensures none { text.new ≡ [] }
{
    laws::history_text_by_runs();
    for run in room.runs() {
        add_run(run, names, text, log)?;
    }
    text.finish(log)
}

/// Adds the lines of a run to the gathered text, as `add_event` of `cmd_print` does.
fn add_run<K: Sink>(
    run: LogRun<'_>,
    names: &MediaNames,
    text: &mut Gather<GATHERED>,
    log: &mut K,
) -> Sent
    requires { HasItsTimes (logged_run run).event (logged_run run).times }
    ensures { Adds result (text.old ++ history_text names.now (events_of (logged_run run.entry))) text.new (K.state log.old) (K.state log.new) }
{
    match run {
        LogRun::Do(tag, cmd) => add_command_line(tag, cmd, names, text, log),
        LogRun::Batch(tag, cmds) => add_batch(tag, cmds, names, text, log),
        LogRun::Ticks(times) => add_ticks(times, text, log),
        LogRun::Stop(tag) => add_stop(tag, text, log),
    }
}
