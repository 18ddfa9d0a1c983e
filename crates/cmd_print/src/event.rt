//! Events of a history, as lines of a script.
ghost use Rattle.std.specs.Prelude.{◌≡◌, ◌≤◌, ◌∷◌, ◌++◌, [], replicate, codes, encode_utf8_all};
ghost use Rattle.std.specs.List.{flat_map};
ghost use Rattle.play_outside.specs.Sink.{Sends};
ghost use Rattle.play_outside.specs.Gathered.{Adds};
ghost use Rattle.history_model.specs.scripts.History.{same_tag, server};
ghost use Rattle.history_model.specs.scripts.Output.{tag_text};
ghost use Rattle.history_model.specs.text.Commands.{command_text};
ghost use Rattle.history_model.specs.text.History.{IsRun, batch_lines, command_line, connection_line, history_text, stop_line, tick_line, tick_lines};

use crate::command::add_command;
use crate::text::GatheredText;
use history_model::MAX_TICKS_PER_LINE;
use itoa::Buffer;
use play_outside::{Gather, Sent, Sink};
use play_types::{Cmd, Event, MediaNames, Tag};

/// Writes the lines of a script for an event that a history has `times` times in a row: at least once, and only once if it is
/// no tick. Lines of at most 4,096 bytes together are one write.
///
/// Clips are named as in `media`. The result is `Failed` only if `to` failed, and then a prefix of the lines was written.
pub fn print_event<K: Sink>(event: &Event, times: u64, media: &MediaNames, to: &mut K) -> Sent
    requires { IsRun event.now times }
    ensures { Sends result (history_text media.now (replicate times event.now)) (K.state to.old) (K.state to.new) }
{
    let mut text = GatheredText::new();
    add_event(event, times, media, &mut text, to)?;
    text.finish(to)
}

/// Adds the lines that `print_event` writes to `text`, so that the lines of many events go out in one write.
///
/// What `text` holds afterwards is for the caller to write. The result is `Failed` only if `to` failed; then a prefix of
/// what `text` held and of the lines was written, and `text` is empty.
pub fn add_event<const ROOM: usize, K: Sink>(
    event: &Event,
    times: u64,
    media: &MediaNames,
    text: &mut Gather<ROOM>,
    to: &mut K,
) -> Sent
    requires { IsRun event.now times }
    ensures { Adds result (text.old ++ history_text media.now (replicate times event.now)) text.new (K.state to.old) (K.state to.new) }
{
    match event {
        Event::Do(tag, cmd) => add_command_line(*tag, cmd, media, text, to),
        Event::Batch(tag, cmds) => add_batch(*tag, cmds.as_slice(), media, text, to),
        Event::Tick => add_ticks(times, text, to),
        Event::Stop(tag) => add_stop(*tag, text, to),
    }
}

/// Adds the line of a command, as `add_event` does.
pub fn add_command_line<const ROOM: usize, K: Sink>(
    tag: Tag,
    cmd: &Cmd,
    media: &MediaNames,
    text: &mut Gather<ROOM>,
    to: &mut K,
) -> Sent
    ensures { Adds result (text.old ++ command_line media.now tag cmd.now) text.new (K.state to.old) (K.state to.new) }
{
    add_tag(tag, text, to)?;
    add_command(cmd, media, text, to)?;
    text.add(b"\n", to)
}

/// Adds the lines of commands that happen together, as `add_event` does.
pub fn add_batch<const ROOM: usize, K: Sink>(
    tag: Tag,
    cmds: &[Cmd],
    media: &MediaNames,
    text: &mut Gather<ROOM>,
    to: &mut K,
) -> Sent
    ensures { Adds result (text.old ++ batch_lines media.now tag cmds.now) text.new (K.state to.old) (K.state to.new) }
{
    add_line(tag, b"BEGIN", text, to)?;
    add_commands(tag, cmds, media, text, to)?;
    add_line(tag, b"COMMIT", text, to)
}

/// Adds a line for each command.
fn add_commands<const ROOM: usize, K: Sink>(
    tag: Tag,
    cmds: &[Cmd],
    media: &MediaNames,
    text: &mut Gather<ROOM>,
    to: &mut K,
) -> Sent
    ensures { Adds result (text.old ++ flat_map (command_line media.now tag) cmds.now) text.new (K.state to.old) (K.state to.new) }
{
    for cmd in cmds {
        add_command_line(tag, cmd, media, text, to)?;
    }
    Sent::All
}

/// Adds the lines of ticks in a row, as `add_event` does: at least one.
pub fn add_ticks<const ROOM: usize, K: Sink>(
    times: u64,
    text: &mut Gather<ROOM>,
    to: &mut K,
) -> Sent
    requires { 1 ≤ times }
    ensures { Adds result (text.old ++ tick_lines times) text.new (K.state to.old) (K.state to.new) }
{
    let most = u64::from(MAX_TICKS_PER_LINE);
    for _turn in 0..(times - 1) / most {
        add_tick_line(most, text, to)?;
    }
    add_tick_line((times - 1) % most + 1, text, to)
}

/// Adds the line of a number of ticks.
fn add_tick_line<const ROOM: usize, K: Sink>(
    count: u64,
    text: &mut Gather<ROOM>,
    to: &mut K,
) -> Sent
    ensures { Adds result (text.old ++ tick_line count) text.new (K.state to.old) (K.state to.new) }
{
    text.add_parts(&[b"T ", Buffer::new().format(count).as_bytes(), b"\n"], to)
}

/// Adds the line of a stop, as `add_event` does: of the server itself, whose tag has two zeros, or of a connection.
pub fn add_stop<const ROOM: usize, K: Sink>(tag: Tag, text: &mut Gather<ROOM>, to: &mut K) -> Sent
    ensures { Adds result (text.old ++ stop_line tag) text.new (K.state to.old) (K.state to.new) }
{
    if is_server(tag) {
        text.add(b"X\n", to)
    } else {
        add_line(tag, b"KILL", text, to)
    }
}

/// Returns whether a tag is that of the server itself.
fn is_server(tag: Tag) -> bool
    ensures { result ≡ same_tag tag server }
{
    tag.worker == 0 && tag.session == 0
}

/// Adds a line of a connection: its tag, and `words`.
fn add_line<const ROOM: usize, K: Sink>(
    tag: Tag,
    words: &[u8],
    text: &mut Gather<ROOM>,
    to: &mut K,
) -> Sent
    ensures { Adds result (text.old ++ connection_line tag words.now) text.new (K.state to.old) (K.state to.new) }
{
    add_tag(tag, text, to)?;
    text.add_parts(&[words, b"\n"], to)
}

/// Adds the tag at the beginning of a line of a connection: its worker, its session and a space, as `1.2 `.
fn add_tag<const ROOM: usize, K: Sink>(tag: Tag, text: &mut Gather<ROOM>, to: &mut K) -> Sent
    ensures { Adds result (text.old ++ tag_text tag) text.new (K.state to.old) (K.state to.new) }
{
    text.add_parts(
        &[
            Buffer::new().format(tag.worker).as_bytes(),
            b".",
            Buffer::new().format(tag.session).as_bytes(),
            b" ",
        ],
        to,
    )
}
