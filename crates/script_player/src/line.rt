//! Lines of a script.
ghost use Rattle.std.specs.Prelude.{◌≡◌};
ghost use Rattle.history_model.specs.scripts.Line.{addressed_parts, after_t, after_x, meaning, said_line, short_meaning};
ghost use Rattle.script_player.specs.inner.Line.{line_view};

use amcp_text::number_within;
use history_model::{MAX_SCRIPT_LINE_BYTES, MAX_TICKS_PER_LINE};
use play_schedule::{parts_at, tag_of};
use play_types::Tag;

/// The meaning of a line.
#[derive(Clone, Copy)]
pub enum ScriptLine<'a> {
    /// Nothing: the line is empty or a comment.
    Comment,
    /// Ticks of all channels: how many, at least 1.
    Ticks(u32),
    /// A line of a connection: its tag and its text.
    Said(Tag, &'a [u8]),
    /// The server's own stop.
    Stop,
    /// Not a valid line of a script.
    Rejected,
}

/// A line of a script, without its end, and its number, from 1.
#[derive(Clone, Copy)]
pub(crate) struct NumberedLine<'a> {
    pub number: u64,
    pub bytes: &'a [u8],
}

/// Returns the meaning of a line without its end.
pub fn meaning(line: &[u8]) -> ScriptLine<'_>
    ensures { line_view result ≡ meaning line.now }
{
    if line.len() > MAX_SCRIPT_LINE_BYTES {
        return ScriptLine::Rejected;
    }
    short_meaning(line)
}

/// Returns the meaning of a line that is not too long.
fn short_meaning(line: &[u8]) -> ScriptLine<'_>
    ensures { line_view result ≡ short_meaning line.now }
{
    match line {
        [] | [b'#', ..] => ScriptLine::Comment,
        [b'T', more @ ..] => after_t(more),
        [b'X', more @ ..] => after_x(more),
        _ => said_line(line),
    }
}

/// Returns the meaning of a line that begins with T, from the bytes `more` after it.
fn after_t(more: &[u8]) -> ScriptLine<'_>
    ensures { line_view result ≡ after_t more.now }
{
    match more {
        [] => ScriptLine::Ticks(1),
        [b' ', digits @ ..] => match number_within(1, MAX_TICKS_PER_LINE, digits) {
            Some(count) => ScriptLine::Ticks(count),
            None => ScriptLine::Rejected,
        },
        _ => ScriptLine::Rejected,
    }
}

/// Returns the meaning of a line that begins with X, from the bytes `more` after it.
fn after_x(more: &[u8]) -> ScriptLine<'_>
    ensures { line_view result ≡ after_x more.now }
{
    if more.is_empty() {
        ScriptLine::Stop
    } else {
        ScriptLine::Rejected
    }
}

/// Returns the meaning of a line of a connection.
fn said_line(line: &[u8]) -> ScriptLine<'_>
    ensures { line_view result ≡ said_line (addressed_parts line.now) }
{
    let Some((worker, rest)) = parts_at(b'.', line) else {
        return ScriptLine::Rejected;
    };
    let Some((session, text)) = parts_at(b' ', rest) else {
        return ScriptLine::Rejected;
    };
    match tag_of(worker, session) {
        Some(tag) => ScriptLine::Said(tag, text),
        None => ScriptLine::Rejected,
    }
}
