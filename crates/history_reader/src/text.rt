//! The playing of the text of a history.
ghost use Rattle.std.specs.Prelude.{◌≡◌, ◌<◌, ◌^◌, [], MatchOption, false, length};
ghost use Rattle.std.specs.List.{list_any};
ghost use Rattle.amcp_text.specs.Lines.{is_line_end};
ghost use Rattle.script_player.specs.Player.{IsReady, events_in, playout_in};
ghost use Rattle.history_reader.specs.inner.PlayedLines.{HasPlayed};
ghost use Rattle.history_reader.specs.inner.PlayedText.{EndsLines, IsCutAtFeed, PlaysText};

use crate::fault::ReadHistoryFault;
use crate::line_player::{LineFault, LineTaken, take_line};
use crate::teller::ReadTeller;
use amcp_text::without_carriage_return;
use play_schedule::parts_at;
use script_player::Player;
use std::alloc::Global;

/// How the playing of a text ends. `left_out` bytes follow the last line feed.
#[derive(Clone, Copy, Debug, PartialEq, Eq)]
pub enum TextEnd {
    /// The player has the events of all lines, without the server's own stop, which is the last line if `stopped`.
    Whole { left_out: usize, stopped: bool },
    /// The last line is a kill, which begins after `front` bytes. The player has ended.
    Killed { front: usize, left_out: usize },
}

/// Plays the lines of a text that end with a line feed, with a player that has no history yet, and reports each line that was played.
pub fn play_lines<T: ReadTeller>(
    player: &mut Player,
    alloc: Global,
    text: &[u8],
    teller: &mut T,
) -> Result<TextEnd, ReadHistoryFault>
    requires ready { IsReady player.old }
    requires empty { events_in player.old ≡ [] }
    requires new { HasPlayed (playout_in player.old) player.old [] }
    requires few { length text.now < 2 ^ 32 }
    ensures plays { PlaysText (playout_in player.old) text.now result player.new }
    ensures setup { player.new.setup ≡ player.old.setup }
{
    let mut rest = text;
    let mut lines = 0u64;
    while let Some((line, after)) = first_line(rest) {
        lines += 1;
        match take_line(player, alloc, without_carriage_return(line)) {
            Ok(LineTaken::Played) => {
                rest = after;
                teller.played(text.len() - rest.len(), text.len());
            }
            Ok(LineTaken::Stop) => {
                end_lines(after, lines)?;
                let left_out = after.len();
                let stopped = true;
                return Ok(TextEnd::Whole { left_out, stopped });
            }
            Ok(LineTaken::Kill) => {
                end_lines(after, lines)?;
                let front = text.len() - rest.len();
                let left_out = after.len();
                return Ok(TextEnd::Killed { front, left_out });
            }
            Err(LineFault::Refused) => return Err(ReadHistoryFault::Line(lines)),
            Err(LineFault::OutOfMemory) => return Err(ReadHistoryFault::OutOfMemory),
        }
    }
    let left_out = rest.len();
    let stopped = false;
    Ok(TextEnd::Whole { left_out, stopped })
}

/// Returns the bytes before and after the first line feed of a text, if it has one.
fn first_line(text: &[u8]) -> Option<(&[u8], &[u8])>
    ensures { MatchOption result (list_any is_line_end text.now ≡ false) (λ found. IsCutAtFeed text.now found.0.now found.1.now) }
{
    parts_at(b'\n', text)
}

/// Tests that no line follows the stop, which is the line of number `lines`. A line that follows it is faulty.
fn end_lines(after: &[u8], lines: u64) -> Result<(), ReadHistoryFault>
    requires { lines < 2 ^ 32 }
    ensures { EndsLines lines after.now result }
{
    match first_line(after) {
        Some(_) => Err(ReadHistoryFault::Line(lines + 1)),
        None => Ok(()),
    }
}
