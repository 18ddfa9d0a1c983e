//! The playing of a line of a history.
ghost use Rattle.std.specs.Prelude.{◌≡◌, ◌+◌, ◌≤◌, ◌∷◌, ◌||◌, ℕ, List, [], IfOk, false, true, nat_lt};
ghost use Rattle.std.specs.List.{list_any};
ghost use Rattle.amcp_text.specs.Lines.{is_line_end};
ghost use Rattle.play_types.specs.History.{IsHistory, held, ticks};
ghost use Rattle.play_types.specs.declared.event.TheConstants.{MAX_TICKS};
ghost use Rattle.history_model.specs.declared.limits.TheConstants.{MAX_TICKS_PER_LINE};
ghost use Rattle.history_model.specs.scripts.History.{Playout};
ghost use Rattle.script_player.specs.Player.{events_in};
ghost use Rattle.history_reader.specs.HistoryText.{is_kept, is_of_batch};
ghost use Rattle.history_reader.specs.inner.PlayedLines.{HasPlayed, IsPlaying, IsReadyAfter, TakesLine};

use play_outside::PlainSink;
use play_types::{Name, Reply};
use script_player::{Halt, Player, Unshown};
use std::alloc::Global;

/// What became of a line that is one of a history.
#[derive(Clone, Copy, Debug, PartialEq, Eq)]
pub enum LineTaken {
    /// The line was played, and the history goes on.
    Played,
    /// The line is the server's own stop. It was not played.
    Stop,
    /// The line is a kill. It was played, so the player has ended.
    Kill,
}

/// Why a line was not taken.
#[derive(Clone, Copy, Debug, PartialEq, Eq)]
pub enum LineFault {
    /// No history has the line after the lines before it.
    Refused,
    /// Memory ran out.
    OutOfMemory,
}

/// Plays a line of a history, given without its end, after the lines that the player has played.
pub fn take_line(player: &mut Player, alloc: Global, line: &[u8]) -> Result<LineTaken, LineFault>
    requires playing { IsPlaying player.old }
    requires time { ticks (events_in player.old) + MAX_TICKS_PER_LINE ≤ MAX_TICKS }
    requires one_line { list_any is_line_end line.now ≡ false }
    ensures ready { IfOk result (λ taken. IsReadyAfter player.old line.now taken player.new) }
    ensures setup { player.new.setup ≡ player.old.setup }
    ensures takes { (playout : Playout) (lines : List (List ℕ)) → HasPlayed playout player.old lines
        → TakesLine playout lines line.now result player.new }
{
    if is_own_stop(line) {
        return Ok(LineTaken::Stop);
    }
    let before = size(player);
    let mut nowhere = PlainSink::new(0);
    match player.take_line(alloc, line, &mut Unshown, &mut nowhere) {
        Ok(reply) => {
            if is_of_history(before, size(player), reply) {
                Ok(LineTaken::Played)
            } else {
                Err(LineFault::Refused)
            }
        }
        Err(Halt::Stop) => Ok(LineTaken::Kill),
        Err(Halt::Rejected) => Err(LineFault::Refused),
        Err(Halt::Memory) => Err(LineFault::OutOfMemory),
        Err(Halt::Write) => unreachable!(),
    }
}

/// Returns the number of commands and ticks in the history of a player, which rises with each event but a stop.
fn size(player: &Player) -> u64
    ensures value { result ≡ held (events_in player.now) + ticks (events_in player.now) }
    ensures history { IsHistory (events_in player.now) }
{
    let journal = player.stage.journal();
    u64::from(journal.held()) + journal.ticks()
}

/// Returns whether a line is the server's own stop.
fn is_own_stop(line: &[u8]) -> bool
    ensures { result ≡ true → line.now ≡ 88 ∷ [] }
{
    matches!(line, [b'X'])
}

/// Returns whether a line is one of a history, by the sizes before and after it and its reply: it made an event, or is kept for a batch.
fn is_of_history(before: u64, after: u64, reply: Option<Reply>) -> bool
    ensures { result ≡ (nat_lt before after || is_kept reply) }
{
    after > before || is_kept(reply)
}

/// Returns whether a line that made no event is kept for a batch, by its reply: a 202 to BEGIN or to a command.
fn is_kept(reply: Option<Reply>) -> bool
    ensures { result ≡ is_kept reply }
{
    match reply {
        Some(Reply::Done(name)) => is_of_batch(name),
        Some(
            Reply::Value(_)
            | Reply::Info(_)
            | Reply::Cls
            | Reply::Version
            | Reply::Unknown(_)
            | Reply::Refused(..)
            | Reply::NoMemory,
        )
        | None => false,
    }
}

/// Returns whether a line of this name opens a batch, or may be a command of one.
fn is_of_batch(name: Name) -> bool
    ensures { result ≡ is_of_batch name }
{
    match name {
        Name::LoadBg
        | Name::Load
        | Name::Play
        | Name::Pause
        | Name::Resume
        | Name::Stop
        | Name::Clear
        | Name::Swap
        | Name::Mixer
        | Name::Add
        | Name::Remove
        | Name::Begin => true,
        Name::Commit
        | Name::Discard
        | Name::Info
        | Name::Cls
        | Name::Version
        | Name::Bye
        | Name::Kill
        | Name::Req => false,
    }
}
