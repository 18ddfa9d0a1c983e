//! The reading of a history.
ghost use Rattle.std.specs.Prelude.{◌≡◌, ◌<◌, ◌^◌, false, length};
ghost use Rattle.script_player.specs.Player.{IsReady};
ghost use Rattle.script_player.specs.Playouts.{playout_of};
ghost use Rattle.history_reader.specs.Reading.{ReadsHistory};
ghost use Rattle.history_reader.specs.inner.PlayedText.{IsHistoryOf, IsReadFault, PlaysAnew, ReadsText, fault_of};

use crate::fault::ReadHistoryFault;
use crate::teller::ReadTeller;
use crate::text::{TextEnd, play_lines};
use play_outside::Source;
use script_player::{Player, read_all};
use server_setup::{RunFault, ServerSetup};
use stage_core::Stage;
use std::alloc::Global;

/// The most bytes that the text of a history may have.
pub const MAX_HISTORY_BYTES: usize = 4_294_967_295;

/// A history that was read.
#[derive(Drop)]
pub struct ReadHistory {
    /// The stage with the events of the history.
    pub stage: Stage,
    /// The setup on which it was played.
    pub setup: ServerSetup,
    /// Whether the text ends with a stop, which was left out.
    pub stop_left_out: bool,
    /// The number of bytes after the last line feed, which were left out.
    pub bytes_left_out: u64,
}

/// Reads the text of a history or of a log to its end, and returns the stage with its events.
///
/// Each line that ends with a line feed is played as the same line of a script. It has to make an event, or to be a BEGIN or a command
/// that waits in a batch; else the text is refused with its number. No line may follow a stop, which is the server's own `X` or a KILL.
/// A stop at the end is left out of the events, and a batch that is not closed makes none. If the last line is a KILL, the lines before
/// it are played a second time, since a stage does not go back.
///
/// `teller` receives a report after each line that was played. If the last line is a KILL, the reports begin again with the second time.
pub fn read_history<I: Source, T: ReadTeller>(
    alloc: Global,
    setup: ServerSetup,
    input: &mut I,
    teller: &mut T,
) -> Result<ReadHistory, ReadHistoryFault>
    ensures { ReadsHistory setup result (I.state input.old) (I.state input.new) }
{
    match read_all(alloc, MAX_HISTORY_BYTES, input) {
        Ok(text) => read_text(alloc, setup, text.as_slice(), teller),
        Err(fault) => {
            drop(setup);
            Err(unread(fault))
        }
    }
}

/// Returns why an input could not be read.
fn unread(fault: RunFault) -> ReadHistoryFault
    requires { IsReadFault fault }
    ensures { result ≡ fault_of fault }
{
    match fault {
        RunFault::InputTooLong => ReadHistoryFault::TooLong,
        RunFault::Device => ReadHistoryFault::Device,
        RunFault::OutOfMemory => ReadHistoryFault::OutOfMemory,
        RunFault::Usage
        | RunFault::ConfigText
        | RunFault::ConfigKey(_)
        | RunFault::BadLine(_)
        | RunFault::Plan(_)
        | RunFault::PlanEnd
        | RunFault::Record(_)
        | RunFault::Resume(_)
        | RunFault::Clip(_)
        | RunFault::MediaTwice(_)
        | RunFault::MediaTotal(_) => unreachable!(),
    }
}

/// Reads the text of a history.
fn read_text<T: ReadTeller>(
    alloc: Global,
    setup: ServerSetup,
    text: &[u8],
    teller: &mut T,
) -> Result<ReadHistory, ReadHistoryFault>
    requires { length text.now < 2 ^ 32 }
    ensures { ReadsText setup text.now result }
{
    let (end, player) = play_text(alloc, setup, text, teller)?;
    match end {
        TextEnd::Whole { left_out, stopped } => Ok(history_of(player, left_out, stopped)),
        TextEnd::Killed { front, left_out } => {
            let setup = setup_of(player);
            let (_, again) = play_text(alloc, setup, &text[..front], teller)?;
            Ok(history_of(again, left_out, true))
        }
    }
}

/// Plays a text with a new player, and returns how the playing ended, and the player.
fn play_text<T: ReadTeller>(
    alloc: Global,
    setup: ServerSetup,
    text: &[u8],
    teller: &mut T,
) -> Result<(TextEnd, Player), ReadHistoryFault>
    requires { length text.now < 2 ^ 32 }
    ensures { PlaysAnew setup text.now result }
{
    let mut player = Player::new(alloc, setup, false, true)?;
    match play_lines(&mut player, alloc, text, teller) {
        Ok(end) => Ok((end, player)),
        Err(fault) => {
            drop(player);
            Err(fault)
        }
    }
}

/// Returns the setup of a player that is given up.
fn setup_of(player: Player) -> ServerSetup
    ensures { result ≡ player.setup }
{
    let Player {
        setup,
        clients,
        stage,
        scenes,
        ..
    } = player;
    drop((clients, stage, scenes));
    setup
}

/// Returns the history of a player. `left_out` bytes were left out, and a stop if `stopped`.
fn history_of(player: Player, left_out: usize, stopped: bool) -> ReadHistory
    ensures { IsHistoryOf player left_out stopped result }
{
    ReadHistory {
        stage: player.stage,
        setup: player.setup,
        stop_left_out: stopped,
        bytes_left_out: left_out as u64,
    }
}
