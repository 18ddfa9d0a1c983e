//! Scripts that are played with the frames of all channels at each tick, or with the status of the channels after it.
ghost use Rattle.std.specs.Prelude.{◌≤◌, false};
ghost use Rattle.script_player.specs.Playouts.{playout_of};
ghost use Rattle.script_player.specs.Run.{RunsScript};
ghost use Rattle.script_player.specs.Shown.{Frames};
ghost use Rattle.status_display.specs.Status.{Status};

use frame_display::{FrameDisplay, FrameOptions};
use play_outside::{Sink, Source};
use script_player::{Ending, Player, ScriptPlayer, Teller};
use server_setup::ServerSetup;
use status_display::StatusDisplay;
use std::alloc::Global;
use std::thread::Threads;

/// A script that will be played: its channels and clips, how the frames are made, and who receives reports.
#[derive(Drop)]
pub struct ScriptRun<'a, T> {
    pub setup: ServerSetup,
    pub options: FrameOptions,
    pub teller: &'a mut T,
}

impl<T: Teller> ScriptRun<'_, T> {
    /// Reads a script to its end, executes its lines, and writes the frames of all channels at each tick. The words for which lines are
    /// refused are reported to the teller.
    pub fn play<R: Threads + Sync, I: Source, K: Sink>(
        self,
        rt: &R,
        alloc: Global,
        input: &mut I,
        out: &mut K,
    ) -> Ending
        requires some_workers { 1 ≤ self.options.workers }
        requires few_workers { self.options.workers ≤ 64 }
        ensures { RunsScript Frames (playout_of self.entry.setup self.entry.options.digests) result
            (record { input = I.state input.old; out = K.state out.old })
            (record { input = I.state input.new; out = K.state out.new }) }
    {
        let ScriptRun {
            setup,
            options,
            teller,
        } = self;
        match FrameDisplay::new(rt, alloc, &setup, options) {
            Ok(display) => match Player::new(alloc, setup, options.digests, false) {
                Ok(player) => {
                    let script = ScriptPlayer::new(alloc, player, display, teller);
                    script.play_input(alloc, input, out)
                }
                Err(_) => Ending::Memory,
            },
            Err(_) => Ending::Memory,
        }
    }
}

/// Reads a script to its end, executes its lines, and writes the status of all channels after each tick in place of their frames, which
/// are not made. The words for which lines are refused are reported to `teller`.
pub fn report<I: Source, K: Sink, T: Teller>(
    alloc: Global,
    setup: ServerSetup,
    input: &mut I,
    out: &mut K,
    teller: &mut T,
) -> Ending
    ensures { RunsScript Status (playout_of setup false) result
        (record { input = I.state input.old; out = K.state out.old })
        (record { input = I.state input.new; out = K.state out.new }) }
{
    match Player::new(alloc, setup, false, false) {
        Ok(player) => {
            let script = ScriptPlayer::new(alloc, player, StatusDisplay, teller);
            script.play_input(alloc, input, out)
        }
        Err(_) => Ending::Memory,
    }
}
