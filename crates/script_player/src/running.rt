//! A whole run over an input.
ghost use Rattle.std.specs.Prelude.{◌≡◌, ◌+◌, ◌*◌, ◌≤◌, ◌++◌, ℕ, List, [], length, OnOk};
ghost use Rattle.script_player.specs.Script.{Run};
ghost use Rattle.script_player.specs.Run.{RunsScript};
ghost use Rattle.script_player.specs.Player.{IsReady, playout_in};
ghost use Rattle.script_player.specs.Display.{IsShownBy};
ghost use Rattle.script_player.specs.Taken.{HasTaken, ReadsOn, RunsPlayer, run_by};
ghost use Rattle.script_player.specs.Ticks.{ticks_due, ticks_per_byte};

use crate::display::Display;
use crate::ending::Ending;
use crate::script::ScriptPlayer;
use crate::teller::Teller;
use history_model::MAX_INPUT_BYTES;
use play_outside::{ReadStep, Sink, Source};
use std::alloc::Global;

/// The most bytes that are read at a time.
const PIECE_BYTES: usize = 4_096;

impl<D: Display, T: Teller> ScriptPlayer<'_, D, T> {
    /// Does what [`ScriptPlayer::play`] does, where the player is not needed afterwards.
    pub fn play_input<I: Source, K: Sink>(self, alloc: Global, input: &mut I, out: &mut K) -> Ending
        requires ready { IsReady self.script.player }
        requires shown { IsShownBy (D.shows self.display) (D.waiting self.display) self.script.player }
        requires small { (ticks_due self.script ≡ 0) × (self.script.lines ≡ 0) }
        requires new { HasTaken (run_by (D.shown self.display) self.script.player (K.state out.old)) self.script [] (K.state out.old) }
        ensures { RunsScript (D.shown self.entry.display) (playout_in self.entry.script.player) result
            (record { input = I.state input.old; out = K.state out.old })
            (record { input = I.state input.new; out = K.state out.new }) }
    {
        let mut player = self;
        player.play(alloc, input, out)
    }

    /// Reads a script of which nothing was taken yet to its end, and executes its lines. If the run ends well, the player has the history
    /// of the lines that were played.
    pub fn play<I: Source, K: Sink>(&mut self, alloc: Global, input: &mut I, out: &mut K) -> Ending
        requires ready { IsReady self.old.script.player }
        requires shown { IsShownBy (D.shows self.old.display) (D.waiting self.old.display) self.old.script.player }
        requires small { (ticks_due self.old.script ≡ 0) × (self.old.script.lines ≡ 0) }
        requires new { HasTaken (run_by (D.shown self.old.display) self.old.script.player (K.state out.old)) self.old.script [] (K.state out.old) }
        ensures { RunsPlayer (run_by (D.shown self.old.display) self.old.script.player (K.state out.old)) result self.new.script.player (I.state input.old)
            (record { input = I.state input.new; out = K.state out.new }) }
    {
        let mut left = MAX_INPUT_BYTES;
        let mut buffer = [0u8; PIECE_BYTES];
        'pieces: loop {
            match input.read(&mut buffer) {
                ReadStep::Got(count) => {
                    let piece = &buffer[..count];
                    match self.take_piece(alloc, left, piece, out) {
                        Ok(rest) => left = rest,
                        Err(ending) => return ending,
                    }
                }
                ReadStep::End => return self.finish(alloc, out),
                ReadStep::Failed => return Ending::ReadFault,
            }
        }
    }

    /// Takes the next piece of the input, of which `left` bytes are allowed, and returns how many are allowed after it. A longer piece is
    /// taken up to `left` bytes, and the run ends with `TooLong`.
    fn take_piece<K: Sink>(
        &mut self,
        alloc: Global,
        left: u64,
        piece: &[u8],
        out: &mut K,
    ) -> Result<u64, Ending>
        requires allowed { left ≤ MAX_INPUT_BYTES }
        requires ready { IsReady self.old.script.player }
        requires shown { IsShownBy (D.shows self.old.display) (D.waiting self.old.display) self.old.script.player }
        requires ticks { ticks_due self.old.script + ticks_per_byte * left ≤ ticks_per_byte * MAX_INPUT_BYTES }
        requires lines { self.old.script.lines ≤ MAX_INPUT_BYTES }
        ensures ready { OnOk result (IsReady self.new.script.player) }
        ensures told { D.shown self.new.display ≡ D.shown self.old.display }
        ensures shown { OnOk result (IsShownBy (D.shows self.new.display) (D.waiting self.new.display) self.new.script.player) }
        ensures ticks { OnOk result (ticks_due self.new.script ≤ ticks_due self.old.script + ticks_per_byte * length piece.now) }
        ensures lines { self.new.script.lines ≤ self.old.script.lines + length piece.now }
        ensures reads { (run : Run) (bytes : List ℕ) → run.shown ≡ D.shown self.old.display → HasTaken run self.old.script bytes (K.state out.old) → left + length bytes ≡ MAX_INPUT_BYTES
            → ReadsOn run result self.new.script (bytes ++ piece.now) (K.state out.new) }
    {
        if piece.len() as u64 > left {
            self.take(alloc, &piece[..left as usize], out)?;
            return Err(Ending::TooLong);
        }
        self.take(alloc, piece, out)?;
        Ok(left - piece.len() as u64)
    }
}
