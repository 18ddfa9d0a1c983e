//! The lines of a script, byte by byte.
ghost use Rattle.std.specs.Prelude.{◌≡◌, ◌≢◌, ◌+◌, ◌*◌, ◌<◌, ◌≤◌, ◌^◌, ◌∷◌, ◌++◌, ℕ, List, [], length, true, IfOk, OnOk, Err};
ghost use Rattle.play_types.specs.History.{ticks};
ghost use Rattle.play_types.specs.declared.event.TheConstants.{MAX_TICKS};
ghost use Rattle.play_outside.specs.SinkState.{SinkState};
ghost use Rattle.history_model.specs.declared.limits.TheConstants.{MAX_INPUT_BYTES, MAX_TICKS_PER_LINE};
ghost use Rattle.script_player.specs.Script.{Run};
ghost use Rattle.script_player.specs.Player.{IsReady, Represents, events_in, playout_in};
ghost use Rattle.script_player.specs.Display.{IsShownBy, IsStillShownBy};
ghost use Rattle.script_player.specs.Taken.{EndsWith, HasTaken, TakesBytes, TakesPiece, run_by};
ghost use Rattle.script_player.specs.Ticks.{ticks_due, ticks_per_byte};

use crate::display::Display;
use crate::ending::{Ending, Halt};
use crate::line::NumberedLine;
use crate::player::Player;
use crate::teller::Teller;
use amcp_text::without_carriage_return;
use history_model::MAX_SCRIPT_LINE_BYTES;
use play_outside::Sink;
use std::alloc::Global;

/// A line is too long if this many of its bytes have come without a line feed: one more than the longest line and a carriage return.
const TOO_MANY: usize = MAX_SCRIPT_LINE_BYTES + 2;

/// A script that is being read: the bytes of the line that has not ended, the number of lines before it, and the player that executed
/// those.
#[derive(Drop)]
pub struct Script {
    pub waiting: Vec<u8>,
    pub lines: u64,
    pub player: Player,
}

/// Plays a script: what was read of it and its player, the display of the ticks, and who receives reports.
#[derive(Drop)]
pub struct ScriptPlayer<'a, D, T> {
    /// What was read of the input, and the player of its lines.
    pub script: Script,
    /// What is handed the ticks.
    pub display: D,
    /// Who receives reports.
    pub teller: &'a mut T,
}

impl Script {
    /// Returns a script of which nothing was taken yet.
    pub fn new(alloc: Global, player: Player) -> Script
        requires { events_in player ≡ [] }
        ensures player { result.player ≡ player }
        ensures small { (ticks_due result ≡ 0) × (result.lines ≡ 0) }
        ensures taken { (run : Run) → Represents run.shown run.playout player [] → HasTaken run result [] run.first }
    {
        Script {
            waiting: Vec::new(alloc),
            lines: 0,
            player,
        }
    }

    /// Keeps a byte that is not a line feed. It stops if the line is too long.
    fn keep_byte(&mut self, byte: u8) -> Result<(), Halt>
        requires other { byte ≢ 10 }
        requires ready { IsReady self.old.player }
        ensures ready { OnOk result (IsReady self.new.player) }
        ensures player { self.new.player ≡ self.old.player }
        ensures going { result ≡ Err Halt.Stop → ⊥ }
        ensures ticks { OnOk result (ticks_due self.new ≤ ticks_due self.old + ticks_per_byte) }
        ensures lines { self.new.lines ≡ self.old.lines }
        ensures takes { (run : Run) (bytes : List ℕ) (state : SinkState) → HasTaken run self.old bytes state
            → TakesBytes run result self.new (bytes ++ byte ∷ []) state }
    {
        self.waiting.push(byte)?;
        if self.waiting.len() < TOO_MANY {
            Ok(())
        } else {
            Err(Halt::Rejected)
        }
    }
}

impl<'a, D: Display, T: Teller> ScriptPlayer<'a, D, T> {
    /// Returns a player of a script of which nothing was taken yet.
    pub fn new(
        alloc: Global,
        player: Player,
        display: D,
        teller: &'a mut T,
    ) -> ScriptPlayer<'a, D, T>
        requires ready { IsReady player }
        requires empty { events_in player ≡ [] }
        requires shown { IsShownBy (D.shows display) (D.waiting display) player }
        requires new { Represents (D.shown display) (playout_in player) player [] }
        ensures player { result.script.player ≡ player }
        ensures display { result.display ≡ display }
        ensures ready { IsReady result.script.player }
        ensures shown { IsShownBy (D.shows result.display) (D.waiting result.display) result.script.player }
        ensures small { (ticks_due result.script ≡ 0) × (result.script.lines ≡ 0) }
        ensures new { (first : SinkState) → HasTaken (run_by (D.shown result.display) result.script.player first) result.script [] first }
    {
        ScriptPlayer {
            script: Script::new(alloc, player),
            display,
            teller,
        }
    }

    /// Takes the next bytes, and executes the lines that end in them. It stops at the first line that ends the run. After the server's own
    /// stop, or a kill, the player still has its stage, and the display still shows the last tick.
    pub fn take<K: Sink>(&mut self, alloc: Global, piece: &[u8], out: &mut K) -> Result<(), Ending>
        requires ready { IsReady self.old.script.player }
        requires shown { IsShownBy (D.shows self.old.display) (D.waiting self.old.display) self.old.script.player }
        requires time { ticks_due self.old.script + ticks_per_byte * length piece.now + MAX_TICKS_PER_LINE ≤ MAX_TICKS }
        requires lines { self.old.script.lines + length piece.now < 2 ^ 63 }
        ensures ready { OnOk result (IsReady self.new.script.player) }
        ensures told { D.shown self.new.display ≡ D.shown self.old.display }
        ensures shown { OnOk result (IsShownBy (D.shows self.new.display) (D.waiting self.new.display) self.new.script.player) }
        ensures stopped { result ≡ Err Ending.Stopped → IsStillShownBy (D.shows self.new.display) (D.waiting self.new.display) self.new.script.player }
        ensures setup { self.new.script.player.setup ≡ self.old.script.player.setup }
        ensures ticks { OnOk result (ticks_due self.new.script ≤ ticks_due self.old.script + ticks_per_byte * length piece.now) }
        ensures lines { self.new.script.lines ≤ self.old.script.lines + length piece.now }
        ensures takes { (run : Run) (bytes : List ℕ) → run.shown ≡ D.shown self.old.display → HasTaken run self.old.script bytes (K.state out.old)
            → TakesPiece run result self.new.script (bytes ++ piece.now) (K.state out.new) }
    {
        for byte in piece {
            match self.take_byte(alloc, *byte, out) {
                Ok(()) => {}
                Err(halt) => return Err(halt.ending(self.script.lines)),
            }
        }
        Ok(())
    }

    /// Executes the last line if the input ended without a line feed, and returns how the run ended.
    pub fn finish<K: Sink>(&mut self, alloc: Global, out: &mut K) -> Ending
        requires ready { IsReady self.old.script.player }
        requires shown { IsShownBy (D.shows self.old.display) (D.waiting self.old.display) self.old.script.player }
        requires time { ticks (events_in self.old.script.player) + MAX_TICKS_PER_LINE ≤ MAX_TICKS }
        requires lines { self.old.script.lines < 2 ^ 63 }
        ensures { (run : Run) (bytes : List ℕ) → run.shown ≡ D.shown self.old.display → HasTaken run self.old.script bytes (K.state out.old) → length bytes ≤ MAX_INPUT_BYTES
            → EndsWith run result self.new.script.player (record { bytes = bytes; ended = true }) (K.state out.new) }
    {
        let script = &mut self.script;
        if script.waiting.is_empty() {
            return Ending::Finished;
        }
        let bytes = script.waiting.as_slice();
        match script
            .player
            .take_line(alloc, bytes, &mut self.display, out)
        {
            Ok(reply) => {
                let number = script.lines + 1;
                let line = NumberedLine { number, bytes };
                script.player.tell_refusal(alloc, line, reply, self.teller);
                Ending::Finished
            }
            Err(halt) => halt.ending(script.lines),
        }
    }

    /// Takes the next byte, and executes the line if the byte ends one.
    fn take_byte<K: Sink>(&mut self, alloc: Global, byte: u8, out: &mut K) -> Result<(), Halt>
        requires ready { IsReady self.old.script.player }
        requires shown { IsShownBy (D.shows self.old.display) (D.waiting self.old.display) self.old.script.player }
        requires time { ticks (events_in self.old.script.player) + MAX_TICKS_PER_LINE ≤ MAX_TICKS }
        requires lines { self.old.script.lines < 2 ^ 63 }
        ensures ready { OnOk result (IsReady self.new.script.player) }
        ensures told { D.shown self.new.display ≡ D.shown self.old.display }
        ensures shown { OnOk result (IsShownBy (D.shows self.new.display) (D.waiting self.new.display) self.new.script.player) }
        ensures stopped { result ≡ Err Halt.Stop → IsStillShownBy (D.shows self.new.display) (D.waiting self.new.display) self.new.script.player }
        ensures setup { self.new.script.player.setup ≡ self.old.script.player.setup }
        ensures ticks { OnOk result (ticks_due self.new.script ≤ ticks_due self.old.script + ticks_per_byte) }
        ensures lines { self.new.script.lines ≤ self.old.script.lines + 1 }
        ensures takes { (run : Run) (bytes : List ℕ) → run.shown ≡ D.shown self.old.display → HasTaken run self.old.script bytes (K.state out.old)
            → TakesBytes run result self.new.script (bytes ++ byte ∷ []) (K.state out.new) }
    {
        if byte == b'\n' {
            self.end_line(alloc, out)
        } else {
            self.script.keep_byte(byte)
        }
    }

    /// Executes the line that waits, after its line feed.
    fn end_line<K: Sink>(&mut self, alloc: Global, out: &mut K) -> Result<(), Halt>
        requires ready { IsReady self.old.script.player }
        requires shown { IsShownBy (D.shows self.old.display) (D.waiting self.old.display) self.old.script.player }
        requires time { ticks (events_in self.old.script.player) + MAX_TICKS_PER_LINE ≤ MAX_TICKS }
        requires lines { self.old.script.lines < 2 ^ 63 }
        ensures ready { OnOk result (IsReady self.new.script.player) }
        ensures told { D.shown self.new.display ≡ D.shown self.old.display }
        ensures shown { OnOk result (IsShownBy (D.shows self.new.display) (D.waiting self.new.display) self.new.script.player) }
        ensures stopped { result ≡ Err Halt.Stop → IsStillShownBy (D.shows self.new.display) (D.waiting self.new.display) self.new.script.player }
        ensures setup { self.new.script.player.setup ≡ self.old.script.player.setup }
        ensures ticks { OnOk result (ticks_due self.new.script ≤ ticks_due self.old.script + ticks_per_byte) }
        ensures lines { self.new.script.lines ≤ self.old.script.lines + 1 }
        ensures takes { (run : Run) (bytes : List ℕ) → run.shown ≡ D.shown self.old.display → HasTaken run self.old.script bytes (K.state out.old)
            → TakesBytes run result self.new.script (bytes ++ 10 ∷ []) (K.state out.new) }
    {
        let script = &mut self.script;
        let bytes = without_carriage_return(script.waiting.as_slice());
        let reply = script
            .player
            .take_line(alloc, bytes, &mut self.display, out)?;
        script.lines += 1;
        let number = script.lines;
        let line = NumberedLine { number, bytes };
        script.player.tell_refusal(alloc, line, reply, self.teller);
        script.waiting.clear();
        Ok(())
    }
}
