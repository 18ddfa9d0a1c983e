//! A run of a generated script, whose output is hashed and whose refusals are counted as it is played.
ghost use Rattle.std.specs.Prelude.{◌≡◌, ◌≢◌, ◌+◌, ◌*◌, ◌<◌, ◌≤◌, ◌^◌, ℕ, List, [], IfOk, OnOk, false, length};
ghost use Rattle.std.specs.List.{list_any};
ghost use Rattle.amcp_text.specs.Lines.{is_line_end};
ghost use Rattle.play_types.specs.History.{ticks};
ghost use Rattle.play_types.specs.declared.event.TheConstants.{MAX_TICKS};
ghost use Rattle.history_model.specs.declared.limits.TheConstants.{MAX_TICKS_PER_LINE};
ghost use Rattle.history_model.specs.scripts.Line.{Rejected, meaning};
ghost use Rattle.script_player.specs.Player.{IsReady, events_in};
ghost use Rattle.history_model.specs.scripts.Generator.{generator_playout};
ghost use Rattle.script_player.specs.Display.{IsShownBy};
ghost use Rattle.script_player.specs.Playouts.{playout_of};
ghost use Rattle.script_player.specs.Shown.{Frames};
ghost use Rattle.made_script.specs.inner.Made.{CountsReply, HasMade, TakesLine};
ghost use Rattle.script_player.specs.Ticks.{ticks_per_byte};

use play_types::{Reply, UNKNOWN_COMMAND};
use script_player::{Display, Halt, Player};
use server_setup::ServerSetup;
use sha2::{Digest, Sha256};
use std::alloc::{AllocError, Global};
use vec_sink::VecSink;

/// A run of a generated script so far: the player, the hash of the output, and the number of replies whose code is 400 or more.
#[derive(Drop)]
pub struct MadeRun {
    pub player: Player,
    pub hasher: Sha256,
    pub refused: u64,
}

impl MadeRun {
    /// Returns a run of which no line was played yet.
    pub fn new(alloc: Global, setup: ServerSetup) -> Result<MadeRun, AllocError>
        requires { playout_of setup false ≡ generator_playout }
        ensures setup { IfOk result (λ run. run.player.setup ≡ setup) }
        ensures empty { IfOk result (λ run. events_in run.player ≡ []) }
        ensures ready { IfOk result (λ run. IsReady run.player) }
        ensures small { IfOk result (λ run. (ticks (events_in run.player) ≡ 0) × (run.refused ≡ 0)) }
        ensures made { IfOk result (HasMade []) }
    {
        Ok(MadeRun {
            player: Player::new(alloc, setup, false, false)?,
            hasher: Sha256::new(),
            refused: 0,
        })
    }

    /// Plays the next line, which is valid in a script, hashes its output, and counts its reply if its code is 400 or more. It stops if
    /// the reply reports out of memory.
    pub fn take_line<D: Display>(
        &mut self,
        alloc: Global,
        line: &[u8],
        display: &mut D,
    ) -> Result<(), Halt>
        requires ready { IsReady self.old.player }
        requires frames { D.shown display.old ≡ Frames }
        requires shown { IsShownBy (D.shows display.old) (D.waiting display.old) self.old.player }
        requires time { ticks (events_in self.old.player) + MAX_TICKS_PER_LINE ≤ MAX_TICKS }
        requires few { self.old.refused < 2 ^ 63 }
        requires one_line { list_any is_line_end line.now ≡ false }
        requires short { length line.now ≤ 64 }
        requires accepted { meaning line.now ≢ Rejected }
        ensures ready { OnOk result (IsReady self.new.player) }
        ensures told { D.shown display.new ≡ D.shown display.old }
        ensures shown { OnOk result (IsShownBy (D.shows display.new) (D.waiting display.new) self.new.player) }
        ensures ticks { OnOk result (ticks (events_in self.new.player) ≤ ticks (events_in self.old.player) + ticks_per_byte * 65) }
        ensures few { self.new.refused ≤ self.old.refused + 1 }
        ensures takes { (lines : List (List ℕ)) → HasMade lines self.old → TakesLine lines line.now result self.new }
    {
        let mut written = VecSink::new(alloc);
        let played = self.player.take_line(alloc, line, display, &mut written);
        self.hasher.update(written.taken.as_slice());
        match played? {
            Some(reply) => self.count(&reply),
            None => Ok(()),
        }
    }

    /// Counts a reply whose code is 400 or more. It stops if the reply reports out of memory.
    fn count(&mut self, reply: &Reply) -> Result<(), Halt>
        requires { self.old.refused < 2 ^ 63 }
        ensures player { self.new.player ≡ self.old.player }
        ensures hasher { self.new.hasher ≡ self.old.hasher }
        ensures counts { CountsReply reply.now result self.old.refused self.new.refused }
    {
        if reply.is_out_of_memory() {
            return Err(Halt::Memory);
        }
        if reply.code() >= UNKNOWN_COMMAND {
            self.refused += 1;
        }
        Ok(())
    }
}
