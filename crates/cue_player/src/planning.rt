//! The playing of cue sheets.
ghost use Rattle.std.specs.Prelude.{◌≡◌, ◌≢◌, ◌+◌, ◌≤◌, ◌++◌, ℕ, List, [], Err, Ok, OnOk};
ghost use Rattle.play_types.specs.History.{ticks};
ghost use Rattle.play_types.specs.declared.event.TheConstants.{MAX_TICKS};
ghost use Rattle.history_model.specs.scripts.Line.{ScriptLine};
ghost use Rattle.history_model.specs.scripts.Memory.{AreLines};
ghost use Rattle.play_schedule.specs.declared.limits.TheConstants.{MAX_MOMENT};
ghost use Rattle.play_schedule.specs.Unfolding.{script_of, ticks_in};
ghost use Rattle.script_player.specs.declared.ending.Halt.TheVariants.{Rejected};
ghost use Rattle.script_player.specs.Ending.{fault_in};
ghost use Rattle.script_player.specs.Display.{IsShownBy};
ghost use Rattle.script_player.specs.Shown.{Frames};
ghost use Rattle.cue_player.specs.Planning.{PlaysPlan};
ghost use Rattle.script_player.specs.Playouts.{playout_of};
ghost use Rattle.script_player.specs.Script.{Run};
ghost use Rattle.cue_player.specs.inner.Planned.{HasPlayedLines, PlaysLines, ReadsSheet, SheetEnds, fault_of_lines, fault_of_sheet, step_lines, step_ticks};
ghost use Rattle.script_player.specs.Player.{IsReady, events_in};

use crate::cue_report::CueReport;
use frame_display::{FrameDisplay, FrameOptions};
use play_outside::{Sink, Source};
use play_schedule::{
    MAX_SHEET_BYTES, Sheet, SheetFault, SheetStep, SheetSteps, fault_at, read_sheet,
};
use script_player::{Display, Halt, Player, Teller, read_all};
use server_setup::{RunFault, ServerSetup};
use std::alloc::Global;
use std::thread::Threads;

/// A cue sheet that will be played: the channels and clips, how the frames are made, and who receives reports.
#[derive(Drop)]
pub struct SheetRun<'a, T> {
    /// The channels and the clips.
    pub setup: ServerSetup,
    /// How frames are made and written.
    pub options: FrameOptions,
    /// Who receives reports.
    pub teller: &'a mut T,
}

impl<T: Teller> SheetRun<'_, T> {
    /// Reads a cue sheet to the end of the input, and plays each of its lines at its moment. The fault of a sheet that is refused, and
    /// the cues that are refused, are reported to the teller. A sheet that is too long or faulty is refused before anything is written.
    pub fn play<R: Threads + Sync, I: Source, K: Sink>(
        self,
        rt: &R,
        alloc: Global,
        input: &mut I,
        out: &mut K,
    ) -> Result<(), RunFault>
        requires some_workers { 1 ≤ self.options.workers }
        requires few_workers { self.options.workers ≤ 64 }
        ensures { PlaysPlan (playout_of self.entry.setup self.entry.options.digests) (fault_in result)
            (record { input = I.state input.old; out = K.state out.old })
            (record { input = I.state input.new; out = K.state out.new }) }
    {
        let rate = self.setup.config.rate();
        let sheet = sheet_in(alloc, rate, input, self.teller)?;
        self.play_sheet(rt, alloc, &sheet, out)
    }

    /// Plays the lines of a cue sheet, each at its moment, to the end of the sheet or to a kill. Refused cues are reported to the teller.
    fn play_sheet<R: Threads + Sync, K: Sink>(
        self,
        rt: &R,
        alloc: Global,
        sheet: &Sheet,
        out: &mut K,
    ) -> Result<(), RunFault>
        requires some_workers { 1 ≤ self.options.workers }
        requires few_workers { self.options.workers ≤ 64 }
        requires time { ticks_in (script_of sheet.now) ≤ MAX_MOMENT }
        requires lines { AreLines (script_of sheet.now) }
        ensures { SheetEnds (playout_of self.entry.setup self.entry.options.digests) sheet.now (fault_in result) (K.state out.old) (K.state out.new) }
    {
        let SheetRun {
            setup,
            options,
            teller,
        } = self;
        let display = FrameDisplay::new(rt, alloc, &setup, options)?;
        let player = Player::new(alloc, setup, options.digests, false)?;
        let mut steps = sheet.steps(alloc)?;
        let report = CueReport::new(teller);
        let mut sheet_player = SheetPlayer {
            player,
            display,
            report,
        };
        let played = sheet_player.play_steps(alloc, &mut steps, out);
        sheet_player.report.end();
        outcome(played)
    }
}

/// Reads an input to its end as a cue sheet, with `rate` frames a second. Why it is no sheet is reported to `teller`.
fn sheet_in<I: Source, T: Teller>(
    alloc: Global,
    rate: u32,
    input: &mut I,
    teller: &mut T,
) -> Result<Sheet, RunFault>
    ensures { ReadsSheet rate result (I.state input.old) (I.state input.new) }
{
    let bytes = read_all(alloc, MAX_SHEET_BYTES, input)?;
    match read_sheet(alloc, bytes.as_slice(), rate) {
        Ok(sheet) => Ok(sheet),
        Err(fault) => {
            tell_fault(bytes.as_slice(), rate, fault, teller);
            Err(refusal(fault))
        }
    }
}

/// Reports why bytes are no cue sheet. Nothing is reported if memory ran out for it.
fn tell_fault<T: Teller>(bytes: &[u8], rate: u32, fault: SheetFault, teller: &mut T) {
    match fault {
        SheetFault::Line { at } => {
            if let Some(found) = fault_at(bytes, rate, at) {
                teller.tell_faulty_cue(at, found);
            }
        }
        SheetFault::NoEnd => teller.tell_no_end(),
        SheetFault::OutOfMemory => {}
    }
}

/// Returns the fault of a run whose cue sheet is refused.
fn refusal(fault: SheetFault) -> RunFault
    ensures { result ≡ fault_of_sheet fault }
{
    match fault {
        SheetFault::Line { at } => RunFault::Plan(at),
        SheetFault::NoEnd => RunFault::PlanEnd,
        SheetFault::OutOfMemory => RunFault::OutOfMemory,
    }
}

/// Returns the fault with which the lines of a cue sheet ended, if they had one. A kill is no fault.
fn outcome(played: Result<(), Halt>) -> Result<(), RunFault>
    requires { played ≢ Err Rejected }
    ensures { fault_in result ≡ fault_of_lines played }
{
    match played {
        Ok(()) | Err(Halt::Stop) => Ok(()),
        Err(Halt::Write) => Err(RunFault::Device),
        Err(Halt::Memory) => Err(RunFault::OutOfMemory),
        Err(Halt::Rejected) => unreachable!(),
    }
}

/// Plays the steps of a cue sheet: the player of its lines, the display of its ticks, and the report on its cues.
#[derive(Drop)]
struct SheetPlayer<'a, D, T> {
    player: Player,
    display: D,
    report: CueReport<'a, T>,
}

impl<D: Display, T: Teller> SheetPlayer<'_, D, T> {
    /// Plays the remaining steps of a cue sheet. It stops at the first line that ends the run.
    fn play_steps<K: Sink>(
        &mut self,
        alloc: Global,
        steps: &mut SheetSteps<'_>,
        out: &mut K,
    ) -> Result<(), Halt>
        requires ready { IsReady self.old.player }
        requires frames { D.shown self.old.display ≡ Frames }
        requires shown { IsShownBy (D.shows self.old.display) (D.waiting self.old.display) self.old.player }
        requires time { ticks (events_in self.old.player) + ticks_in steps.old ≤ MAX_TICKS }
        requires lines { AreLines steps.old }
        ensures { (run : Run) → HasPlayedLines run [] self.old.player (K.state out.old) → PlaysLines run steps.old result self.new.player (K.state out.new) }
    {
        while let Some(step) = steps.next(alloc)? {
            self.report.come_to(steps.place());
            self.play_step(alloc, step, out)?;
        }
        Ok(())
    }

    /// Plays a step of a cue sheet: each of its ticks as a script line of one tick, or its line, whose reply is handed to the report.
    fn play_step<K: Sink>(
        &mut self,
        alloc: Global,
        step: SheetStep,
        out: &mut K,
    ) -> Result<(), Halt>
        requires ready { IsReady self.old.player }
        requires frames { D.shown self.old.display ≡ Frames }
        requires shown { IsShownBy (D.shows self.old.display) (D.waiting self.old.display) self.old.player }
        requires time { ticks (events_in self.old.player) + step_ticks step ≤ MAX_TICKS }
        requires line { AreLines (step_lines step) }
        ensures ready { OnOk result (IsReady self.new.player) }
        ensures told { D.shown self.new.display ≡ D.shown self.old.display }
        ensures shown { OnOk result (IsShownBy (D.shows self.new.display) (D.waiting self.new.display) self.new.player) }
        ensures ticks { OnOk result (ticks (events_in self.new.player) ≡ ticks (events_in self.old.player) + step_ticks step) }
        ensures plays { (run : Run) (lines : List ScriptLine) → HasPlayedLines run lines self.old.player (K.state out.old)
            → PlaysLines run (lines ++ step_lines step) result self.new.player (K.state out.new) }
    {
        match step {
            SheetStep::Ticks(count) => self.player.tick(count, &mut self.display, out),
            SheetStep::Line(tag, text) => {
                self.report.count();
                let line = text.as_slice();
                let reply = self.player.take_client_line(alloc, tag, line, out)?;
                self.report.take(alloc, &self.player.setup, line, reply);
                Ok(())
            }
        }
    }
}
