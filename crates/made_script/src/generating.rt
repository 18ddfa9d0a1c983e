//! A generated script, played for its summary.
ghost use Rattle.std.specs.Prelude.{◌≡◌, ◌≢◌, ◌≤◌, ℕ, List, []};
ghost use Rattle.hex.specs.Hex.{encode_lower};
ghost use Rattle.sha2.specs.Hashers.{Holds256};
ghost use Rattle.sha2.specs.Sha256.{sha256};
ghost use Rattle.play_types.specs.History.{ticks};
ghost use Rattle.history_model.specs.scripts.Generator.{events_besides_ticks, generated_lines};
ghost use Rattle.history_model.specs.scripts.History.{PlayedLine};
ghost use Rattle.script_player.specs.declared.ending.Halt.TheVariants.{Rejected};
ghost use Rattle.script_player.specs.Ending.{fault_in};
ghost use Rattle.script_player.specs.Display.{IsShownBy};
ghost use Rattle.script_player.specs.Shown.{Frames};
ghost use Rattle.made_script.specs.Generating.{Generates};
ghost use Rattle.made_script.specs.inner.Made.{EndsMade, HasMade, HasPlayed, PlaysAll, SendsSummary};
ghost use Rattle.script_player.specs.Player.{IsReady, events_in};

use crate::generator::Generator;
use crate::made_run::MadeRun;
use frame_display::{FrameDisplay, FrameOptions};
use itoa::Buffer;
use play_journal::Journal;
use play_outside::{Sent, Sink, send_parts};
use play_types::Event;
use script_player::{Display, Halt, generator_setup};
use server_setup::RunFault;
use sha2::{Digest, Sha256};
use std::alloc::Global;
use std::thread::Threads;
use vec_sink::VecSink;

/// One thread makes the frames, and they are written whole.
const PLAINLY: FrameOptions = FrameOptions {
    digests: false,
    workers: 1,
};

/// The most steps of a generated script.
pub const MAX_STEPS: u32 = 100_000;

/// Generates the script of `steps` steps from `seed`, plays it, and writes its summary. A failed write of the summary is `Device`. If
/// memory runs out, nothing is written.
pub fn generate<R: Threads + Sync, K: Sink>(
    rt: &R,
    alloc: Global,
    seed: u64,
    steps: u32,
    out: &mut K,
) -> Result<(), RunFault>
    requires { steps ≤ MAX_STEPS }
    ensures { Generates seed steps (fault_in result) (K.state out.old) (K.state out.new) }
{
    let setup = generator_setup(alloc)?;
    let mut display = FrameDisplay::new(rt, alloc, &setup, PLAINLY)?;
    let mut run = MadeRun::new(alloc, setup)?;
    outcome(play(alloc, seed, steps, &mut run, &mut display))?;
    send_summary(run, out)?;
    Ok(())
}

/// Returns the fault with which a generated script ends, if it has one. A line that stops the run is no fault. The output of a line is
/// kept in memory, so a write of it fails only if that runs out.
fn outcome(played: Result<(), Halt>) -> Result<(), RunFault>
    requires { played ≢ Err Rejected }
    ensures { EndsMade played (fault_in result) }
{
    match played {
        Ok(()) | Err(Halt::Stop) => Ok(()),
        Err(Halt::Write | Halt::Memory) => Err(RunFault::OutOfMemory),
        Err(Halt::Rejected) => unreachable!(),
    }
}

/// Generates and plays the lines of the script, and a last tick.
fn play<D: Display>(
    alloc: Global,
    seed: u64,
    steps: u32,
    run: &mut MadeRun,
    display: &mut D,
) -> Result<(), Halt>
    requires few_steps { steps ≤ MAX_STEPS }
    requires ready { IsReady run.old.player }
    requires frames { D.shown display.old ≡ Frames }
    requires shown { IsShownBy (D.shows display.old) (D.waiting display.old) run.old.player }
    requires no_ticks { ticks (events_in run.old.player) ≡ 0 }
    requires none_refused { run.old.refused ≡ 0 }
    requires made { HasMade [] run.old }
    ensures { PlaysAll (generated_lines seed steps) result run.new }
{
    let mut generator = Generator::new(seed);
    for _step in 0..steps {
        let mut line = VecSink::new(alloc);
        match generator.send_line(&mut line) {
            Sent::All => {}
            Sent::Failed => return Err(Halt::Memory),
        }
        run.take_line(alloc, line.taken.as_slice(), display)?;
    }
    run.take_line(alloc, b"T", display)
}

/// Writes the summary of a run: the number of events that are no ticks, that of ticks, that of replies whose code is 400 or more, and the
/// digest of the output.
fn send_summary<K: Sink>(run: MadeRun, out: &mut K) -> Sent
    ensures { (lines : List PlayedLine) → HasPlayed lines run → SendsSummary lines result (K.state out.old) (K.state out.new) }
{
    let journal = run.player.stage.journal();
    let commands = commands_in(journal);
    let ticks = journal.ticks();
    send_parts(
        &[
            b"commands ",
            Buffer::new().format(commands).as_bytes(),
            b"\nticks ",
            Buffer::new().format(ticks).as_bytes(),
            b"\nrefused ",
            Buffer::new().format(run.refused).as_bytes(),
            b"\ndigest ",
            &digits_of(run.hasher),
            b"\n",
        ],
        out,
    )
}

/// Returns the number of events of a journal that are no ticks.
fn commands_in(journal: &Journal) -> u64
    ensures { result ≡ events_besides_ticks journal.now.events }
{
    let _held = journal.held();
    let mut commands = 0;
    for run in journal.events() {
        match run.event {
            Event::Tick => {}
            Event::Do(_, _) | Event::Batch(_, _) | Event::Stop(_) => commands += 1,
        }
    }
    commands
}

/// Returns the digest of a hasher in lower-case hexadecimal.
fn digits_of(hasher: Sha256) -> [u8; 64]
    ensures { (message : List ℕ) → Holds256 hasher message → result ≡ encode_lower (sha256 message) }
{
    let mut digits = [0; 64];
    hex::encode_to_slice(hasher.finalize(), &mut digits).unwrap();
    digits
}
