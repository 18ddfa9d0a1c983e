//! The program: the words, the input, the folder, the output and the exit status.
ghost use Rattle.std.specs.Prelude.{◌≡◌, map, string_bytes};
ghost use Rattle.script_player.specs.Ending.{exit_status, fault_in, last_line};
ghost use Rattle.run_script.specs.CommandLine.{IsInRange, command_line_view};
ghost use Rattle.run_script.specs.Program.{PlaysScript, WritesFaultLine};
ghost use Rattle.run_script.specs.inner.Outcome.{PlaysCommandLine};

use crate::command_line::CommandLine;
use crate::converting::convert;
use crate::devices::Devices;
use crate::running::{ScriptRun, report};
use cue_player::SheetRun;
use frame_display::FrameOptions;
use made_script::generate;
use play_outside::{MediaDir, Sink, Source};
use script_film::{FilmOptions, FilmRun};
use script_player::{Silent, Teller, plain_setup};
use server_setup::{RunFault, set_up};
use std::alloc::Global;
use std::thread::Threads;

/// One thread makes the frames, and they are written whole.
const ONE_WORKER: FrameOptions = FrameOptions {
    digests: false,
    workers: 1,
};

/// Plays a script: reads it from the input, and writes the replies and the frames. Or generates a script, plays it and
/// writes its summary; or converts a clip; or plays a cue sheet; or plays a script and writes a film that was recorded in it.
///
/// The words are `run W H`, a width and a height from 1 to 4,096: one channel of that size, without sound and without
/// clips. Or they are `run --config FILE`, after which `--workers N`, a number from 1 to 64, and then `--digest` may
/// follow: the channels of the configuration in that file, and the clips of the folder that it names. With `--digest`
/// each frame is written as its digest. The frames are made by `N` threads, and by one if no number is given; the number
/// changes nothing that is written.
///
/// The words `gen SEED STEPS`, a number of 64 bits and one from 1 to 100,000, generate a script of `STEPS` random steps, play it
/// and write four lines: the number of events that are no ticks, that of ticks, that of replies whose code is 400 or more,
/// and the digest of what a run of the script would write. Nothing is read. The word `convert` reads a clip from the input,
/// and writes it as a clip of version 2 that shows the same.
///
/// The words `plan --config FILE`, followed by what may follow `run --config FILE`, play a cue sheet of at most 268,435,456
/// bytes: each of its lines exactly at its moment, which is a number of ticks. The input is read to its end before any of it
/// is looked at. The output is that of the script to which the sheet unfolds.
///
/// The words `osc --config FILE` play a script as `run --config FILE` does, with the status of all channels after each tick in
/// place of its frames, which are not made. After tick `t` each line `O t` has the bytes of one OSC message in hexadecimal: one
/// for the ticks of each channel, and three for each layer that has a foreground.
///
/// The words `record --config FILE NAME`, a name of a recording as `ADD c FILE NAME` takes it, after which `--workers N` may follow,
/// play a script on the configuration in that file, with nothing written, and then write the clip file of the film that was recorded
/// under the name: the ticks of a channel after the first such `ADD` that is accepted, up to the next accepted mark of the channel
/// or to the end of the history. A line that would be answered with 500 or 501 ends the run with status 5. The number of threads
/// changes nothing that is written.
///
/// The words are tested first, then the configuration is read and tested, then the clips are read, and then the script is
/// played. The first cause that is met gives the exit status, which is returned.
///
/// | Status | Cause | The output's last line |
/// |---|---|---|
/// | 0 | the input was read to its end, or to a line at which the run ends, or the script was generated and played; and all was written | |
/// | 1 | the words are no command line | `E usage` |
/// | 2 | the configuration is not TOML, or `read_config` refuses a key of it | `E config text`, `E config key KEY` |
/// | 2 | a line was received that is not valid in a script, or more than 4,294,967,296 bytes were read | `E line n`, `E input too long` |
/// | 2 | more than 1,073,741,824 bytes were read to convert them, or `decode` refuses them | `E input too long`, `E clip magic`, `E clip version`, `E clip field n`, `E clip short n m`, `E clip long n` |
/// | 2 | more than 268,435,456 bytes were read of a cue sheet, or `read_sheet` refuses them | `E input too long`, `E plan n`, `E plan end` |
/// | 2 | the history of the script has no film of the name, which is written in capitals | `E record NAME` |
/// | 3 | two clip files have one name, or the clip files are too large | `E media twice NAME`, `E media total n` |
/// | 4 | a read or a write failed | `E device` |
/// | 5 | memory ran out, also for a line of a generated script | `E memory` |
///
/// Status 1 comes exactly for its cause, and each other status above 0 only for one of its causes. If the files of the folder
/// are known, a cause in the configuration or in the clips is always met, unless a read fails or memory runs out before it.
///
/// Wherever a read of the input fails, the output is exactly that of the lines received before it, and then the line of the
/// fault. Whether a read fails is not known before it is made, so this is how the program has to behave at every read.
///
/// It waits for nobody and always returns.
pub fn run_main<R: Threads + Sync, I: Source, M: MediaDir, O: Sink>(
    rt: &R,
    alloc: Global,
    words: &[String],
    input: &mut I,
    media: &mut M,
    out: &mut O,
) -> u8
    ensures { PlaysScript (map string_bytes words.now) result
        (record { media = M.state media.old; input = I.state input.old; out = O.state out.old })
        (record { media = M.state media.new; input = I.state input.new; out = O.state out.new }) }
{
    let devices = Devices { input, media, out };
    run_and_tell(rt, alloc, words, devices, &mut Silent)
}

/// Does what [`run_main`] does, and reports to `teller` the words for which lines of the script are refused, the refused cues or the
/// fault of a cue sheet, and the progress of writing a film. The reports change nothing that is read or written, and not the status.
pub fn run_and_tell<R: Threads + Sync, I: Source, M: MediaDir, O: Sink, T: Teller>(
    rt: &R,
    alloc: Global,
    words: &[String],
    devices: Devices<'_, I, M, O>,
    teller: &mut T,
) -> u8
    ensures { PlaysScript (map string_bytes words.now) result
        (record { media = M.state devices.entry.media.now; input = I.state devices.entry.input.now; out = O.state devices.entry.out.now })
        (record { media = M.state devices.exit.1.0.now; input = I.state devices.exit.0.now; out = O.state devices.exit.1.1.0.now }) }
{
    let Devices { input, media, out } = devices;
    match CommandLine::read(words) {
        Some(line) => {
            let devices = Devices { input, media, out };
            let outcome = play(rt, alloc, line, devices, teller);
            end(outcome, out)
        }
        None => end(Err(RunFault::Usage), out),
    }
}

/// Executes a command line.
fn play<R: Threads + Sync, I: Source, M: MediaDir, O: Sink, T: Teller>(
    rt: &R,
    alloc: Global,
    line: CommandLine<'_>,
    devices: Devices<'_, I, M, O>,
    teller: &mut T,
) -> Result<(), RunFault>
    requires { IsInRange line }
    ensures { PlaysCommandLine (command_line_view line.entry) result
        (record { media = M.state devices.entry.media.now; input = I.state devices.entry.input.now; out = O.state devices.entry.out.now })
        (record { media = M.state devices.exit.1.0.now; input = I.state devices.exit.0.now; out = O.state devices.exit.1.1.0.now }) }
{
    let Devices { input, media, out } = devices;
    match line {
        CommandLine::Plain(size) => {
            let setup = plain_setup(alloc, size)?;
            let options = ONE_WORKER;
            let script = ScriptRun {
                setup,
                options,
                teller,
            };
            script.play(rt, alloc, input, out).outcome()
        }
        CommandLine::Configured {
            path,
            digests,
            workers,
        } => {
            let setup = set_up(rt, alloc, path, media)?;
            let options = FrameOptions { digests, workers };
            let script = ScriptRun {
                setup,
                options,
                teller,
            };
            script.play(rt, alloc, input, out).outcome()
        }
        CommandLine::Generated { seed, steps } => generate(rt, alloc, seed, steps, out),
        CommandLine::Converted => convert(alloc, input, out),
        CommandLine::Reported { path } => {
            let setup = set_up(rt, alloc, path, media)?;
            report(alloc, setup, input, out, teller).outcome()
        }
        CommandLine::Planned {
            path,
            digests,
            workers,
        } => {
            let setup = set_up(rt, alloc, path, media)?;
            let options = FrameOptions { digests, workers };
            let sheet = SheetRun {
                setup,
                options,
                teller,
            };
            sheet.play(rt, alloc, input, out)
        }
        CommandLine::Recorded {
            path,
            name,
            workers,
        } => {
            let setup = set_up(rt, alloc, path, media)?;
            let options = FilmOptions { name, workers };
            let film = FilmRun {
                setup,
                options,
                teller,
            };
            film.record(rt, alloc, input, out)
        }
    }
}

/// Writes the line of a fault, if there is one, and returns the exit status.
fn end<O: Sink>(outcome: Result<(), RunFault>, out: &mut O) -> u8
    ensures status { result ≡ exit_status (fault_in outcome) }
    ensures said { WritesFaultLine (last_line (fault_in outcome)) (O.state out.old) (O.state out.new) }
{
    match outcome {
        Ok(()) => 0,
        Err(fault) => {
            let _ = fault.send_line(out);
            fault.status()
        }
    }
}
