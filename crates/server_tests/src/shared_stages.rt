//! Two threads that share a stage, with ample memory.
ghost use Rattle.std.specs.Prelude.{◌≡◌, IfSome};
ghost use Rattle.history_model.specs.commands.Channels.{IsServed};

use crate::config::one_channel;
use crate::stages::{close, shared_by_two};
use play_types::{Cmd, Event, Place, Spec, Take, Trans};
use stage_core::Stage;
use stage_lock::{Pass, SharedStage};
use std::alloc::Global;
use std::sync::Wait;
use std::test::Fail;
use std::thread;
use std::thread::Threads;

/// How many commands each pass asks.
const COMMANDS: u32 = 10;

/// Returns a LOAD of a colour at a layer of channel 1.
fn load(layer: u16, colour: u32) -> Option<Cmd>
    ensures { IfSome result (λ cmd. IsServed 1 cmd) }
{
    let take = Take::new(Spec::Colour(colour), false, 0, 0, Trans::cut(), false)?;
    Some(Cmd::load(Place::new(1, layer)?, take))
}

/// Asks a LOAD of each colour below `COMMANDS` at a layer, one after another, in session 7.
fn ask_ten<R: Wait>(rt: &R, alloc: Global, stage: &SharedStage, mut pass: Pass, layer: u16) -> Pass
    requires of { pass.stage ≡ stage.now }
    requires channels { stage.now.sizes.channels ≡ 1 }
    ensures { result.stage ≡ stage.now }
{
    for colour in 0..COMMANDS {
        if let Some(cmd) = load(layer, colour) {
            let _ = stage.ask(rt, alloc, &mut pass, 7, cmd);
        }
    }
    pass
}

/// Lets two passes ask at once, each on a thread and a layer of its own.
fn ask_both<R: Threads + Wait + Sync>(
    rt: &R,
    alloc: Global,
    stage: &SharedStage,
    first: Pass,
    second: Pass,
) -> (Pass, Pass)
    requires first { first.stage ≡ stage.now }
    requires second { second.stage ≡ stage.now }
    requires channels { stage.now.sizes.channels ≡ 1 }
    ensures first { result.0.stage ≡ stage.now }
    ensures second { result.1.stage ≡ stage.now }
{
    thread::join(
        rt,
        || -> Pass
            requires { (first.stage ≡ stage.now) × (stage.now.sizes.channels ≡ 1) }
            ensures { result.stage ≡ stage.entry.now }
        { ask_ten(rt, alloc, stage, first, 10) },
        || -> Pass
            requires { (second.stage ≡ stage.now) × (stage.now.sizes.channels ≡ 1) }
            ensures { result.stage ≡ stage.entry.now }
        { ask_ten(rt, alloc, stage, second, 11) },
    )
}

/// Returns whether a journal holds the commands of both passes, those of each in the order in which it asked them.
fn holds_all(stage: &Stage) -> bool {
    let mut asked = [0u32; 2];
    for run in stage.journal().events() {
        let Event::Do(tag, cmd) = run.event else {
            return false;
        };
        if tag.session != 7 || tag.worker > 1 {
            return false;
        }
        let (at, layer) = if tag.worker == 0 { (0, 10) } else { (1, 11) };
        if load(layer, asked[at]) != Some(*cmd) {
            return false;
        }
        asked[at] = asked[at].wrapping_add(1);
    }
    asked == [COMMANDS; 2]
}

/// Lets both passes of a new stage ask at once, and returns the stage after that.
fn asked_by_both<R: Threads + Wait + Sync>(rt: &R, alloc: Global) -> Result<Stage, Fail> {
    let config = one_channel(alloc)?;
    let (shared, first, second) = shared_by_two(alloc, &config)?;
    let (first, second) = ask_both(rt, alloc, &shared, first, second);
    close(rt, alloc, shared, second, first)
}

#[test]
fn each_pass_finds_its_commands_in_order(rt: HostRuntime) -> Result<(), Fail> {
    let stage = asked_by_both(&rt, rt.alloc())?;
    assert!(rt; holds_all(&stage));
    Ok(())
}
