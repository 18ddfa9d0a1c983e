//! Threads that wait for one another again and again, with ample memory. No clause says that a wait ends. A thread beside them
//! ends the process with a failure if they have not all ended in time.
ghost use Rattle.std.specs.Prelude.{◌≡◌, IfOk, IfSome, length, map};
ghost use Rattle.std.specs.List.{range_with_len};
ghost use Rattle.history_model.specs.commands.Channels.{IsServed};
ghost use Rattle.stage_lock.specs.Calls.{new_pass};

use play_types::{Channel, ChannelList, Cmd, Config, Place, Spec, Take, Text, Trans};
use scene_pipe::{Room, ScenePipe, StageEnd, Taken, WriteEnd};
use stage_core::Stage;
use stage_lock::{Pass, SharedStage};
use std::alloc::Global;
use std::process::Abort;
use std::sync::Wait;
use std::sync::atomic::{AtomicBool, Ordering};
use std::test::Fail;
use std::thread;
use std::thread::Threads;
use std::time::{Clock, Duration};

/// How many passes the shared stage has.
const PASSES: u32 = 8;

/// How often each pass looks.
const LOOKS: u32 = 100_000;

/// How many commands each pass asks.
const COMMANDS: u32 = 10_000;

/// How many sets of scenes go through the pipe and back.
const SETS_SENT: u64 = 100_000;

/// How many hundredths of a second the threads may take.
const PATIENCE: u32 = 4_000;

/// Returns once `done` is set, and ends the process with a failure if it is not set in time: a thread that sleeps for ever cannot be
/// joined.
fn watch<R: Abort + Clock>(rt: &R, done: &AtomicBool) {
    for _ in 0..PATIENCE {
        if done.load(Ordering::SeqCst) {
            return;
        }
        thread::sleep(rt, Duration::from_millis(10));
    }
    assert!(rt; done.load(Ordering::SeqCst), "a thread waits for ever");
}

/// Returns a configuration of one channel of one pixel, whose journal has room for the commands of all passes.
fn config(alloc: Global) -> Result<Config, Fail>
    ensures { IfOk result (λ config. length config.channels ≡ 1) }
{
    let mut channels = ChannelList::new(alloc);
    let output = Text::copy(alloc, "o")?;
    channels.push(Channel::new(1, 1, 0, output).ok_or("a channel")?)?;
    let listen = Text::copy(alloc, "l")?;
    let media = Text::copy(alloc, "m")?;
    let commands = PASSES * COMMANDS;
    Ok(Config::new(listen, media, 25, 4, commands, channels).ok_or("a configuration")?)
}

/// Returns a LOAD of a colour at layer 10 of channel 1.
fn load(colour: u32) -> Option<Cmd>
    ensures { IfSome result (λ cmd. IsServed 1 cmd) }
{
    let take = Take::new(Spec::Colour(colour), false, 0, 0, Trans::cut(), false)?;
    Some(Cmd::load(Place::new(1, 10)?, take))
}

/// What callers of a shared stage do.
#[derive(Clone, Copy, Drop)]
enum Act {
    Look,
    Ask,
}

/// A caller of a shared stage of one channel.
#[derive(Drop)]
struct Caller<'a> {
    stage: &'a SharedStage,
    pass: Pass,
    ghost of: { pass.stage ≡ stage.now },
    ghost channels: { stage.now.sizes.channels ≡ 1 },
}

impl<'a> Caller<'a> {
    /// Looks or asks again and again, and returns how many looks found no stop, or how many commands were answered.
    fn act<R: Wait>(self, rt: &R, alloc: Global, act: Act) -> u32 {
        match act {
            Act::Look => self.look(rt),
            Act::Ask => self.ask(rt, alloc),
        }
    }

    /// Looks again and again, and returns how many looks found no stop.
    fn look<R: Wait>(self, rt: &R) -> u32 {
        let mut caller = self;
        let mut found = 0u32;
        for _ in 0..LOOKS {
            let (next, is_running) = caller.look_once(rt);
            caller = next;
            found = found.wrapping_add(u32::from(is_running));
        }
        found
    }

    /// Looks once, and returns the caller, and whether the look found no stop.
    fn look_once<R: Wait>(self, rt: &R) -> (Caller<'a>, bool) {
        let Caller { stage, mut pass } = self;
        let is_running = stage.ended(rt, &mut pass).is_none();
        (Caller { stage, pass }, is_running)
    }

    /// Asks commands one after another, and returns how many were answered.
    fn ask<R: Wait>(self, rt: &R, alloc: Global) -> u32 {
        let mut caller = self;
        let mut answered = 0u32;
        for colour in 0..COMMANDS {
            let (next, is_answered) = caller.ask_once(rt, alloc, colour);
            caller = next;
            answered = answered.wrapping_add(u32::from(is_answered));
        }
        answered
    }

    /// Asks a LOAD of a colour, and returns the caller, and whether it was answered.
    fn ask_once<R: Wait>(self, rt: &R, alloc: Global, colour: u32) -> (Caller<'a>, bool) {
        let Caller { stage, mut pass } = self;
        let is_answered = match load(colour) {
            Some(cmd) => stage.ask(rt, alloc, &mut pass, 1, cmd).is_ok(),
            None => false,
        };
        (Caller { stage, pass }, is_answered)
    }
}

/// Two callers, and four.
type Two<'a> = (Caller<'a>, Caller<'a>);

type Four<'a> = (Two<'a>, Two<'a>);

/// Lets two callers act at once, each on a thread of its own, and returns the sum of what they counted.
fn both<R: Threads + Wait + Sync>(rt: &R, alloc: Global, act: Act, callers: Two<'_>) -> u32 {
    let (one, other) = callers;
    let (first, second) = thread::join(
        rt,
        || one.act(rt, alloc, act),
        || other.act(rt, alloc, act),
    );
    first.wrapping_add(second)
}

/// Lets four callers act at once.
fn all_four<R: Threads + Wait + Sync>(rt: &R, alloc: Global, act: Act, callers: Four<'_>) -> u32 {
    let (some, others) = callers;
    let (first, second) = thread::join(
        rt,
        || both(rt, alloc, act, some),
        || both(rt, alloc, act, others),
    );
    first.wrapping_add(second)
}

/// Lets eight callers act at once, and ends the process with a failure if they do not end in time.
fn all_eight<R: Threads + Wait + Abort + Clock + Sync>(
    rt: &R,
    alloc: Global,
    act: Act,
    some: Four<'_>,
    others: Four<'_>,
) -> u32 {
    let done = AtomicBool::new(false);
    let ((), (first, second)) = thread::join(
        rt,
        || watch(rt, &done),
        || {
            let counted = thread::join(
                rt,
                || all_four(rt, alloc, act, some),
                || all_four(rt, alloc, act, others),
            );
            done.store(true, Ordering::SeqCst);
            counted
        },
    );
    first.wrapping_add(second)
}

/// Lets the eight passes of a new stage act at once, and returns the sum of what they counted.
fn counted<R: Threads + Wait + Abort + Clock + Sync>(
    rt: &R,
    alloc: Global,
    act: Act,
) -> Result<u32, Fail> {
    let stage = Stage::new(alloc, &config(alloc)?)?;
    let Ok((shared, mut passes)) = SharedStage::share(alloc, stage, PASSES) else {
        return Err("memory for a shared stage")?;
    };
    count_all(rt, alloc, act, &shared, &mut passes)
}

/// Lets the eight passes of a stage act at once, and returns the sum of what they counted.
fn count_all<R: Threads + Wait + Abort + Clock + Sync>(
    rt: &R,
    alloc: Global,
    act: Act,
    stage: &SharedStage,
    passes: &mut Vec<Pass>,
) -> Result<u32, Fail>
    requires passes { passes.old.items ≡ map (new_pass stage.now) (range_with_len 0 8) }
    requires channels { stage.now.sizes.channels ≡ 1 }
{
    let some = last_four(stage, passes)?;
    let others = first_four(stage, passes)?;
    Ok(all_eight(rt, alloc, act, some, others))
}

/// Returns callers with the last four of eight passes, and leaves the first four.
fn last_four<'a>(stage: &'a SharedStage, passes: &mut Vec<Pass>) -> Result<Four<'a>, Fail>
    requires passes { passes.old.items ≡ map (new_pass stage.now) (range_with_len 0 8) }
    requires channels { stage.now.sizes.channels ≡ 1 }
    ensures { IfOk result (λ _. passes.new.items ≡ map (new_pass stage.now) (range_with_len 0 4)) }
{
    let Some(pass) = passes.pop() else {
        return Err("eight passes")?;
    };
    let first = Caller { stage, pass };
    let Some(pass) = passes.pop() else {
        return Err("eight passes")?;
    };
    let second = Caller { stage, pass };
    let Some(pass) = passes.pop() else {
        return Err("eight passes")?;
    };
    let third = Caller { stage, pass };
    let Some(pass) = passes.pop() else {
        return Err("eight passes")?;
    };
    let fourth = Caller { stage, pass };
    Ok(((first, second), (third, fourth)))
}

/// Returns callers with four passes.
fn first_four<'a>(stage: &'a SharedStage, passes: &mut Vec<Pass>) -> Result<Four<'a>, Fail>
    requires passes { passes.old.items ≡ map (new_pass stage.now) (range_with_len 0 4) }
    requires channels { stage.now.sizes.channels ≡ 1 }
{
    let Some(pass) = passes.pop() else {
        return Err("eight passes")?;
    };
    let first = Caller { stage, pass };
    let Some(pass) = passes.pop() else {
        return Err("eight passes")?;
    };
    let second = Caller { stage, pass };
    let Some(pass) = passes.pop() else {
        return Err("eight passes")?;
    };
    let third = Caller { stage, pass };
    let Some(pass) = passes.pop() else {
        return Err("eight passes")?;
    };
    let fourth = Caller { stage, pass };
    Ok(((first, second), (third, fourth)))
}

/// Eight threads take the turn of a stage 100,000 times each for a look.
#[test]
fn looks_get_their_turns(rt: HostRuntime) -> Result<(), Fail> {
    let found = counted(&rt, rt.alloc(), Act::Look)?;
    assert_eq!(rt; found, PASSES * LOOKS);
    Ok(())
}

/// Eight threads take the turn of a stage 10,000 times each for a command, and each command is answered.
#[test]
fn commands_get_their_turns(rt: HostRuntime) -> Result<(), Fail> {
    let answered = counted(&rt, rt.alloc(), Act::Ask)?;
    assert_eq!(rt; answered, PASSES * COMMANDS);
    Ok(())
}

/// The staging end of a pipe for one channel.
#[derive(Drop)]
struct Staging {
    end: StageEnd,
    ghost channels: { end.channels ≡ 1 },
}

impl Staging {
    /// Sends on each set of scenes that comes back, with the next number, from 1, and then the end mark.
    fn send_all<R: Wait>(self, rt: &R) {
        let mut staging = self;
        for tick in 1..=SETS_SENT {
            let (next, is_sent) = staging.send_next(rt, tick);
            staging = next;
            if !is_sent {
                break;
            }
        }
        let Staging { mut end } = staging;
        end.finish(rt);
    }

    /// Sends a set of scenes that comes back, and returns the end, and whether there were scenes of one channel.
    #[tactic(auto, using(crate::proofs::Ends::room_channels))]
    fn send_next<R: Wait>(self, rt: &R, tick: u64) -> (Staging, bool) {
        let Staging { mut end } = self;
        let Room::Free(scenes) = end.room(rt) else {
            return (Staging { end }, false);
        };
        if scenes.channels() != 1 {
            return (Staging { end }, false);
        }
        end.send(rt, tick, scenes);
        (Staging { end }, true)
    }
}

/// The writing end of a pipe for one channel.
#[derive(Drop)]
struct Writing {
    end: WriteEnd,
    ghost channels: { end.channels ≡ 1 },
}

impl Writing {
    /// Gives back each set of scenes that it takes, and returns how many came before the end mark, each with the next number.
    fn give_all_back<R: Wait>(self, rt: &R) -> u64 {
        let mut writing = self;
        let mut taken = 0u64;
        for _ in 0..=SETS_SENT {
            let (next, tick) = writing.give_next_back(rt);
            writing = next;
            if tick != Some(taken.wrapping_add(1)) {
                break;
            }
            taken = taken.wrapping_add(1);
        }
        taken
    }

    /// Gives the next set of scenes back, and returns the end, and the number of the set, `None` for the end mark.
    #[tactic(auto, using(crate::proofs::Ends::taken_channels))]
    fn give_next_back<R: Wait>(self, rt: &R) -> (Writing, Option<u64>) {
        let Writing { mut end } = self;
        let Taken::Staged { tick, scenes } = end.take(rt) else {
            return (Writing { end }, None);
        };
        if scenes.channels() != 1 {
            return (Writing { end }, None);
        }
        end.give(rt, scenes);
        (Writing { end }, Some(tick))
    }
}

/// Four sets of scenes go through a pipe and back 100,000 times in all, while each side waits for the other.
#[test]
fn every_set_goes_through_and_back(rt: HostRuntime) -> Result<(), Fail> {
    let alloc = rt.alloc();
    let pipe = ScenePipe::new(alloc, &config(alloc)?)?;
    let (stage, write) = pipe.split();
    let staging = Staging { end: stage };
    let writing = Writing { end: write };
    let done = AtomicBool::new(false);
    let ((), ((), taken)) = thread::join(
        &rt,
        || watch(&rt, &done),
        || {
            let both = thread::join(&rt, || staging.send_all(&rt), || writing.give_all_back(&rt));
            done.store(true, Ordering::SeqCst);
            both
        },
    );
    assert_eq!(rt; taken, SETS_SENT);
    Ok(())
}
