//! Two channels over two pulses, with ample memory. The bytes were worked out by hand.
ghost use Rattle.std.specs.Prelude.{◌≡◌, [], IfOk, IfSome, length, vec_len};
ghost use Rattle.history_model.specs.commands.Channels.{IsServed};
ghost use Rattle.play_ticker.specs.Frames.{AreBlank};

use crate::stages::{shared_by_one, shared_by_two};
use band_render::Renderer;
use clip_format::MediaTable;
use play_outside::{Beat, Clock, Flag, FlaggedCall, HeldClock, HeldSink, MemClock, MemSink};
use play_ticker::{TickEnd, laws, tick_all};
use play_types::{Channel, ChannelList, Cmd, Config, Place, Spec, Take, Text, Trans};
use scene_pipe::ScenePipe;
use stage_lock::{Pass, SharedStage};
use std::alloc::Global;
use std::sync::atomic::AtomicBool;
use std::sync::{Arc, Wait};
use std::test::Fail;
use std::thread::Threads;

/// Opaque red.
const RED: Spec = Spec::Colour(0xFFFF_0000);

/// Returns a channel of one pixel and one stereo pair.
fn channel(alloc: Global) -> Result<Channel, Fail> {
    let output = Text::copy(alloc, "o")?;
    Ok(Channel::new(1, 1, 1, output).ok_or("a channel")?)
}

/// Returns a configuration of two such channels.
fn two_channels(alloc: Global) -> Result<Config, Fail>
    ensures { IfOk result (λ config. length config.channels ≡ 2) }
{
    let mut channels = ChannelList::new(alloc);
    channels.push(channel(alloc)?)?;
    channels.push(channel(alloc)?)?;
    let listen = Text::copy(alloc, "l")?;
    let media = Text::copy(alloc, "m")?;
    Ok(Config::new(listen, media, 25, 1, 10, channels).ok_or("a configuration")?)
}

/// Returns a LOAD of red at channel 2.
fn red() -> Option<Cmd>
    ensures { IfSome result (λ cmd. IsServed 2 cmd) }
{
    let take = Take::new(RED, false, 0, 0, Trans::cut(), false)?;
    Some(Cmd::load(Place::new(2, 0)?, take))
}

/// Returns a LOAD of a route to channel 2 at channel 1.
fn route() -> Option<Cmd>
    ensures { IfSome result (λ cmd. IsServed 2 cmd) }
{
    let take = Take::new(Spec::RouteChannel(2), false, 0, 0, Trans::cut(), false)?;
    Some(Cmd::load(Place::new(1, 0)?, take))
}

/// Returns a renderer of the two channels of a configuration.
fn two_frames(alloc: Global, config: &Config) -> Result<Renderer, Fail>
    requires { length config.now.channels ≡ 2 }
    ensures blank { IfOk result (λ renderer. AreBlank renderer) }
    ensures many { IfOk result (λ renderer. length renderer ≡ 2) }
{
    Ok(Renderer::new(alloc, config, 1)?)
}

/// Returns two outputs, each with room for 16 bytes.
fn two_outputs(alloc: Global) -> Result<Vec<MemSink>, Fail>
    ensures { IfOk result (λ outs. vec_len outs ≡ 2) }
{
    let mut outs = Vec::new(alloc);
    outs.push(MemSink::new(alloc, 0, 16, 5, Vec::new(alloc))?)?;
    outs.push(MemSink::new(alloc, 0, 16, 5, Vec::new(alloc))?)?;
    Ok(outs)
}

/// Asks for red on channel 2, and for a route to channel 2 on channel 1.
fn ask_both<R: Wait>(
    rt: &R,
    alloc: Global,
    stage: &SharedStage,
    pass: &mut Pass,
) -> Result<(), Fail>
    requires of { pass.old.stage ≡ stage.now }
    requires channels { stage.now.sizes.channels ≡ 2 }
{
    let red = red().ok_or("red")?;
    let route = route().ok_or("a route")?;
    stage.ask(rt, alloc, pass, 1, red)?;
    stage.ask(rt, alloc, pass, 1, route)?;
    Ok(())
}

/// A clock that keeps each number of commands that it gets by `holds`.
#[derive(Drop)]
struct ToldClock {
    clock: MemClock,
    told: Vec<u32>,
}

impl Clock for ToldClock {
    ghost state = { λ t. ⟦<MemClock as Clock>⟧.state t.clock };

    fn next(&mut self) -> Beat {
        self.clock.next()
    }

    fn holds(&mut self, commands: u32) {
        let _ = self.told.push(commands);
    }
}

/// How two pulses ended, the outputs after them, and how many commands the history held at each, as the clock got it.
#[derive(Drop)]
struct Taken {
    end: TickEnd,
    outs: Vec<MemSink>,
    told: Vec<u32>,
}

/// Takes two pulses.
fn take_two<R: Threads + Wait + Sync>(
    rt: &R,
    alloc: Global,
    config: &Config,
    stage: &SharedStage,
    pass: &mut Pass,
) -> Result<Taken, Fail>
    requires of { pass.old.stage ≡ stage.now }
    requires first { pass.old.number ≡ 0 }
    requires made { pass.old.made ≡ [] }
    requires config { length config.now.channels ≡ 2 }
    requires channels { stage.now.sizes.channels ≡ 2 }
    requires given { stage.now.sizes.given ≡ [] }
{
    laws::frames_from_the_beginning();
    let media = MediaTable::empty(alloc)?;
    let mut renderer = two_frames(alloc, config)?;
    let pipe = ScenePipe::new(alloc, config)?;
    let mut outs = two_outputs(alloc)?;
    let mut clock = ToldClock {
        clock: MemClock::new(2, Vec::new(alloc)),
        told: Vec::new(alloc),
    };
    let end = tick_all(
        rt,
        stage,
        pass,
        &mut renderer,
        pipe,
        &media,
        &mut clock,
        &mut outs,
    );
    let ToldClock { told, .. } = clock;
    Ok(Taken { end, outs, told })
}

/// Returns whether output `at` took these bytes.
fn took(outs: &[MemSink], at: usize, bytes: &[u8]) -> bool {
    match outs.get(at) {
        Some(out) => out.taken() == bytes,
        None => false,
    }
}

/// Asks for red and for the route to it, and takes two pulses.
fn ask_and_take<R: Threads + Wait + Sync>(rt: &R, alloc: Global) -> Result<Taken, Fail> {
    let config = two_channels(alloc)?;
    ask_and_take_with(rt, alloc, &config)
}

/// Asks for red and for the route to it at a new stage of a configuration, and takes two pulses.
fn ask_and_take_with<R: Threads + Wait + Sync>(
    rt: &R,
    alloc: Global,
    config: &Config,
) -> Result<Taken, Fail>
    requires { length config.now.channels ≡ 2 }
{
    let (shared, mut first, mut second) = shared_by_two(alloc, config)?;
    ask_both(rt, alloc, &shared, &mut second)?;
    take_two(rt, alloc, config, &shared, &mut first)
}

/// Channel 1 shows what channel 2 showed at the tick before, and channel 2 is red.
#[test]
fn pulses_become_frames(rt: HostRuntime) -> Result<(), Fail> {
    let taken = ask_and_take(&rt, rt.alloc())?;
    assert_eq!(rt; taken.end, TickEnd::ClockClosed);
    let first_frames = [0, 0, 0, 0, 0, 0, 0, 0, 0, 0, 255, 255, 0, 0, 0, 0];
    let second_frames = [0, 0, 255, 255, 0, 0, 0, 0, 0, 0, 255, 255, 0, 0, 0, 0];
    assert!(rt; took(&taken.outs, 0, &first_frames));
    assert!(rt; took(&taken.outs, 1, &second_frames));
    Ok(())
}

/// No clause says which numbers of commands a clock gets.
#[test]
fn clock_is_told_of_the_commands_at_each_tick(rt: HostRuntime) -> Result<(), Fail> {
    let taken = ask_and_take(&rt, rt.alloc())?;
    assert_eq!(rt; taken.told.as_slice(), [2, 2].as_slice());
    Ok(())
}

/// Returns two outputs, each with room for 24 bytes, of which the first blocks in its first write until the flag is set.
fn held_outputs(alloc: Global, flag: &Flag) -> Result<Vec<HeldSink>, Fail>
    ensures { IfOk result (λ outs. vec_len outs ≡ 2) }
{
    let flag = Arc::try_clone(flag)?;
    let first = MemSink::new(alloc, 0, 24, 8, Vec::new(alloc))?;
    let second = MemSink::new(alloc, 0, 24, 8, Vec::new(alloc))?;
    let mut outs = Vec::new(alloc);
    outs.push(HeldSink::new(first, Some(FlaggedCall { call: 1, flag }), None))?;
    outs.push(HeldSink::new(second, None, None))?;
    Ok(outs)
}

/// Takes three pulses, of which the third sets the flag that the first write waits for, and returns how they ended and how many
/// bytes each output took.
fn take_three_held<R: Threads + Wait + Sync>(
    rt: &R,
    alloc: Global,
    config: &Config,
    stage: &SharedStage,
    pass: &mut Pass,
) -> Result<(TickEnd, usize, usize), Fail>
    requires of { pass.old.stage ≡ stage.now }
    requires first { pass.old.number ≡ 0 }
    requires made { pass.old.made ≡ [] }
    requires config { length config.now.channels ≡ 2 }
    requires channels { stage.now.sizes.channels ≡ 2 }
    requires given { stage.now.sizes.given ≡ [] }
{
    laws::frames_from_the_beginning();
    let flag = Arc::new(alloc, AtomicBool::new(false))?;
    let media = MediaTable::empty(alloc)?;
    let mut renderer = two_frames(alloc, config)?;
    let pipe = ScenePipe::new(alloc, config)?;
    let mut outs = held_outputs(alloc, &flag)?;
    let sets = FlaggedCall { call: 3, flag };
    let mut clock = HeldClock::new(MemClock::new(3, Vec::new(alloc)), None, Some(sets));
    let end = tick_all(
        rt,
        stage,
        pass,
        &mut renderer,
        pipe,
        &media,
        &mut clock,
        &mut outs,
    );
    Ok((end, bytes_taken(&outs, 0), bytes_taken(&outs, 1)))
}

/// Returns how many bytes output `at` took, and 0 if there is no such output.
fn bytes_taken(outs: &[HeldSink], at: usize) -> usize {
    match outs.get(at) {
        Some(out) => out.sink().taken().len(),
        None => 0,
    }
}

/// Takes three pulses of a new stage that one pass shares, and returns how they ended and how many bytes each output took.
fn share_and_take<R: Threads + Wait + Sync>(
    rt: &R,
    alloc: Global,
) -> Result<(TickEnd, usize, usize), Fail> {
    let config = two_channels(alloc)?;
    let (shared, mut first) = shared_by_one(alloc, &config)?;
    take_three_held(rt, alloc, &config, &shared, &mut first)
}

/// An output that blocks in its first write until the clock's third call keeps no pulse from becoming a tick.
#[test]
fn slow_output_keeps_no_pulse(rt: HostRuntime) -> Result<(), Fail> {
    let ended = share_and_take(&rt, rt.alloc())?;
    assert_eq!(rt; ended, (TickEnd::ClockClosed, 24, 24));
    Ok(())
}
