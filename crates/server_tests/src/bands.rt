//! Frames that several workers make, with ample memory: channels of 16 by 9 pixels. Channel 1 shows half red, blue within it, and
//! its own frame of the tick before within both, and others show nothing.
ghost use Rattle.std.specs.Prelude.{◌≡◌, ◌≤◌, IfOk, length};

use crate::renderers::is_there;
use band_render::{Gate, OpenGate, Renderer};
use clip_format::MediaTable;
use play_types::{
    Channel, ChannelList, Config, Drawn, MAX_LIVE_LAYERS, Scenes, Still, Text, Trans,
};
use std::alloc::Global;
use std::process::Abort;
use std::sync::atomic::{AtomicU32, AtomicU64, Ordering};
use std::test::Fail;
use std::thread::Threads;

/// A gate that counts the bands that enter it, and keeps the numbers below 64 of those that did.
#[derive(Drop)]
struct CountingGate {
    count: AtomicU32,
    numbers: AtomicU64,
}

impl Gate for CountingGate {
    fn enter(&self, band: u32) {
        self.count.fetch_add(1, Ordering::SeqCst);
        if band < 64 {
            self.numbers.fetch_or(1 << band, Ordering::SeqCst);
        }
    }
}

/// The most turns for which a band waits for another one.
const MOST_TURNS: u32 = 2_000_000_000;

/// A gate at which each band waits until `wanted` bands have come. It counts those that waited in vain.
#[derive(Drop)]
struct MeetingGate {
    wanted: u32,
    came: AtomicU32,
    alone: AtomicU32,
}

impl Gate for MeetingGate {
    fn enter(&self, _band: u32) {
        self.came.fetch_add(1, Ordering::SeqCst);
        for _ in 0..MOST_TURNS {
            if self.came.load(Ordering::SeqCst) >= self.wanted {
                return;
            }
        }
        self.alone.fetch_add(1, Ordering::SeqCst);
    }
}

/// Returns a configuration of `count` channels of this width and of 9 rows.
fn config(alloc: Global, width: u16, count: u8) -> Result<Config, Fail> {
    let mut channels = ChannelList::new(alloc);
    for _ in 0..count {
        let output = Text::copy(alloc, "o")?;
        channels.push(Channel::new(width, 9, 0, output).ok_or("a channel")?)?;
    }
    let listen = Text::copy(alloc, "l")?;
    let media = Text::copy(alloc, "m")?;
    Ok(Config::new(listen, media, 25, 1, 1, channels).ok_or("a configuration")?)
}

/// Adds a layer to channel 1 that fills the frame, or a part of it.
fn add(scenes: &mut Scenes, still: Still, is_inset: bool)
    ensures { length scenes.new ≡ length scenes.old }
{
    let fill = if is_inset {
        [125_000, 333_000, 500_000, 400_000]
    } else {
        [0, 0, 1_000_000, 1_000_000]
    };
    let drawn = Drawn {
        still,
        old: Still::Nothing,
        trans: Trans::cut(),
        step: 0,
        opacity: 1_000_000,
        fill,
        clip: [0, 0, 1_000_000, 1_000_000],
        volume: 1_000_000,
        keyer: false,
    };
    if is_there(still, scenes.channels()) && scenes.scene(1).drawn().len() < MAX_LIVE_LAYERS {
        scenes.push(1, drawn);
    }
}

/// Renders two ticks of the frames of `channels` channels of this width by this number of workers, and returns the renderer.
fn two_ticks<R: Threads + Sync, G: Gate>(
    rt: &R,
    alloc: Global,
    width: u16,
    channels: u8,
    workers: u32,
    gate: &G,
) -> Result<Renderer, Fail>
    requires some { 1 ≤ channels }
    requires workers { (1 ≤ workers) × (workers ≤ 64) }
    ensures { IfOk result (λ renderer. length renderer ≡ channels) }
{
    let config = config(alloc, width, channels)?;
    let scenes = scenes(alloc, &config, channels)?;
    render_two(rt, alloc, &config, &scenes, workers, gate)
}

/// Returns the scenes of the channels of a configuration, if there are `channels` of them, with what channel 1 shows.
fn scenes(alloc: Global, config: &Config, channels: u8) -> Result<Scenes, Fail>
    requires { 1 ≤ channels }
    ensures all { IfOk result (λ scenes. length scenes ≡ length config.now.channels) }
    ensures many { IfOk result (λ scenes. length scenes ≡ channels) }
{
    let mut scenes = Scenes::new(alloc, config)?;
    if scenes.channels() != channels {
        return Err(Fail::from("as many channels"));
    }
    add(&mut scenes, Still::Colour(0x80FF_0000), false);
    add(&mut scenes, Still::Colour(0xFF00_00FF), true);
    add(&mut scenes, Still::Channel(1), true);
    Ok(scenes)
}

/// Renders scenes twice by this number of workers, and returns the renderer.
fn render_two<R: Threads + Sync, G: Gate>(
    rt: &R,
    alloc: Global,
    config: &Config,
    scenes: &Scenes,
    workers: u32,
    gate: &G,
) -> Result<Renderer, Fail>
    requires workers { (1 ≤ workers) × (workers ≤ 64) }
    requires scenes { length scenes.now ≡ length config.now.channels }
    ensures { IfOk result (λ renderer. length renderer ≡ length scenes.now) }
{
    let media = MediaTable::empty(alloc)?;
    let mut renderer = Renderer::new(alloc, config, workers)?;
    renderer.render(rt, scenes, &media, gate);
    renderer.render(rt, scenes, &media, gate);
    Ok(renderer)
}

/// Returns whether this number of workers makes the frame that another renderer has made.
fn makes_the_same<R: Threads + Sync>(
    rt: &R,
    alloc: Global,
    other: &Renderer,
    workers: u32,
) -> Result<bool, Fail>
    requires workers { (1 ≤ workers) × (workers ≤ 64) }
    requires other { length other.now ≡ 1 }
{
    let more = two_ticks(rt, alloc, 16, 1, workers, &OpenGate)?;
    Ok(other.frame(1) == more.frame(1))
}

/// Any number of workers makes the same frame. It is half red in row 0. In row 4 the frame of the tick before lies over blue: at
/// column 2 it is half red and at column 5 blue.
#[test]
fn workers_make_equal_frames(rt: HostRuntime) -> Result<(), Fail> {
    let alloc = rt.alloc();
    let one = two_ticks(&rt, alloc, 16, 1, 1, &OpenGate)?;
    check_frame(&rt, alloc, &one)
}

/// Checks the frame that one worker made, and that more workers make it too.
fn check_frame<R: Threads + Sync + Abort>(rt: &R, alloc: Global, one: &Renderer) -> Result<(), Fail>
    requires { length one.now ≡ 1 }
{
    assert_eq!(rt; one.frame(1).get(0..4), Some([0, 0, 128, 128].as_slice()));
    assert_eq!(rt;
        one.frame(1).get(264..268),
        Some([127, 0, 128, 255].as_slice())
    );
    assert_eq!(rt;
        one.frame(1).get(276..280),
        Some([255, 0, 0, 255].as_slice())
    );
    assert!(rt; makes_the_same(rt, alloc, one, 2)?);
    assert!(rt; makes_the_same(rt, alloc, one, 7)?);
    assert!(rt; makes_the_same(rt, alloc, one, 64)?);
    Ok(())
}

/// Renders two ticks of the frames of `channels` channels of this width by this number of workers, and returns how often bands
/// entered the gate, and the numbers of those that did, a bit for each.
fn entered<R: Threads + Sync>(
    rt: &R,
    alloc: Global,
    width: u16,
    channels: u8,
    workers: u32,
) -> Result<(u32, u64), Fail>
    requires some { 1 ≤ channels }
    requires workers { (1 ≤ workers) × (workers ≤ 64) }
{
    let gate = CountingGate {
        count: AtomicU32::new(0),
        numbers: AtomicU64::new(0),
    };
    two_ticks(rt, alloc, width, channels, workers, &gate)?;
    Ok((
        gate.count.load(Ordering::SeqCst),
        gate.numbers.load(Ordering::SeqCst),
    ))
}

/// Each band of each channel enters the gate once a tick, with a number of its own from 0 on: as many of a channel as there are
/// workers, but no more than rows, even if a frame is so small that the caller's thread makes all of it.
#[test]
fn each_band_enters_once(rt: HostRuntime) -> Result<(), Fail> {
    let alloc = rt.alloc();
    assert_eq!(rt; entered(&rt, alloc, 16, 1, 1)?, (2, 0b1));
    assert_eq!(rt; entered(&rt, alloc, 16, 1, 2)?, (4, 0b11));
    assert_eq!(rt; entered(&rt, alloc, 16, 1, 7)?, (14, 0b111_1111));
    assert_eq!(rt; entered(&rt, alloc, 16, 1, 64)?, (18, 0b1_1111_1111));
    assert_eq!(rt; entered(&rt, alloc, 4, 1, 2)?, (4, 0b11));
    assert_eq!(rt; entered(&rt, alloc, 4, 1, 64)?, (18, 0b1_1111_1111));
    assert_eq!(rt; entered(&rt, alloc, 16, 3, 1)?, (6, 0b111));
    assert_eq!(rt; entered(&rt, alloc, 16, 3, 7)?, (42, 0x1F_FFFF));
    assert_eq!(rt; entered(&rt, alloc, 16, 5, 64)?, (90, 0x1FFF_FFFF_FFFF));
    assert_eq!(rt; entered(&rt, alloc, 1, 2, 64)?, (36, 0x3_FFFF));
    Ok(())
}

/// Renders two ticks of one channel by this number of workers, with bands that wait until as many have come, and returns how many
/// bands came, and how many waited in vain.
fn meet<R: Threads + Sync>(rt: &R, alloc: Global, workers: u32) -> Result<(u32, u32), Fail>
    requires workers { (1 ≤ workers) × (workers ≤ 64) }
{
    let gate = MeetingGate {
        wanted: workers,
        came: AtomicU32::new(0),
        alone: AtomicU32::new(0),
    };
    two_ticks(rt, alloc, 16, 1, workers, &gate)?;
    Ok((
        gate.came.load(Ordering::SeqCst),
        gate.alone.load(Ordering::SeqCst),
    ))
}

/// Workers make their bands in parallel: two, four, and nine at once.
#[test]
fn as_many_bands_meet_as_there_are_workers(rt: HostRuntime) -> Result<(), Fail> {
    let alloc = rt.alloc();
    assert_eq!(rt; meet(&rt, alloc, 2)?, (4, 0));
    assert_eq!(rt; meet(&rt, alloc, 4)?, (8, 0));
    assert_eq!(rt; meet(&rt, alloc, 9)?, (18, 0));
    Ok(())
}
