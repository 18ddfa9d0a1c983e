//! Digests of two channels of 128 by 128 pixels, taken by one, two, four and seven threads with ample memory. The frame of channel 1
//! changes at each tick, and that of channel 2 at every fifth.

use frame_digests::DigestLines;
use frame_writer::write_digest;
use play_outside::{MemSink, Sent};
use play_types::{Channel, ChannelList, Config, Text};
use std::alloc::Global;
use std::test::Fail;
use std::thread::Threads;

/// The number of bytes of a frame.
const FRAME_BYTES: usize = 65_536;

/// The number of ticks.
const TICKS: u8 = 30;

/// The most bytes of all lines.
const TEXT_BYTES: usize = 10_000;

/// Returns a configuration of the two channels.
fn config(alloc: Global) -> Result<Config, Fail> {
    let mut channels = ChannelList::new(alloc);
    for _ in 0..2 {
        channels.push(Channel::new(128, 128, 0, Text::copy(alloc, "o")?).ok_or("a channel")?)?;
    }
    let listen = Text::copy(alloc, "l")?;
    let media = Text::copy(alloc, "m")?;
    Ok(Config::new(listen, media, 25, 1, 1, channels).ok_or("a configuration")?)
}

/// Adds the lines of all ticks, and writes those that still wait at the end.
fn add_all<R: Threads + Sync>(rt: &R, lines: &mut DigestLines, out: &mut MemSink) -> Sent {
    let mut frame = [9; FRAME_BYTES];
    for tick in 0..TICKS {
        frame[0] = tick;
        lines.add(rt, 1, u64::from(tick), &frame, &[tick], out)?;
        frame[0] = tick / 5;
        lines.add(rt, 2, u64::from(tick), &frame, &[], out)?;
    }
    lines.finish(rt, out)
}

/// Writes the lines of all ticks, each by itself.
fn write_each(out: &mut MemSink) -> Sent {
    let mut frame = [9; FRAME_BYTES];
    for tick in 0..TICKS {
        frame[0] = tick;
        write_digest(1, u64::from(tick), &frame, &[tick], out)?;
        frame[0] = tick / 5;
        write_digest(2, u64::from(tick), &frame, &[], out)?;
    }
    Sent::All
}

/// Any number of threads writes the same lines.
#[test]
fn threads_take_equal_digests(rt: HostRuntime) -> Result<(), Fail> {
    let alloc = rt.alloc();
    let config = config(alloc)?;
    let mut wanted = MemSink::new(alloc, 0, TEXT_BYTES, 4096, Vec::new(alloc))?;
    assert_eq!(rt; write_each(&mut wanted), Sent::All);
    for threads in [1, 2, 4, 7] {
        let mut lines = DigestLines::new(alloc, &config, threads)?;
        let mut out = MemSink::new(alloc, 0, TEXT_BYTES, 4096, Vec::new(alloc))?;
        assert_eq!(rt; add_all(&rt, &mut lines, &mut out), Sent::All, "{threads}");
        assert!(rt; out.taken() == wanted.taken(), "{threads}");
    }
    Ok(())
}
