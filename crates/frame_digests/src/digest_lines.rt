//! Lines of digests.
ghost use Rattle.std.specs.Prelude.{◌≡◌, ◌++◌, [], IfOk};
ghost use Rattle.play_outside.specs.Sink.{Sends};
ghost use Rattle.play_outside.specs.Gathered.{Adds};
ghost use Rattle.history_model.specs.text.Frames.{digest_line};
ghost use Rattle.frame_digests.specs.Waiting.{AreKept, text_of};

use crate::digesting::digest_all;
use crate::kept_frame::KeptFrame;
use crate::rooms::Rooms;
use crate::waiting::{MAX_LINES, Waiting};
use frame_writer::write_digest;
use play_outside::{Sent, Sink};
use play_types::Config;
use std::alloc::{AllocError, Global};
use std::marker::Model;
use std::thread::Threads;

/// The most bytes of frames that are kept. If those of a tick are more, none is kept.
const MAX_KEPT_BYTES: u64 = 1_073_741_824;

/// Lines of digests that wait to be written, and copies of their frames. Contracts see the text of the lines that wait.
///
/// Only [`DigestLines::new`] takes memory, if the frames are those of its configuration.
#[derive(Drop)]
pub struct DigestLines {
    waiting: Waiting,
    threads: usize,
}

impl Model for DigestLines {
    ghost use Rattle.std.specs.Prelude.{ℕ, List};
    ghost use Rattle.frame_digests.specs.Waiting.{AreKept, text_of};

    ghost Value = { List ℕ };

    ghost view = { λ d. text_of d.waiting };

    ghost invariant = { λ d. AreKept d.waiting };
}

impl DigestLines {
    /// Creates a list without lines, with room for the frames of `threads` ticks of the configuration, or of as many ticks as fit
    /// into 1,073,741,824 bytes if these are fewer.
    pub fn new(alloc: Global, config: &Config, threads: u32) -> Result<DigestLines, AllocError>
        ensures { IfOk result (λ lines. lines ≡ []) }
    {
        let ticks = kept_ticks(config, threads);
        let mut frames = Vec::new(alloc);
        let mut channels = Vec::new(alloc);
        for channel in config.channels().iter() {
            let first = frames.len();
            let bytes = channel.geometry().frame_bytes() as usize;
            add_rooms(alloc, &mut frames, ticks, bytes)?;
            channels.push(Rooms {
                first,
                end: frames.len(),
                newest: first,
            })?;
        }
        Ok(DigestLines {
            waiting: Waiting {
                frames,
                channels,
                lines: Vec::with_capacity(alloc, MAX_LINES)?,
            },
            threads: threads as usize,
        })
    }

    /// Creates a list without lines and without room for a frame. Each digest is computed and written at once. It takes no memory.
    pub fn without_rooms(alloc: Global) -> DigestLines
        ensures { result ≡ [] }
    {
        DigestLines {
            waiting: Waiting {
                frames: Vec::new(alloc),
                channels: Vec::new(alloc),
                lines: Vec::new(alloc),
            },
            threads: 1,
        }
    }

    /// Adds the line of a frame: `D`, the channel, the tick, and the SHA-256 of the bytes of the frame followed by those of the
    /// sound, in lower-case hexadecimal. The line waits if there is room for it and its frame. If there is none, the lines that wait
    /// are written first. If there is no room even then, as for a frame of another configuration, the line is written at once.
    /// After a failed write nothing more is written, and no line waits.
    pub fn add<R: Threads + Sync, K: Sink>(
        &mut self,
        rt: &R,
        channel: u8,
        tick: u64,
        frame: &[u8],
        sound: &[u8],
        to: &mut K,
    ) -> Sent
        ensures { Adds result (self.old ++ digest_line channel tick frame.now sound.now) self.new (K.state to.old) (K.state to.new) }
    {
        if self.waiting.hold(channel, tick, frame, sound) {
            return Sent::All;
        }
        self.finish(rt, to)?;
        if self.waiting.hold(channel, tick, frame, sound) {
            return Sent::All;
        }
        write_digest(channel, tick, frame, sound, to)
    }

    /// Computes the digests of the lines that wait, on at most the `threads` of [`DigestLines::new`], and writes the lines. No line
    /// waits afterwards, not even after a failed write.
    pub fn finish<R: Threads + Sync, K: Sink>(&mut self, rt: &R, to: &mut K) -> Sent
        ensures sends { Sends result self.old (K.state to.old) (K.state to.new) }
        ensures none_waits { self.new ≡ [] }
    {
        digest_all(rt, self.waiting.frames.as_mut_slice(), self.threads);
        self.waiting.send(to)
    }
}

/// Returns the number of ticks whose frames are kept: `threads`, or as many as `MAX_KEPT_BYTES` allows if these are fewer.
fn kept_ticks(config: &Config, threads: u32) -> u32 {
    let mut bytes: u64 = 0;
    for channel in config.channels().iter() {
        bytes = bytes.saturating_add(channel.geometry().frame_bytes());
    }
    let most = MAX_KEPT_BYTES / bytes.max(1);
    u64::from(threads).min(most) as u32
}

/// Adds rooms for `count` frames of `bytes` bytes with their sound.
fn add_rooms(
    alloc: Global,
    frames: &mut Vec<KeptFrame>,
    count: u32,
    bytes: usize,
) -> Result<(), AllocError> {
    for _room in 0..count {
        frames.push(KeptFrame::new(alloc, bytes)?)?;
    }
    Ok(())
}
