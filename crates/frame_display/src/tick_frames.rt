//! The frames of a tick.
ghost use Rattle.std.specs.Prelude.{◌≡◌, ◌++◌, length};
ghost use Rattle.play_types.specs.Scene.{IsConfigured};
ghost use Rattle.play_outside.specs.Gathered.{Adds};
ghost use Rattle.frame_display.specs.Frames.{FitSetup, one_text, all_texts};

use band_render::Renderer;
use frame_digests::DigestLines;
use frame_writer::write_hex;
use play_outside::{Sent, Sink};
use play_types::channel_index;
use server_setup::ServerSetup;
use std::thread::Threads;

/// The frames of a tick, the setup, and whether frames are written as digests.
#[derive(Clone, Copy)]
pub struct TickFrames<'a> {
    pub setup: &'a ServerSetup,
    pub digests: bool,
    pub renderer: &'a Renderer,
    pub tick: u64,
}

impl TickFrames<'_> {
    /// Adds the text of the frames of all channels: as lines of digests, or, after all waiting lines were written, as lines of their own.
    pub fn add<R: Threads + Sync, K: Sink>(
        &self,
        rt: &R,
        lines: &mut DigestLines,
        out: &mut K,
    ) -> Sent
        requires { FitSetup self.now }
        ensures { Adds result (lines.old ++ all_texts self.now) lines.new (K.state out.old) (K.state out.new) }
    {
        for at in 0..self.setup.config.channels().len() {
            self.add_frame(rt, at as u8 + 1, lines, out)?;
        }
        Sent::All
    }

    /// Adds the text of the frame of a channel.
    fn add_frame<R: Threads + Sync, K: Sink>(
        &self,
        rt: &R,
        channel: u8,
        lines: &mut DigestLines,
        out: &mut K,
    ) -> Sent
        requires channel { IsConfigured (length self.now.setup.now.config.channels) channel }
        requires fits { FitSetup self.now }
        ensures { Adds result (lines.old ++ one_text self.now channel) lines.new (K.state out.old) (K.state out.new) }
    {
        let picture = self.renderer.frame(channel);
        let sound = self.renderer.sound(channel);
        if self.digests {
            return lines.add(rt, channel, self.tick, picture, sound, out);
        }
        let channels = self.setup.config.channels();
        let size = channels.get(channel_index(channel)).unwrap().geometry();
        lines.finish(rt, out)?;
        write_hex(channel, self.tick, size, picture, sound, out)
    }
}
