//! The renderer of all channels.
ghost use Rattle.std.specs.Prelude.{◌≡◌, ◌≤◌, length, map, IfOk};
ghost use Rattle.play_types.specs.Scene.{IsConfigured};
ghost use Rattle.play_scene.specs.Frames.{IsFrame, frame_at, zero_frame};
ghost use Rattle.band_render.specs.Rendered.{AreRendered, sizes};
ghost use Rattle.band_render.specs.Bands.{AreAllLetIn};

use crate::band::Band;
use crate::bytes::bytes_of_bands;
use crate::drawing::{Tick, draw_all};
use crate::gate::Gate;
use crate::plan::{cut_frames, whole_frames};
use crate::rendering::render_frames;
use crate::rooms::rooms;
use clip_format::MediaTable;
use play_scene::Frames;
use play_types::{Config, MAX_PAIRS, Scenes};
use row_render::RowRoom;
use std::alloc::{AllocError, Global};
use std::marker::Model;
use std::mem;
use std::thread::Threads;

/// The frames and the sounds of the last tick, all transparent and silent before the first. Contracts see the frame of each
/// channel.
#[derive(Drop)]
pub struct Renderer {
    shown: Frames,
    // The frames of the tick before the last one, over which the next ones are written.
    next: Frames,
    // How many threads make the frames at most.
    workers: u16,
    // The bands of all channels at the last tick, with room for the most.
    bands: Vec<Band>,
    // Room for making a row, for each thread that makes bands.
    rooms: Vec<RowRoom>,
    // The pixels of all channels, one channel after another: the threads write them, and then they are exchanged for those of
    // `next`.
    pixels: Vec<u8>,
    // Room for the largest sound.
    sound: Vec<u8>,
}

impl Model for Renderer {
    ghost use Rattle.std.specs.Prelude.{◌≡◌, ◌*◌, ◌<◌, ◌≤◌, ◌^◌, List, length, vec_capacity};
    ghost use Rattle.play_types.specs.declared.geometry.TheConstants.{MAX_PAIRS};
    ghost use Rattle.play_scene.specs.Frames.{FrameView};
    ghost use Rattle.band_render.specs.Rendered.{sizes};
    ghost use Rattle.band_render.specs.Rows.{byte_count, rows_of_frames};
    ghost use Rattle.band_render.specs.Plans.{CanCut};

    ghost Value = { List FrameView };

    ghost view = { λ r. r.shown };

    ghost invariant = { λ r. (sizes r.next ≡ sizes r.shown) × (length r.sound.items ≡ 4 * MAX_PAIRS)
        × (length r.pixels.items ≡ byte_count (rows_of_frames 1 (sizes r.shown)))
        × (length r.pixels.items < 2 ^ 64) × (1 ≤ r.workers) × (r.workers ≤ 64)
        × CanCut r.workers (sizes r.shown) (vec_capacity r.bands) r.rooms.items };
}

impl Renderer {
    /// Creates the renderer of a configuration before the first tick, and allocates all that it needs. `workers`, 1 to 64, is the
    /// number of threads that make the frames.
    pub fn new(alloc: Global, config: &Config, workers: u32) -> Result<Renderer, AllocError>
        requires some_workers { 1 ≤ workers }
        requires few_workers { workers ≤ 64 }
        ensures { IfOk result (λ renderer. renderer ≡ map zero_frame config.now.channels) }
    {
        let bands = whole_frames(alloc, config)?;
        let rooms = rooms(alloc, config, workers as usize)?;
        let pixels = vec![in alloc; 0; bytes_of_bands(&bands)]?;
        Ok(Renderer {
            shown: Frames::new(alloc, config)?,
            next: Frames::new(alloc, config)?,
            workers: workers as u16,
            bands,
            rooms,
            pixels,
            sound: vec![in alloc; 0; 4 * usize::from(MAX_PAIRS)]?,
        })
    }

    /// Makes the frame and the sound of each channel from its scene, the clips, and the frames of the tick before: a scene that
    /// shows another channel shows its frame of the tick before. There are as many scenes as channels.
    ///
    /// The rows of each channel are cut into bands: at least as many as there are workers, or as many as there are rows if the
    /// channel has fewer. The more layers the rows show, the more bands a channel has and the fewer rows a band has, so that all
    /// bands take about equally long. Bands are numbered from 0 over all channels, and each enters the gate once with its number
    /// before its first row. They are split in order into as many groups as there are workers, but no more than there are rows. The
    /// sizes of the groups differ by at most one, and each group is made by one thread, one band after another. With one worker each
    /// channel is one band. With one worker, or if all frames together have fewer than 64 pixels, the caller's thread makes all
    /// bands. The sound is made after the bands.
    pub fn render<R: Threads + Sync, G: Gate>(
        &mut self,
        rt: &R,
        scenes: &Scenes,
        media: &MediaTable,
        gate: &G,
    )
        requires { length scenes.now ≡ length self.old }
        ensures rendered { AreRendered self.old media.now scenes.now self.new }
        ensures channels { length self.new ≡ length self.old }
        ensures entered { AreAllLetIn (G.entered gate.now) (sizes self.old) }
    {
        let tick = Tick {
            scenes,
            prev: &self.shown,
            media,
        };
        cut_frames(&tick, self.workers, &mut self.bands);
        draw_all(
            rt,
            gate,
            &tick,
            &self.bands,
            &mut self.rooms,
            &mut self.pixels,
        );
        render_frames(&tick, &mut self.pixels, &mut self.next, &mut self.sound);
        mem::swap(&mut self.shown, &mut self.next);
    }

    /// Returns the bytes of the pixels of a channel at the last tick, in rows from the top, each from the left: blue, green,
    /// red and alpha of each pixel. The channel is configured.
    pub fn frame(&self, channel: u8) -> &[u8]
        requires { IsConfigured (length self.now) channel }
        ensures value { result.now ≡ (frame_at channel self.now).bytes }
        ensures range { IsFrame (frame_at channel self.now) }
    {
        self.shown.bytes(channel)
    }

    /// Returns the bytes of the sound of a channel at the last tick: its stereo pairs, left and right, each an `i16` in
    /// little-endian. The channel is configured.
    pub fn sound(&self, channel: u8) -> &[u8]
        requires { IsConfigured (length self.now) channel }
        ensures value { result.now ≡ (frame_at channel self.now).sound }
        ensures range { IsFrame (frame_at channel self.now) }
    {
        self.shown.sound(channel)
    }
}
