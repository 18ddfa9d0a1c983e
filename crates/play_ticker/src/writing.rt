//! The side that renders and writes.
ghost use Rattle.std.specs.Prelude.{◌≡◌, length, true};
ghost use Rattle.play_ticker.specs.Frames.{setup_for};
ghost use Rattle.play_ticker.specs.inner.Items.{is_open};
ghost use Rattle.play_ticker.specs.inner.Writing.{GivesBack, HasWritten, MakesWrite, MayWrite};

use crate::outputs::write_frames;
use crate::ticks::Ticker;
use band_render::{OpenGate, Renderer, laws};
use play_outside::Sink;
use scene_pipe::{Taken, WriteEnd};
use std::sync::Wait;
use std::thread::Threads;

/// What happened to the next item.
#[derive(Clone, Copy)]
pub(crate) enum ItemOutcome {
    /// Its scenes were rendered, written and given back.
    Written,
    /// It was the end mark.
    Done,
    /// Its scenes were rendered, and the output of this channel failed.
    Failed { channel: u8 },
}

impl Ticker<'_> {
    /// Takes scenes, renders them, writes the frame and the sound of each channel to its output, and gives the scenes back, until the end
    /// mark. After an output fails it reports this once, renders and writes nothing more, and returns the channel at the end mark.
    pub(crate) fn write_all<R: Threads + Wait + Sync, O: Sink>(
        &self,
        rt: &R,
        renderer: &mut Renderer,
        pipe: &mut WriteEnd,
        outs: &mut [O],
    ) -> Option<u8>
        requires { MayWrite self.now.stage.now self.now.media.now pipe.old renderer.old (length outs.old) }
        ensures { HasWritten O.state (record { setup = setup_for renderer.old self.now.media.now; given = self.now.stage.now.sizes.given }) result
            (record { pipe = pipe.old; frames = renderer.old; outs = outs.old }) (record { pipe = pipe.new; frames = renderer.new; outs = outs.new }) }
    {
        laws::frames_represent_histories();
        laws::frames_of_a_tick();
        for _ in rt.forever() {
            match self.write_next(rt, renderer, pipe, outs) {
                ItemOutcome::Written => {}
                ItemOutcome::Done => return None,
                ItemOutcome::Failed { channel } => {
                    give_back(rt, pipe);
                    return Some(channel);
                }
            }
        }
        unreachable!()
    }

    /// Takes the next item. Scenes are rendered, written and given back, with a report if an output failed.
    fn write_next<R: Threads + Wait + Sync, O: Sink>(
        &self,
        rt: &R,
        renderer: &mut Renderer,
        pipe: &mut WriteEnd,
        outs: &mut [O],
    ) -> ItemOutcome
        requires channels { pipe.old.channels ≡ length renderer.old }
        requires outs { length outs.old ≡ length renderer.old }
        ensures channels { length renderer.new ≡ length renderer.old }
        ensures step { MakesWrite O.state self.now.media.now result
            (record { pipe = pipe.old; frames = renderer.old; outs = outs.old }) (record { pipe = pipe.new; frames = renderer.new; outs = outs.new }) }
    {
        let scenes = match pipe.take(rt) {
            Taken::Staged { scenes, .. } => scenes,
            Taken::Done => return ItemOutcome::Done,
        };
        renderer.render(rt, &scenes, self.media, &OpenGate);
        match write_frames(scenes.channels(), renderer, outs) {
            Ok(()) => {
                pipe.give(rt, scenes);
                ItemOutcome::Written
            }
            Err(channel) => {
                pipe.broken(rt, channel, scenes);
                ItemOutcome::Failed { channel }
            }
        }
    }
}

/// Takes all scenes up to the end mark, and gives them back.
fn give_back<R: Wait>(rt: &R, pipe: &mut WriteEnd)
    requires { is_open pipe.old.taken ≡ true }
    ensures { GivesBack pipe.old pipe.new }
{
    for _ in rt.forever() {
        match pipe.take(rt) {
            Taken::Staged { scenes, .. } => pipe.give(rt, scenes),
            Taken::Done => return,
        }
    }
    unreachable!()
}
