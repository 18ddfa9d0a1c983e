//! The end of the side that stages ticks.
ghost use Rattle.std.specs.Prelude.{◌≡◌, ◌∷◌, ◌++◌, [], length};
ghost use Rattle.scene_pipe.specs.Calls.{GivesRoom};
ghost use Rattle.scene_pipe.specs.declared.item.Taken.TheVariants.{Done, Staged};

use crate::item::{Returned, Room, Taken};
use crate::ring::{next_fitting, push_waiting};
use crate::sleep::Sleep;
use play_types::Scenes;
use rtrb::{Consumer, Producer};
use std::marker::Model;
use std::sync::Wait;

/// The end that stages ticks. It holds the scenes that are free.
#[derive(Drop)]
pub struct StageEnd {
    pub(crate) channels: u8,
    pub(crate) held: Vec<Scenes>,
    pub(crate) out: Producer<Taken>,
    pub(crate) back: Consumer<Returned>,
    pub(crate) sleep: Sleep,
}

impl Model for StageEnd {
    ghost use Rattle.std.specs.Prelude.{◌≡◌, All, true, length};
    ghost use Rattle.rtrb.specs.Ring.{received, sent};
    ghost use Rattle.scene_pipe.specs.Items.{fits_taken};
    ghost use Rattle.scene_pipe.specs.Views.{StageView, consumer_ring, producer_ring};

    ghost Value = { StageView };

    ghost view = { λ s. record {
      pipe = (producer_ring s.out, consumer_ring s.back);
      channels = s.channels;
      held = s.held.items;
      sent = sent s.out;
      returned = received s.back;
    } };

    ghost invariant = { λ s. All (λ scenes. length scenes ≡ s.channels) s.held.items × All (λ item. fits_taken s.channels item ≡ true) (sent s.out) };
}

impl StageEnd {
    /// Returns scenes to fill: held ones first, and otherwise those of the next item that comes back, or its report that an output
    /// failed. If none are held, it waits for an item. Items whose scenes have another number of channels than the pipe are dropped.
    pub fn room<R: Wait>(&mut self, rt: &R) -> Room
        ensures { GivesRoom result self.old self.new }
    {
        if let Some(scenes) = self.held.pop() {
            return Room::Free(scenes);
        }
        next_fitting(rt, &self.sleep, &mut self.back, self.channels).into_room()
    }

    /// Sends the scenes of a tick, once there is a slot for them.
    pub fn send<R: Wait>(&mut self, rt: &R, tick: u64, scenes: Scenes)
        requires { length scenes ≡ self.old.channels }
        ensures { self.new ≡ record self.old { sent = self.old.sent ++ Staged tick scenes ∷ [] } }
    {
        let item = Taken::Staged { tick, scenes };
        push_waiting(rt, &self.sleep, &mut self.out, item);
    }

    /// Sends the end mark, once there is a slot for it.
    pub fn finish<R: Wait>(&mut self, rt: &R)
        ensures { self.new ≡ record self.old { sent = self.old.sent ++ Done ∷ [] } }
    {
        push_waiting(rt, &self.sleep, &mut self.out, Taken::Done);
    }
}
