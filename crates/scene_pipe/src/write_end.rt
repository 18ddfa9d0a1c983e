//! The end of the side that renders and writes.
ghost use Rattle.std.specs.Prelude.{◌≡◌, ◌∷◌, ◌++◌, [], length};
ghost use Rattle.scene_pipe.specs.Calls.{GetsTaken};
ghost use Rattle.scene_pipe.specs.declared.item.Returned.TheVariants.{Broken, Free};

use crate::item::{Returned, Taken};
use crate::ring::{next_fitting, push_waiting};
use crate::sleep::Sleep;
use play_types::Scenes;
use rtrb::{Consumer, Producer};
use std::marker::Model;
use std::sync::Wait;

/// The end that renders and writes.
#[derive(Drop)]
pub struct WriteEnd {
    pub(crate) channels: u8,
    pub(crate) inbox: Consumer<Taken>,
    pub(crate) back: Producer<Returned>,
    pub(crate) sleep: Sleep,
}

impl Model for WriteEnd {
    ghost use Rattle.std.specs.Prelude.{◌≡◌, All, true};
    ghost use Rattle.rtrb.specs.Ring.{received, sent};
    ghost use Rattle.scene_pipe.specs.Items.{fits_returned};
    ghost use Rattle.scene_pipe.specs.Views.{WriteView, consumer_ring, producer_ring};

    ghost Value = { WriteView };

    ghost view = { λ w. record {
      pipe = (consumer_ring w.inbox, producer_ring w.back);
      channels = w.channels;
      taken = received w.inbox;
      given = sent w.back;
    } };

    ghost invariant = { λ w. All (λ item. fits_returned w.channels item ≡ true) (sent w.back) };
}

impl WriteEnd {
    /// Waits for the next item that was sent, and returns it. Items whose scenes have another number of channels than the pipe are
    /// dropped.
    pub fn take<R: Wait>(&mut self, rt: &R) -> Taken
        ensures { GetsTaken result self.old self.new }
    {
        next_fitting(rt, &self.sleep, &mut self.inbox, self.channels)
    }

    /// Sends scenes back, once there is a slot for them.
    pub fn give<R: Wait>(&mut self, rt: &R, scenes: Scenes)
        requires { length scenes ≡ self.old.channels }
        ensures { self.new ≡ record self.old { given = self.old.given ++ Free scenes ∷ [] } }
    {
        push_waiting(rt, &self.sleep, &mut self.back, Returned::Free { scenes });
    }

    /// Sends scenes back, once there is a slot for them, with the report that the output of a channel failed.
    pub fn broken<R: Wait>(&mut self, rt: &R, channel: u8, scenes: Scenes)
        requires { length scenes ≡ self.old.channels }
        ensures { self.new ≡ record self.old { given = self.old.given ++ Broken channel scenes ∷ [] } }
    {
        let item = Returned::Broken { channel, scenes };
        push_waiting(rt, &self.sleep, &mut self.back, item);
    }
}
