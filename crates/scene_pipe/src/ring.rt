//! Rings whose two sides wait for one another.
ghost use Rattle.std.specs.Prelude.{◌≡◌, ◌∷◌, ◌++◌, [], ℕ, Bool};
ghost use Rattle.rtrb.specs.Ring.{SameConsumer, SameProducer, received, sent};
ghost use Rattle.scene_pipe.specs.Lists.{GetsNext};

use crate::sleep::Sleep;
use rtrb::{Consumer, Producer, PushError};
use std::sync::Wait;

/// An item that goes through a ring of a pipe.
pub(crate) trait Item {
    /// Whether the item is for a pipe of this number of channels.
    ghost is_for: { ℕ → Self → Bool };

    /// Returns whether the scenes of the item, if it has any, are of this number of channels.
    fn fits(&self, channels: u8) -> bool
        ensures { result ≡ Self.is_for channels self.now };
}

/// Pushes an item once there is a slot for it, and wakes the other side.
pub(crate) fn push_waiting<R: Wait, T>(rt: &R, sleep: &Sleep, ring: &mut Producer<T>, item: T)
    ensures sent { sent ring.new ≡ sent ring.old ++ item ∷ [] }
    ensures ring { SameProducer ring.old ring.new }
{
    let mut item = item;
    for _ in rt.forever() {
        match ring.push(item) {
            Ok(()) => {
                sleep.wake_other();
                return;
            }
            Err(PushError::Full(full)) => item = full,
        }
        sleep.sleep(rt);
    }
    unreachable!()
}

/// Pops the next item once there is one, and wakes the other side.
pub(crate) fn pop_waiting<R: Wait, T>(rt: &R, sleep: &Sleep, ring: &mut Consumer<T>) -> T
    ensures received { received ring.new ≡ received ring.old ++ result ∷ [] }
    ensures ring { SameConsumer ring.old ring.new }
{
    for _ in rt.forever() {
        if let Ok(item) = ring.pop() {
            sleep.wake_other();
            return item;
        }
        sleep.sleep(rt);
    }
    unreachable!()
}

/// Pops until an item is for this number of channels, and returns it. Other items are dropped.
pub(crate) fn next_fitting<R: Wait, T: Item + Drop>(
    rt: &R,
    sleep: &Sleep,
    ring: &mut Consumer<T>,
    channels: u8,
) -> T
    ensures received { GetsNext (T.is_for channels) result (received ring.old) (received ring.new) }
    ensures ring { SameConsumer ring.old ring.new }
{
    for _ in rt.forever() {
        let item = pop_waiting(rt, sleep, ring);
        if item.fits(channels) {
            return item;
        }
    }
    unreachable!()
}
