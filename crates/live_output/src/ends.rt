//! Both ends of a queue.
ghost use Rattle.std.specs.Prelude.{◌≡◌, ◌<◌, [], ℕ, List, All, IfOk};
ghost use mathlib.Core.List.{IsPrefix};
ghost use Rattle.rtrb.specs.Ring.{IsPair, received, sent};
ghost use Rattle.live_output.specs.Cut.{IsCut};
ghost use Rattle.live_output.specs.Got.{GotWritten};
ghost use Rattle.live_output.specs.Served.{AreServed};

use crate::cutter::FrameCutter;
use crate::limits::{MAX_READERS, MOVING, waiting_frames};
use crate::output::LiveOutput;
use crate::window::FrameWindow;
use rtrb::RingBuffer;
use std::alloc::{AllocError, Global};
use std::collections::VecDeque;
use std::io::Write;

/// Returns the ends of an empty queue for frames of `size` bytes, and for at most `places` readers, of which there are
/// at most [`MAX_READERS`]. It allocates the buffers of all frames, whose pages the system provides when a buffer is
/// first filled.
pub fn queue(
    alloc: Global,
    size: usize,
    places: usize,
) -> Result<(FrameCutter, FrameWindow), AllocError>
    requires { 0 < size }
    ensures cutter { IfOk result (λ ends. (ends.0.size ≡ size) × IsCut [] ends.0) }
    ensures window { IfOk result (λ ends. received ends.1.inbox ≡ []) }
    ensures pair { IfOk result (λ ends. IsPair ends.0.out ends.1.inbox × IsPair ends.1.back ends.0.back) }
{
    let places = places.min(MAX_READERS);
    let waiting = waiting_frames(size);
    let buffers = waiting + places + MOVING;
    let (out, inbox) = RingBuffer::new(alloc, buffers)?;
    let (given, back) = RingBuffer::new(alloc, buffers)?;
    let mut free = Vec::with_capacity(alloc, buffers)?;
    for _buffer in 0..buffers {
        free.push(Vec::with_capacity(alloc, size)?)?;
    }
    let cutter = FrameCutter {
        alloc,
        size,
        at: 0,
        filling: None,
        free,
        out,
        back,
        dropped: 0,
    };
    let window = FrameWindow {
        inbox,
        back: given,
        frames: VecDeque::with_capacity(alloc, waiting + 1)?,
        gone: 0,
        waiting,
    };
    Ok((cutter, window))
}

/// Compares both ends of a queue once they are in one thread again, and changes neither. The frames that came to the
/// output are a prefix of those that the cutter handed on. So each reader got whole frames of the bytes that were
/// written, in their order, and a prefix of one more.
pub fn settle<W: Write>(cutter: &mut FrameCutter, output: &mut LiveOutput<W>)
    requires { IsPair cutter.old.out output.old.window.inbox }
    ensures came { IsPrefix (received output.new.window.inbox) (sent cutter.new.out) }
    ensures cutter { (written : List ℕ) → IsCut written cutter.old → IsCut written cutter.new }
    ensures output { (received output.new.window.inbox ≡ received output.old.window.inbox) × (output.new.readers ≡ output.old.readers) }
    ensures got { (written : List ℕ) → IsCut written cutter.old → AreServed W.contents output.old
        → All (GotWritten W.contents cutter.old.size written) output.new.readers.items }
{
    output.window.inbox.slots_beside(&mut cutter.out);
}
