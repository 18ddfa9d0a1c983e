//! What is written to.
ghost use Rattle.std.specs.Prelude.{◌≡◌, ◌<◌, length, flat_map, IsErr, IsErrAnd};
ghost use Rattle.play_outside.specs.SinkState.{SinkState};
ghost use Rattle.play_outside.specs.Sink.{Writes, Sends, sent_from};
ghost use Rattle.play_outside.specs.declared.sink.Sent.TheVariants as sent;

use super::Gather;
use std::ops::{ControlFlow, FromResidual, Try};

/// How many bytes of small parts are gathered before they are written.
const SMALL: usize = 4_096;

/// What a write did.
#[derive(Clone, Copy, Debug, PartialEq, Eq)]
pub enum WriteStep {
    /// The sink took a prefix of the piece of this many bytes, at least one.
    Took(usize),
    /// The device failed, and took nothing.
    Failed,
}

/// Whether all was written.
#[derive(Clone, Copy, Debug, PartialEq, Eq)]
pub enum Sent {
    /// The sink took all of the bytes.
    All,
    /// The sink took a prefix of the bytes; then a write failed, and nothing more was written.
    Failed,
}

/// What `?` returns early with after `Sent::Failed`.
#[derive(Clone, Copy, Debug, PartialEq, Eq)]
pub struct WriteFailed;

/// After `All` a `?` goes on, and after `Failed` it returns `Failed`.
impl Try for Sent {
    type Output = ();

    type Residual = WriteFailed;

    ghost branch_gives = { λ result flow. result ≡ sent_from flow };

    fn branch(self) -> ControlFlow<WriteFailed, ()> {
        match self {
            Sent::All => ControlFlow::Continue(()),
            Sent::Failed => ControlFlow::Break(WriteFailed),
        }
    }

    fn from_output(_output: ()) -> Sent {
        Sent::All
    }
}

impl FromResidual<WriteFailed> for Sent {
    ghost from_residual_gives = { λ _ result. result ≡ sent.Failed };

    fn from_residual(_failed: WriteFailed) -> Sent {
        Sent::Failed
    }
}

/// In a function that returns a `Result`, `?` after `Failed` returns what its error makes of a failed write.
impl<T, E: From<WriteFailed>> FromResidual<WriteFailed> for Result<T, E> {
    ghost from_residual_gives = { λ failed result. IsErr result × IsErrAnd result (E.from_gives failed) };

    fn from_residual(failed: WriteFailed) -> Result<T, E> {
        Err(E::from(failed))
    }
}

/// A place to write bytes to.
pub trait Sink: Drop {
    /// The bytes taken, now and when a write last failed, if the sink exposes them; how many calls failed; the mark, which
    /// no call changes; and of a link what it exposes of its reads, which no write changes.
    ghost state: { Self → SinkState };

    /// Takes a prefix of the piece, or fails and takes nothing. A failed write raises the count of faults by one.
    fn write(&mut self, piece: &[u8]) -> WriteStep
        requires { 0 < length piece.now }
        ensures { Writes result piece.now (state self.old) (state self.new) };
}

/// Writes all bytes of the piece. After a failed write it writes nothing more.
pub fn send<K: Sink>(piece: &[u8], to: &mut K) -> Sent
    ensures { Sends result piece.now (K.state to.old) (K.state to.new) }
{
    let mut at = 0;
    while at < piece.len() {
        match to.write(&piece[at..]) {
            WriteStep::Took(count) => at += count,
            WriteStep::Failed => return Sent::Failed,
        }
    }
    Sent::All
}

/// Writes the parts, one after another: small ones together, and one of more than 4,096 bytes on its own. After a failed
/// write it writes nothing more.
pub fn send_parts<K: Sink>(parts: &[&[u8]], to: &mut K) -> Sent
    ensures { Sends result (flat_map (λ part. part.now) parts.now) (K.state to.old) (K.state to.new) }
{
    let mut gather = Gather::<SMALL>::new();
    gather.add_parts(parts, to)?;
    gather.finish(to)
}
