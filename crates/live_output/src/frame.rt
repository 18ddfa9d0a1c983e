//! Frames that several readers share.
ghost use Rattle.std.specs.Prelude.{◌≡◌, IfErr, IfOk, IfSome, length};

use std::alloc::{AllocError, Global};
use std::marker::Model;
use std::sync::Arc;

/// A whole frame: the bytes of a picture and of its sound, shared by its owners. Contracts see its bytes.
#[derive(Drop)]
pub struct Frame {
    bytes: Arc<Vec<u8>, Global>,
}

impl Model for Frame {
    ghost use Rattle.std.specs.Prelude.{ℕ, List};
    ghost use Rattle.std.specs.Arc.{arc_value};

    ghost Value = { List ℕ };

    ghost view = { λ f. (arc_value f.bytes).items };
}

impl Frame {
    /// Returns a frame of these bytes, or hands them back if memory ran out.
    pub(crate) fn new(alloc: Global, bytes: Vec<u8>) -> Result<Frame, Vec<u8>>
        ensures frame { IfOk result (λ frame. frame ≡ bytes.items) }
        ensures handed_back { IfErr result (λ rest. rest ≡ bytes) }
    {
        match Arc::new(alloc, bytes) {
            Ok(bytes) => Ok(Frame { bytes }),
            Err(failed) => Err(failed.value),
        }
    }

    /// Returns this frame for one more owner.
    pub(crate) fn try_clone(&self) -> Result<Frame, AllocError>
        ensures { IfOk result (λ frame. frame ≡ self.now) }
    {
        Ok(Frame {
            bytes: Arc::try_clone(&self.bytes)?,
        })
    }

    /// Returns the bytes.
    pub(crate) fn as_slice(&self) -> &[u8]
        ensures { result.now ≡ self.now }
    {
        self.bytes.as_slice()
    }

    /// Returns the buffer of the frame, if this was its last owner.
    pub(crate) fn into_buffer(self) -> Option<Vec<u8>> {
        Arc::into_inner(self.bytes)
    }
}
