//! A frame that is kept.
ghost use Rattle.std.specs.Prelude.{◌≡◌, ◌++◌, IsTrue, OnOk};
ghost use Rattle.hex.specs.Hex.{encode_lower};
ghost use Rattle.sha2.specs.Sha256.{sha256};

use sha2::{Digest, Sha256};
use std::alloc::{AllocError, Global};
use std::marker::Model;

/// The bytes of a frame followed by those of its sound, with their digest once it was computed. Contracts see the bytes.
#[derive(Drop)]
pub(crate) struct KeptFrame {
    bytes: Vec<u8>,
    digits: Option<[u8; 64]>,
}

impl Model for KeptFrame {
    ghost use Rattle.std.specs.Prelude.{◌≡◌, ℕ, List, IfSome};
    ghost use Rattle.hex.specs.Hex.{encode_lower};
    ghost use Rattle.sha2.specs.Sha256.{sha256};

    ghost Value = { List ℕ };

    ghost view = { λ k. k.bytes.items };

    ghost invariant = { λ k. IfSome k.digits (λ digits. digits ≡ encode_lower (sha256 k.bytes.items)) };
}

impl KeptFrame {
    /// Returns room for a frame and its sound of up to `room` bytes together.
    pub(crate) fn new(alloc: Global, room: usize) -> Result<KeptFrame, AllocError> {
        Ok(KeptFrame {
            bytes: Vec::with_capacity(alloc, room)?,
            digits: None,
        })
    }

    /// Returns whether it is this frame with this sound.
    pub(crate) fn is(&self, frame: &[u8], sound: &[u8]) -> bool
        ensures { IsTrue result → self.now ≡ frame.now ++ sound.now }
    {
        let bytes = self.bytes.as_slice();
        if bytes.len() < frame.len() {
            return false;
        }
        let (picture, rest) = bytes.split_at(frame.len());
        picture == frame && rest == sound
    }

    /// Keeps a frame and its sound in place of what was kept. It takes memory only if they have more bytes than there is room for.
    pub(crate) fn keep(&mut self, frame: &[u8], sound: &[u8]) -> Result<(), AllocError>
        ensures { OnOk result (self.new ≡ frame.now ++ sound.now) }
    {
        self.digits = None;
        self.bytes.clear();
        self.bytes.extend_from_slice(frame)?;
        self.bytes.extend_from_slice(sound)
    }

    /// Returns the SHA-256 of the bytes in lower-case hexadecimal. It is computed at the first call after they were kept.
    pub(crate) fn digits(&mut self) -> [u8; 64]
        ensures digits { result ≡ encode_lower (sha256 self.old) }
        ensures same { self.new ≡ self.old }
    {
        match self.digits {
            Some(digits) => digits,
            None => {
                let digits = digits_of(self.bytes.as_slice());
                self.digits = Some(digits);
                digits
            }
        }
    }

    /// Returns how many bytes wait for their digest.
    pub(crate) fn undigested(&self) -> usize {
        match self.digits {
            Some(_) => 0,
            None => self.bytes.len(),
        }
    }
}

/// Returns the SHA-256 of bytes in lower-case hexadecimal.
fn digits_of(bytes: &[u8]) -> [u8; 64]
    ensures { result ≡ encode_lower (sha256 bytes.now) }
{
    let mut hasher = Sha256::new();
    hasher.update(bytes);
    let mut digits = [0; 64];
    hex::encode_to_slice(hasher.finalize(), &mut digits).unwrap();
    digits
}
