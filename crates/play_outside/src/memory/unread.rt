//! Bytes that are given once, from the first to the last.
ghost use Rattle.std.specs.Prelude.{◌≡◌, ◌++◌, [], length, min, take};

use std::marker::Model;

/// Bytes that are given once, from the first to the last. Contracts see those that were given, and those that are left.
#[derive(Drop)]
pub(crate) struct Unread {
    bytes: Vec<u8>,
    given: usize,
}

impl Model for Unread {
    ghost use Rattle.std.specs.Prelude.{◌≤◌, take, drop, vec_len};
    ghost use Rattle.play_outside.specs.memory.Parted.{Parted};

    ghost Value = { Parted };

    ghost view = { λ u. record { given = take u.given u.bytes.items; left = drop u.given u.bytes.items } };

    ghost invariant = { λ u. u.given ≤ vec_len u.bytes };
}

impl Unread {
    /// Creates the value with none of the bytes given yet.
    pub(crate) fn new(bytes: Vec<u8>) -> Unread
        ensures { result ≡ record { given = []; left = bytes.items } }
    {
        Unread { bytes, given: 0 }
    }

    /// Returns the bytes that are left.
    pub(crate) fn as_slice(&self) -> &[u8]
        ensures { result.now ≡ self.now.left }
    {
        &self.bytes[self.given..]
    }

    /// Returns how many bytes were given.
    pub(crate) fn given(&self) -> usize
        ensures { result ≡ length self.now.given }
    {
        self.given
    }

    /// Copies bytes to the beginning of the buffer, at most `limit` of them, and returns how many.
    pub(crate) fn give(&mut self, buf: &mut [u8], limit: usize) -> usize
        ensures count { result ≡ min (min (length self.old.left) (length buf.old)) limit }
        ensures left { self.old.left ≡ take result buf.new ++ self.new.left }
        ensures given { self.new.given ≡ self.old.given ++ take result buf.new }
    {
        let rest = &self.bytes[self.given..];
        let count = rest.len().min(buf.len()).min(limit);
        buf[..count].copy_from_slice(&rest[..count]);
        self.given += count;
        count
    }
}
