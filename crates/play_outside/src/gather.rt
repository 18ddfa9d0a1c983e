//! Small pieces that are gathered and written together.
ghost use Rattle.std.specs.Prelude.{◌≡◌, ◌+◌, ◌≤◌, ◌++◌, [], length};
ghost use Rattle.std.specs.List.{flat_map};
ghost use Rattle.play_outside.specs.Sink.{Sends};
ghost use Rattle.play_outside.specs.Gathered.{Adds};
ghost use Rattle.play_outside.specs.declared.sink.Sent.TheVariants.{All};

use super::{Sent, Sink, send};
use std::marker::Model;

/// Bytes that wait to be written together, at most `ROOM` of them, kept inline. Contracts see the bytes that wait.
#[derive(Drop)]
pub struct Gather<const ROOM: usize> {
    bytes: [u8; ROOM],
    count: usize,
}

impl<const ROOM: usize> Model for Gather<ROOM> {
    ghost use Rattle.std.specs.Prelude.{ℕ, List, ◌≡◌, ◌≤◌, take, length};

    ghost Value = { List ℕ };

    ghost view = { λ g. take g.count g.bytes };

    ghost invariant = { λ g. (g.count ≤ ROOM) × (length g.bytes ≡ ROOM) };
}

impl<const ROOM: usize> Gather<ROOM> {
    /// Creates a gatherer with no byte waiting.
    pub fn new() -> Self
        ensures { result ≡ [] }
    {
        Gather {
            bytes: [0; ROOM],
            count: 0,
        }
    }

    /// Adds bytes after those that wait. Nothing is written while there is room for them. If there is not, the bytes
    /// that wait are written first, and then the added ones wait, or are written too if they are more than `ROOM`.
    /// After a failed write nothing more is written, and no byte waits.
    pub fn add<K: Sink>(&mut self, bytes: &[u8], to: &mut K) -> Sent
        ensures adds { Adds result (self.old ++ bytes.now) self.new (K.state to.old) (K.state to.new) }
        ensures waits { length self.old + length bytes.now ≤ ROOM → (result ≡ All) × (self.new ≡ self.old ++ bytes.now) × (K.state to.new ≡ K.state to.old) }
    {
        if bytes.len() > ROOM - self.count {
            self.finish(to)?;
            if bytes.len() > ROOM {
                return send(bytes, to);
            }
        }
        self.hold(bytes);
        Sent::All
    }

    /// Adds the parts, one after another, as `add` does.
    pub fn add_parts<K: Sink>(&mut self, parts: &[&[u8]], to: &mut K) -> Sent
        ensures { Adds result (self.old ++ flat_map (λ part. part.now) parts.now) self.new (K.state to.old) (K.state to.new) }
    {
        for part in parts {
            self.add(part, to)?;
        }
        Sent::All
    }

    /// Writes the bytes that wait. Then none waits, also after a failed write.
    pub fn finish<K: Sink>(&mut self, to: &mut K) -> Sent
        ensures sends { Sends result self.old (K.state to.old) (K.state to.new) }
        ensures none_waits { self.new ≡ [] }
    {
        let count = self.count;
        self.count = 0;
        send(&self.bytes[..count], to)
    }

    /// Keeps bytes after those that wait.
    fn hold(&mut self, bytes: &[u8])
        requires { length self.old + length bytes.now ≤ ROOM }
        ensures { self.new ≡ self.old ++ bytes.now }
    {
        let end = self.count + bytes.len();
        let room = &mut self.bytes[..];
        room[self.count..end].copy_from_slice(bytes);
        self.count = end;
    }
}
