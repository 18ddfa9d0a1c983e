//! The entries of the layers of a channel.
ghost use Rattle.std.specs.Prelude.{◌≡◌, [], ℕ, ◌+◌, ◌<◌, ◌≤◌, Some, None, IsOk, IsSome, OnErr, OnOk};
ghost use Rattle.std.specs.Option.{option_copied};
ghost use Rattle.mixer_state.specs.Entries.{layer_in};
ghost use Rattle.mixer_state.specs.Found.{with_layer};

use crate::courses::Courses;
use indexmap::IndexMap;
use std::alloc::{AllocError, Global};
use std::marker::Model;

/// The courses of each layer of a channel that has an entry.
#[derive(Debug, Drop)]
pub(crate) struct Layers {
    entries: IndexMap<u16, Courses>,
}

impl Model for Layers {
    ghost use Rattle.indexmap.specs.IndexMap.{spare};
    ghost use Rattle.mixer_state.specs.Found.{LayersView};

    ghost Value = { LayersView };

    ghost view = { λ l. record { room = spare l.entries; entries = l.entries.entries } };
}

impl Layers {
    /// Creates the layers of a channel without entries.
    pub(crate) fn new(alloc: Global) -> Layers
        ensures { result.entries ≡ [] }
    {
        Layers {
            entries: IndexMap::new(alloc),
        }
    }

    /// Returns the entry of a layer, `None` exactly if it has none.
    pub(crate) fn get(&self, layer: u16) -> Option<&Courses>
        ensures { option_copied result ≡ layer_in self.now.entries layer }
    {
        self.entries.get(&layer)
    }

    /// Gives a layer an entry, in place of the one that it has. If memory runs out, the entries are as before.
    pub(crate) fn put(&mut self, layer: u16, courses: Courses) -> Result<(), AllocError>
        ensures ok { OnOk result (layer_in self.new.entries
            ≡ with_layer layer (Some courses) (layer_in self.old.entries)) }
        ensures err { OnErr result (self.new.entries ≡ self.old.entries) }
        ensures memory { 0 < self.old.room → IsOk result }
        ensures room { self.old.room ≤ self.new.room + 1 }
    {
        self.entries.insert(layer, courses)?;
        Ok(())
    }

    /// Replaces the entry of a layer that has one.
    pub(crate) fn replace(&mut self, layer: u16, courses: Courses)
        requires { IsSome (layer_in self.old.entries layer) }
        ensures value { layer_in self.new.entries
            ≡ with_layer layer (Some courses) (layer_in self.old.entries) }
        ensures room { self.new.room ≡ self.old.room }
    {
        if let Some(entry) = self.entries.get_mut(&layer) {
            *entry = courses;
        }
    }

    /// Removes the entry of a layer, if it has one.
    pub(crate) fn remove(&mut self, layer: u16)
        ensures value { layer_in self.new.entries
            ≡ with_layer layer None (layer_in self.old.entries) }
        ensures room { self.old.room ≤ self.new.room }
    {
        self.entries.swap_remove(&layer);
    }

    /// Removes all entries.
    pub(crate) fn clear(&mut self)
        ensures value { self.new.entries ≡ [] }
        ensures room { self.old.room ≤ self.new.room }
    {
        self.entries.clear();
    }

    /// Reserves memory for at least `count` more entries. If memory runs out, the entries are as before.
    pub(crate) fn reserve(&mut self, count: usize) -> Result<(), AllocError>
        ensures ok { OnOk result (count ≤ self.new.room) }
        ensures same { self.new.entries ≡ self.old.entries }
        ensures memory { count ≤ self.old.room → IsOk result }
        ensures room { self.old.room ≤ self.new.room }
    {
        self.entries.reserve(count)
    }
}
