//! The commands of a journal, with the ticks before each.
ghost use Rattle.std.specs.Prelude.{◌≡◌, ◌∷◌, ◌++◌, [], IfOk, OnOk, OnErr, drop};
ghost use Rattle.std.specs.Iterator.{YieldsFirstRef, item_count};
ghost use Rattle.std.specs.List.{flat_map};

use play_types::{Cmd, Event};
use std::alloc::{AllocError, Global};
use std::marker::Model;

/// The number of entries of a block.
const BLOCK_ENTRIES: usize = 1_024;

/// A command or a batch, after `ticks` ticks that follow the event before it.
#[derive(Debug, Drop)]
pub(crate) struct Entry {
    pub(crate) ticks: u64,
    pub(crate) event: Event,
}

/// The most bytes that a command of a journal takes.
const COMMAND_BYTES: usize = 128;

// A command takes an entry, also one that is alone in its batch.
const _: () = prove!(size_of::<Entry>() <= 88);

const _: () = prove!(size_of::<Entry>() <= COMMAND_BYTES);

// The commands of a larger batch are kept beside its entry. A batch of two takes the most bytes for each command.
const _: () = prove!(size_of::<Entry>() + 2 * size_of::<Cmd>() <= 2 * COMMAND_BYTES);

/// Entries in order. They are kept in blocks of `BLOCK_ENTRIES`, which are not moved when entries are added.
#[derive(Debug, Drop)]
pub(crate) struct EntryList {
    blocks: Vec<Vec<Entry>>,
}

impl Model for EntryList {
    ghost use Rattle.std.specs.Prelude.{List};
    ghost use Rattle.std.specs.List.{flat_map};
    ghost use Rattle.play_journal.specs.declared.entries.Entry.{Entry};

    ghost Value = { List Entry };

    ghost view = { λ l. flat_map (λ block. block.items) l.blocks.items };
}

impl EntryList {
    /// Creates a list without entries, with room for the list of the blocks of `most` entries. The blocks are allocated
    /// one by one.
    pub(crate) fn new(alloc: Global, most: usize) -> Result<EntryList, AllocError>
        ensures { IfOk result (λ entries. entries ≡ []) }
    {
        Ok(EntryList {
            blocks: Vec::with_capacity(alloc, most / BLOCK_ENTRIES + 1)?,
        })
    }

    /// Adds an entry at the end. If memory runs out, the list is as before.
    pub(crate) fn push(&mut self, alloc: Global, entry: Entry) -> Result<(), AllocError>
        ensures ok { OnOk result (self.new ≡ self.old ++ entry ∷ []) }
        ensures err { OnErr result (self.new ≡ self.old) }
    {
        push_entry(&mut self.blocks, alloc, entry)
    }

    /// Returns the entries in order, without the first `at`.
    pub(crate) fn iter_from(&self, at: usize) -> Entries<'_>
        ensures { result ≡ drop at self.now }
    {
        entries_from(self.blocks.as_slice(), at)
    }

    /// Returns the entries in order.
    pub(crate) fn iter(&self) -> Entries<'_>
        ensures { result ≡ self.now }
    {
        Entries {
            entries: &[],
            blocks: self.blocks.as_slice(),
        }
    }
}

/// Returns the entries of the blocks, without the first `at`. Whole blocks are passed over at once.
fn entries_from(mut blocks: &[Vec<Entry>], at: usize) -> Entries<'_>
    ensures { result ≡ drop at (flat_map (λ block. block.items) blocks.entry.now) }
{
    let mut left = at;
    while let Some((block, rest)) = blocks.split_first() {
        if left < block.len() {
            return Entries {
                entries: &block.as_slice()[left..],
                blocks: rest,
            };
        }
        left -= block.len();
        blocks = rest;
    }
    Entries {
        entries: &[],
        blocks: &[],
    }
}

/// Adds an entry to the last block, or if that is full or there is none, to a new one.
fn push_entry(blocks: &mut Vec<Vec<Entry>>, alloc: Global, entry: Entry) -> Result<(), AllocError>
    ensures ok { OnOk result (flat_map (λ block. block.items) blocks.new.items
        ≡ flat_map (λ block. block.items) blocks.old.items ++ entry ∷ []) }
    ensures err { OnErr result (flat_map (λ block. block.items) blocks.new.items
        ≡ flat_map (λ block. block.items) blocks.old.items) }
{
    if let Some(block) = blocks.last_mut()
        && block.len() < BLOCK_ENTRIES
    {
        block.push(entry)?;
        return Ok(());
    }
    let mut block = Vec::with_capacity(alloc, BLOCK_ENTRIES)?;
    block.push(entry)?;
    blocks.push(block)?;
    Ok(())
}

/// The entries that are left, in order: those of a block, and then those of further blocks.
#[derive(Debug, Drop)]
pub(crate) struct Entries<'a> {
    entries: &'a [Entry],
    blocks: &'a [Vec<Entry>],
}

impl<'a> Model for Entries<'a> {
    ghost use Rattle.std.specs.Prelude.{List, ◌++◌};
    ghost use Rattle.std.specs.List.{flat_map};
    ghost use Rattle.play_journal.specs.declared.entries.Entry.{Entry};

    ghost Value = { List Entry };

    ghost view = { λ it. it.entries.now ++ flat_map (λ block. block.items) it.blocks.now };
}

impl<'a> Iterator for Entries<'a> {
    type Item = &'a Entry;

    ghost next_gives = { YieldsFirstRef (λ rest. rest) };

    ghost remaining = { item_count (λ rest. rest) };

    fn next(&mut self) -> Option<&'a Entry> {
        loop {
            if let Some((entry, entries)) = self.entries.split_first() {
                self.entries = entries;
                return Some(entry);
            }
            let (block, blocks) = self.blocks.split_first()?;
            self.entries = block.as_slice();
            self.blocks = blocks;
        }
    }
}
