//! The clips by name.
ghost use Rattle.std.specs.Prelude.{◌≡◌, ◌==◌, ◌<◌, ◌∷◌, ◌++◌, [], length, IfOk, IfSome, IsOkAnd, OnOk, OnErr, option_copied};
ghost use Rattle.std.specs.Str.{chars};
ghost use Rattle.clip_format.specs.Preparing.{IsLowered};
ghost use Rattle.clip_format.specs.Table.{IsAbove, IsMediaTable, IsReady, clip_at, media_name, media_names};
ghost use Rattle.play_types.specs.declared.clip.TheConstants.{MULTIPLIED};
ghost use Rattle.play_types.specs.declared.media.TheConstants.{MAX_MEDIA_NAMES};

use indexmap::IndexMap;
use play_types::{Clip, ClipFault, MediaName, MediaNames, Text};
use std::alloc::{AllocError, Global};
use std::marker::Model;

/// Names in rising order of their bytes, each with its clip, or with the fault of a file that is no clip. A clip's
/// number is its position, from 0.
///
/// It has at most 4,294,967,295 entries. Its clips are of version 1, and no pixel of them has a colour byte above its
/// alpha.
#[derive(Drop)]
pub struct MediaTable {
    clips: IndexMap<String, Result<Clip, ClipFault>>,
}

impl Model for MediaTable {
    ghost use Rattle.std.specs.Prelude.{List};
    ghost use Rattle.clip_format.specs.Table.{Entry, IsMediaTable};
    ghost use Rattle.clip_format.specs.Shown.{entries_of};

    ghost Value = { List Entry };

    ghost view = { λ t. entries_of t.clips.entries };

    ghost invariant = { λ t. IsMediaTable (entries_of t.clips.entries) };
}

impl MediaTable {
    /// Creates a table without entries. It takes no memory.
    pub fn empty(alloc: Global) -> Result<MediaTable, AllocError>
        ensures { IsOkAnd result (λ table. table ≡ []) }
    {
        Ok(MediaTable {
            clips: IndexMap::new(alloc),
        })
    }

    /// Adds an entry at the end. If memory runs out, the table is as before.
    pub fn add(&mut self, name: Text, clip: Result<Clip, ClipFault>) -> Result<(), AllocError>
        requires above { IsAbove name self.old }
        requires few { length self.old < MAX_MEDIA_NAMES }
        requires ready { IsReady clip }
        ensures ok { OnOk result (self.new ≡ self.old ++ record { name = name; clip = clip } ∷ []) }
        ensures err { OnErr result (self.new ≡ self.old) }
    {
        self.clips.insert(name.into_string(), clip)?;
        Ok(())
    }

    /// Returns the number of entries, at most 4,294,967,295.
    pub fn len(&self) -> usize
        ensures value { result ≡ length self.now }
        ensures kept { IsMediaTable self.now }
    {
        self.clips.len()
    }

    /// Returns whether there are no entries.
    pub fn is_empty(&self) -> bool
        ensures { result ≡ (length self.now == 0) }
    {
        self.clips.is_empty()
    }

    /// Returns the clip of a number: `None` exactly if no entry has this number, or its file is no clip.
    pub fn clip(&self, id: u32) -> Option<&Clip>
        ensures value { option_copied result ≡ clip_at self.now id }
        ensures version { IfSome result (λ clip. clip.now.version ≡ MULTIPLIED) }
        ensures lowered { IfSome result (λ clip. IsLowered clip.now) }
    {
        let (_, clip) = self.clips.get_index(id as usize)?;
        match clip {
            Ok(clip) => Some(clip),
            Err(_) => None,
        }
    }

    /// Returns the names in the order of the table, each with the size and the number of frames of its clip. The name of a
    /// file that is no clip is not readable.
    pub fn names(&self, alloc: Global) -> Result<MediaNames, AllocError>
        ensures { IfOk result (λ names. names ≡ media_names self.now) }
    {
        let mut names = MediaNames::new(alloc);
        for at in 0..self.clips.len() {
            if let Some((name, clip)) = self.clips.get_index(at) {
                names.push(name_of(alloc, name.as_str(), clip)?)?;
            }
        }
        Ok(names)
    }
}

/// Returns the name with the size and the number of frames of its clip, or as unreadable.
fn name_of(
    alloc: Global,
    name: &str,
    clip: &Result<Clip, ClipFault>,
) -> Result<MediaName, AllocError>
    ensures { IfOk result (λ media. media ≡ media_name (chars name.now) clip.now) }
{
    let name = Text::copy(alloc, name)?;
    match clip {
        Ok(clip) => Ok(MediaName::clip(name, clip.geometry(), clip.frames()).unwrap()),
        Err(_) => Ok(MediaName::unreadable(name)),
    }
}
