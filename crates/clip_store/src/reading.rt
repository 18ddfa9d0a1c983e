//! Reads clip files.
ghost use Rattle.std.specs.Prelude.{◌≡◌, ◌<◌, ◌≢◌};
ghost use Rattle.clip_format.specs.Decoding.{clip_of};
ghost use Rattle.clip_format.specs.Table.{IsReady};
ghost use Rattle.clip_store.specs.inner.Kept.{file_views};
ghost use Rattle.clip_store.specs.inner.Orders.{IsStrict};
ghost use Rattle.clip_store.specs.Scan.{Answers, kept_clip, table_of};

use crate::fault::ScanFault;
use crate::names::ClipFile;
use crate::preparing::prepared;
use clip_format::{MediaTable, decode};
use play_outside::MediaDir;
use play_types::{Clip, ClipFault, Text};
use std::alloc::Global;
use std::thread::Threads;

/// The greatest sum of the lengths of clip files, in bytes. An empty file counts as one byte.
pub const MAX_MEDIA_BYTES: u64 = 1_073_741_824;

/// Reads clip files in their order, which is the rising order of their names.
pub(crate) fn read_all<R: Threads + Sync, M: MediaDir>(
    rt: &R,
    alloc: Global,
    folder: &str,
    files: &[ClipFile],
    media: &mut M,
) -> Result<MediaTable, ScanFault>
    requires { IsStrict (file_views files.now) }
    ensures { Answers (λ held. table_of folder.now held (file_views files.now)) result (M.state media.old) (M.state media.new) }
{
    let mut table = MediaTable::empty(alloc)?;
    let mut total = 0u64;
    for file in files {
        let bytes = media.bytes(alloc, folder, file.file.as_str())?;
        total += bytes.len().max(1) as u64;
        if total > MAX_MEDIA_BYTES {
            return Err(ScanFault::TooLarge { total });
        }
        let name = Text::copy(alloc, file.name.as_str())?;
        table.add(name, ready_clip(rt, bytes))?;
    }
    Ok(table)
}

/// Returns the clip of a file with its pixels prepared, or why the file is no clip.
fn ready_clip<R: Threads + Sync>(rt: &R, bytes: Vec<u8>) -> Result<Clip, ClipFault>
    ensures value { result ≡ kept_clip (clip_of bytes.items) }
    ensures ready { IsReady result }
{
    let clip = decode(bytes)?;
    Ok(prepared(rt, clip))
}
