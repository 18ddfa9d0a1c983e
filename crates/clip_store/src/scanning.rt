//! Reads the media table from a folder.
ghost use Rattle.clip_store.specs.Scan.{Answers, scanned};

use crate::fault::ScanFault;
use crate::names::{clip_files, twice};
use crate::reading::read_all;
use clip_format::MediaTable;
use play_outside::MediaDir;
use play_types::Text;
use std::alloc::Global;
use std::thread::Threads;

/// Reads the clip files of a folder into a table, in rising order of their clips' names.
///
/// First the names of the files are read, and `TwoNames` is returned if two clips have one name. Then the files are
/// read, and `TooLarge` is returned once the sum of their lengths is above 1,073,741,824 bytes. A file that is no clip
/// is in the table with its fault. `ReadFault` comes only if the folder's count of faults rose in this call.
pub fn scan<R: Threads + Sync, M: MediaDir>(
    rt: &R,
    alloc: Global,
    folder: &str,
    media: &mut M,
) -> Result<MediaTable, ScanFault>
    ensures { Answers (scanned folder.now) result (M.state media.old) (M.state media.new) }
{
    let listed = media.names(alloc, folder)?;
    let files = clip_files(alloc, listed.as_slice())?;
    if let Some(name) = twice(files.as_slice()) {
        let name = Text::copy(alloc, name)?;
        return Err(ScanFault::TwoNames { name });
    }
    read_all(rt, alloc, folder, files.as_slice(), media)
}
