//! The clip files of a folder, by name.
ghost use Rattle.std.specs.Prelude.{◌≡◌, ◌<◌, IfOk, map, option_map, string_bytes};
ghost use Rattle.clip_store.specs.Listing.{clip_file, clip_files, first_twice, sorted};
ghost use Rattle.clip_store.specs.inner.Kept.{file_view, file_views};

use std::alloc::{AllocError, Global};

/// The end of the name of a clip file, in upper case.
const ENDING: &[u8] = b".RCLP";

/// A clip file with the name of its clip. Clip files are ordered by the clips' names, and then by the files'.
#[derive(Debug, Drop, PartialEq, Eq, PartialOrd, Ord)]
pub(crate) struct ClipFile {
    pub(crate) name: String,
    pub(crate) file: String,
}

/// Returns the clip files among the listed files, in order.
pub(crate) fn clip_files(alloc: Global, listed: &[String]) -> Result<Vec<ClipFile>, AllocError>
    ensures { IfOk result (λ files. file_views files.items ≡ sorted (clip_files (map string_bytes listed.now))) }
{
    let mut files = named(alloc, listed)?;
    files.as_mut_slice().sort_unstable();
    Ok(files)
}

/// Returns the clip files among the listed files, in the order of the list.
fn named(alloc: Global, listed: &[String]) -> Result<Vec<ClipFile>, AllocError>
    ensures { IfOk result (λ files. file_views files.items ≡ clip_files (map string_bytes listed.now)) }
{
    let mut files = Vec::new(alloc);
    for file in listed {
        if let Some(found) = clip_file(alloc, file.as_str())? {
            files.push(found)?;
        }
    }
    Ok(files)
}

/// Returns the file with the name of its clip, if it is a clip file.
fn clip_file(alloc: Global, file: &str) -> Result<Option<ClipFile>, AllocError>
    ensures { IfOk result (λ found. option_map file_view found ≡ clip_file file.now) }
{
    let mut name = String::from_str(alloc, file)?;
    name.make_ascii_uppercase();
    if !name.as_bytes().ends_with(ENDING) {
        return Ok(None);
    }
    name.truncate(name.len() - ENDING.len());
    let file = String::from_str(alloc, file)?;
    Ok(Some(ClipFile { name, file }))
}

/// Returns the first name that two of the ordered files have, if there is one.
pub(crate) fn twice(files: &[ClipFile]) -> Option<&str>
    ensures { option_map (λ name. name.now) result ≡ first_twice (file_views files.now) }
{
    for at in 1..files.len() {
        let (file, next) = (&files[at - 1], &files[at]);
        if file.name == next.name {
            return Some(file.name.as_str());
        }
    }
    None
}
