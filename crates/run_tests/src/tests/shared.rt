//! What the tests share: words, configurations and clip files in memory, and runs over them.

use play_outside::{MediaDir, MemConfig, MemFile, MemMedia, MemSink, MemSource, Sink, Source};
use run_script::run_main;
use std::alloc::Global;
use std::process::Abort;
use std::test::Fail;
use std::thread::Threads;

/// Returns the words of a line.
pub fn words_of(alloc: Global, line: &str) -> Result<Vec<String>, Fail> {
    let mut words = Vec::new(alloc);
    for word in line.split_whitespace() {
        words.push(String::from_str(alloc, word)?)?;
    }
    Ok(words)
}

/// Returns a configuration with this text at `path`.
pub fn config_at(alloc: Global, path: &str, text: &str) -> Result<MemConfig, Fail> {
    let path = String::from_str(alloc, path)?;
    let bytes = Vec::from_slice(alloc, text.as_bytes())?;
    Ok(MemConfig { path, bytes })
}

/// Returns a folder with one configuration and no clip file.
pub fn folder_with(alloc: Global, path: &str, text: &str) -> Result<MemMedia, Fail> {
    let mut configs = Vec::new(alloc);
    configs.push(config_at(alloc, path, text)?)?;
    Ok(MemMedia::new(configs, Vec::new(alloc), Vec::new(alloc)))
}

/// Returns a clip file of these bytes in `folder`.
pub fn clip_in(alloc: Global, folder: &str, name: &str, bytes: &[u8]) -> Result<MemFile, Fail> {
    let folder = String::from_str(alloc, folder)?;
    let name = String::from_str(alloc, name)?;
    let bytes = Vec::from_slice(alloc, bytes)?;
    Ok(MemFile {
        folder,
        name,
        bytes,
    })
}

/// Runs `playrun` with the words of a line, and returns its exit status.
pub fn status_of<R: Threads + Sync, I: Source, M: MediaDir, O: Sink>(
    rt: &R,
    alloc: Global,
    line: &str,
    input: &mut I,
    media: &mut M,
    out: &mut O,
) -> Result<u8, Fail> {
    let words = words_of(alloc, line)?;
    Ok(run_main(rt, alloc, words.as_slice(), input, media, out))
}

/// Fails unless the run of this script over a folder ends with this status and this output.
pub fn gives<R: Abort + Threads + Sync>(
    rt: &R,
    alloc: Global,
    line: &str,
    script: &str,
    media: &mut MemMedia,
    status: u8,
    output: &str,
) -> Result<(), Fail> {
    let mut input = MemSource::new(script.as_bytes().to_vec(alloc)?, 4096, Vec::new(alloc));
    let mut out = MemSink::new(alloc, 0, 10_000, 4096, Vec::new(alloc))?;
    let found = status_of(rt, alloc, line, &mut input, media, &mut out)?;
    assert_eq!(rt; found, status, "{script}");
    assert_eq!(rt; out.taken(), output.as_bytes(), "{script}");
    Ok(())
}
