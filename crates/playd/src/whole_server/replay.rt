//! The text of a history, played as a script.

use super::devices::{folder_of, words_of};
use play_outside::{MemSink, MemSource};
use run_script::run_main;
use std::alloc::Global;
use std::test::Fail;
use std::thread::Threads;

/// The most bytes of output for each digit of a frame, and those besides the frames.
const ROOM: (usize, usize) = (10, 1000);

/// Plays the text of a history with the configuration at path `config`, and returns the exit status and the output. Its
/// frames have `digits` hexadecimal digits in all.
pub fn replay<R: Threads + Sync>(
    rt: &R,
    alloc: Global,
    text: &[u8],
    config: &str,
    digits: usize,
) -> Result<(u8, MemSink), Fail> {
    let words = words_of(alloc, &["run", "--config", config])?;
    let mut input = MemSource::new(Vec::from_slice(alloc, text)?, 4096, Vec::new(alloc));
    let mut media = folder_of(alloc, &[], &[])?;
    let room = digits.saturating_mul(ROOM.0).saturating_add(ROOM.1);
    let mut out = MemSink::new(alloc, 0, room, 4096, Vec::new(alloc))?;
    let status = run_main(
        rt,
        alloc,
        words.as_slice(),
        &mut input,
        &mut media,
        &mut out,
    );
    Ok((status, out))
}

/// Returns the replies in an output to the connection of this tag, as its link takes them.
pub fn replies_in(alloc: Global, output: &str, tag: &str) -> Result<String, Fail> {
    let mut replies = String::new(alloc);
    for line in output.lines() {
        if let Some(reply) = line.strip_prefix(tag) {
            replies.push_str(reply)?;
            replies.push_str("\r\n")?;
        }
    }
    Ok(replies)
}

/// Returns replies without the tokens before them.
pub fn without_tokens(alloc: Global, replies: &str) -> Result<String, Fail> {
    let mut plain = String::new(alloc);
    for line in replies.lines() {
        let rest = line.strip_prefix("RES ").unwrap_or(line);
        let reply = match rest.split_once(' ') {
            Some((_, reply)) if rest.len() < line.len() => reply,
            _ => rest,
        };
        plain.push_str(reply)?;
        plain.push_str("\r\n")?;
    }
    Ok(plain)
}

/// Returns the hexadecimal digits of the frames in an output. Each frame has one row.
pub fn frames_in(alloc: Global, output: &str) -> Result<String, Fail> {
    let mut frames = String::new(alloc);
    let mut is_frame = false;
    for line in output.lines() {
        if is_frame {
            frames.push_str(line)?;
        }
        is_frame = line.starts_with("F ");
    }
    Ok(frames)
}
