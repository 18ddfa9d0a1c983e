//! How many ticks the script on standard input makes, if that can be known before it is played.

use amcp_text::{number_within, without_carriage_return};
use history_model::MAX_TICKS_PER_LINE;
use std::fs;
use std::rt::Files;

/// The path of the file on standard input.
const SCRIPT: &str = "/dev/stdin";

/// The most bytes of a script that is read beforehand.
const MAX_SCRIPT_BYTES: u64 = 67_108_864;

/// Returns how many ticks the script on standard input makes. For that the file is opened once more and read from its
/// beginning, so that standard input is left as it is. `None` comes if it is no regular file, has more than
/// `MAX_SCRIPT_BYTES` bytes, or cannot be read.
pub fn ticks_of_script<R: Files + AllocGlobal>(rt: &R) -> Option<u64> {
    let found = fs::metadata(rt, SCRIPT).ok()?;
    if !found.is_file() || found.len() > MAX_SCRIPT_BYTES {
        return None;
    }
    let script = fs::read(rt, SCRIPT).ok()?;
    Some(ticks_in(script.as_slice()))
}

/// Returns how many ticks the lines of a script make, up to the server's own stop.
pub fn ticks_in(script: &[u8]) -> u64 {
    let mut ticks: u64 = 0;
    for line in script.split(|byte| *byte == b'\n') {
        let line = without_carriage_return(line);
        if let [b'X'] = line {
            return ticks;
        }
        ticks = ticks.saturating_add(ticks_of(line));
    }
    ticks
}

/// Returns how many ticks a line makes: `T` makes one, `T n` makes `n`, and every other line none.
fn ticks_of(line: &[u8]) -> u64 {
    match line {
        [b'T'] => 1,
        [b'T', b' ', digits @ ..] => {
            u64::from(number_within(1, MAX_TICKS_PER_LINE, digits).unwrap_or(0))
        }
        _ => 0,
    }
}
