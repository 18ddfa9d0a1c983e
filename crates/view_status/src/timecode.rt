//! Times as timecodes.
ghost use Rattle.std.specs.Prelude.{◌≡◌, ◌++◌, ◌≤◌, IfOk, OnOk};
ghost use Rattle.std.specs.String.{string_bytes};
ghost use Rattle.view_status.specs.Timecode.{timecode_text, two_digits};
ghost use Rattle.view_status.specs.Tokens.{named, text};

use crate::document::Document;
use itoa::Buffer;
use std::alloc::{AllocError, Global};

/// Returns the time of a number of frames, of which a second has `rate`, as `HH:MM:SS:FF`. Each part has at least two digits.
#[tactic(auto, unfolding(crate::specs::Timecode::timecode_text))]
fn timecode(alloc: Global, rate: u32, frames: u64) -> Result<String, AllocError>
    requires { 1 ≤ rate }
    ensures { IfOk result (λ time. string_bytes time ≡ timecode_text rate frames) }
{
    let rate = u64::from(rate);
    let seconds = frames / rate;
    let mut time = String::new(alloc);
    push_part(&mut time, seconds / 3_600)?;
    time.push_str(":")?;
    push_part(&mut time, seconds / 60 % 60)?;
    time.push_str(":")?;
    push_part(&mut time, seconds % 60)?;
    time.push_str(":")?;
    push_part(&mut time, frames % rate)?;
    Ok(time)
}

/// Writes the time of a number of frames as a member.
pub(crate) fn write_time(
    alloc: Global,
    name: &str,
    rate: u32,
    frames: u64,
    document: &mut Document,
) -> Result<(), AllocError>
    requires { 1 ≤ rate }
    ensures { OnOk result (document.new ≡ document.old ++ named name.now (text (timecode_text rate frames))) }
{
    let time = timecode(alloc, rate, frames)?;
    document.text_member(name, time.as_str())
}

/// Adds a number with at least two digits.
fn push_part(time: &mut String, number: u64) -> Result<(), AllocError>
    ensures { OnOk result (string_bytes time.new ≡ string_bytes time.old ++ two_digits number) }
{
    if number < 10 {
        time.push_str("0")?;
    }
    time.push_str(Buffer::new().format(number))
}
