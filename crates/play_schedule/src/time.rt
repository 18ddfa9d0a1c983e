//! Times of cue lines.
ghost use Rattle.std.specs.Prelude.{◌≡◌, ◌≤◌, IfSome, option_map};
ghost use Rattle.play_schedule.specs.Time.{frame_number, moment_of, moment_within, timecode, two_digits};
ghost use Rattle.play_schedule.specs.inner.Views.{number_view};

use crate::limits::MAX_MOMENT;
use crate::words::parts_at;
use amcp_text::number_within;

/// Returns the moment that a text writes, at most [`MAX_MOMENT`]: a whole number, or `HH:MM:SS:FF` with `rate` frames a
/// second.
pub fn moment_of(rate: u32, text: &[u8]) -> Option<u32>
    ensures value { result ≡ moment_of rate text.now }
    ensures range { IfSome result (λ moment. moment ≤ MAX_MOMENT) }
{
    match number_within(0, MAX_MOMENT, text) {
        Some(moment) => Some(moment),
        None => timecode(rate, text),
    }
}

/// Returns the moment of `HH:MM:SS:FF`, with `rate` frames a second.
fn timecode(rate: u32, text: &[u8]) -> Option<u32>
    ensures value { result ≡ timecode rate text.now }
    ensures range { IfSome result (λ moment. moment ≤ MAX_MOMENT) }
{
    let (hours, rest) = two_digits(99, text)?;
    let (minutes, rest) = two_digits(59, rest)?;
    let (seconds, frames) = two_digits(59, rest)?;
    let frame = frame_number(rate, frames)?;
    let whole = (u64::from(hours) * 60 + u64::from(minutes)) * 60 + u64::from(seconds);
    moment_within(whole * u64::from(rate) + u64::from(frame))
}

/// Returns a moment, if it is at most [`MAX_MOMENT`].
fn moment_within(moment: u64) -> Option<u32>
    ensures value { result ≡ moment_within moment }
    ensures range { IfSome result (λ moment. moment ≤ MAX_MOMENT) }
{
    if moment <= u64::from(MAX_MOMENT) {
        Some(moment as u32)
    } else {
        None
    }
}

/// Returns the number that two digits before a colon write, if it is at most `most`, and what follows the colon.
pub fn two_digits(most: u32, text: &[u8]) -> Option<(u32, &[u8])>
    ensures value { option_map number_view result ≡ two_digits most text.now }
    ensures range { IfSome result (λ found. found.0 ≤ most) }
{
    let (digits, rest) = parts_at(b':', text)?;
    if digits.len() != 2 {
        return None;
    }
    let number = number_within(0, most, digits)?;
    Some((number, rest))
}

/// Returns the number of a frame that two or three digits write, if it is below `rate`.
pub fn frame_number(rate: u32, text: &[u8]) -> Option<u32>
    ensures { result ≡ frame_number rate text.now }
{
    if text.len() != 2 && text.len() != 3 {
        return None;
    }
    let frame = number_within(0, 999, text)?;
    if frame < rate { Some(frame) } else { None }
}
