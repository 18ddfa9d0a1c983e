//! What is wrong with a faulty line of a sheet, for the message to its author.
ghost use Rattle.std.specs.Prelude.{◌≡◌, option_and_then, option_map, slice_get, ◌-◌};
ghost use Rattle.std.specs.Str.Lines.{lines};
ghost use Rattle.amcp_text.specs.Numbers.{are_digits};
ghost use Rattle.play_schedule.specs.LineFaults.{after_fault, at_fault, fault_of_line, fault_of_said, first_word, form_fault, frame_of, is_whole, text_fault, time_fault};
ghost use Rattle.play_schedule.specs.inner.Views.{line_view, parts_view};

use crate::limits::MAX_MOMENT;
use crate::line::{SheetLine, after_word, line_of, repeated};
use crate::sheet::first_line;
use crate::time::{frame_number, moment_of, two_digits};
use crate::words::parts_at;
use amcp_text::number_within;
use history_model::MAX_SCRIPT_LINE_BYTES;

/// What is wrong with a faulty line of a sheet, as far as the line alone shows.
#[derive(Clone, Copy, Debug, PartialEq, Eq)]
pub enum LineFault {
    /// It has more than 8,192 bytes.
    TooLong,
    /// It begins with none of `AT`, `AFTER` and `END` before a space.
    Beginning,
    /// Its time is neither a whole number nor `HH:MM:SS:FF` with minutes and seconds below 60.
    Time,
    /// The frame of its time is not below the rate.
    Frame,
    /// Its time is after [`MAX_MOMENT`](crate::MAX_MOMENT).
    LateTime,
    /// After `AFTER` comes no whole number of at most [`MAX_MOMENT`](crate::MAX_MOMENT).
    Ticks,
    /// After `EVERY` comes no `n TIMES k` with `n` of at most [`MAX_MOMENT`](crate::MAX_MOMENT) and `k` from 1 to
    /// [`MAX_LINE_COPIES`](crate::MAX_LINE_COPIES).
    Copies,
    /// `w.s text` is missing where it should follow, or `w.s` is out of range.
    Connection,
    /// It is a cue line out of place: it follows END, a copy is due after [`MAX_MOMENT`](crate::MAX_MOMENT), or the copies are
    /// more than [`MAX_COPIES`](crate::MAX_COPIES).
    CuePlace,
    /// It is an END out of place: it follows another, or a copy is due after it.
    EndPlace,
}

/// Returns what is wrong with the line `number`, counted from 1, of the bytes of a sheet. The number is one that
/// [`read_sheet`](crate::read_sheet) named as that of the faulty line.
///
/// Returns `None` if the bytes have fewer lines, or if the line is empty or a comment, which is never faulty.
pub fn fault_at(bytes: &[u8], rate: u32, number: u32) -> Option<LineFault>
    ensures { result ≡ option_and_then (fault_of_line rate) (slice_get (lines bytes.now) (number - 1)) }
{
    let line = line_at(bytes, number.saturating_sub(1))?;
    fault_of_line(rate, line)
}

/// Returns line `at`, counted from 0, of a text, without its line end.
fn line_at(text: &[u8], at: u32) -> Option<&[u8]>
    ensures { option_map (λ line. line.now) result ≡ slice_get (lines text.now) at }
{
    let mut rest = text;
    let mut before = at;
    while let Some((line, after)) = first_line(rest) {
        if before == 0 {
            return Some(line);
        }
        rest = after;
        before -= 1;
    }
    None
}

/// Returns what is wrong with a line that is faulty in its sheet, with `rate` frames a second. A comment is never faulty.
fn fault_of_line(rate: u32, line: &[u8]) -> Option<LineFault>
    ensures { result ≡ fault_of_line rate line.now }
{
    if line.len() > MAX_SCRIPT_LINE_BYTES {
        return Some(LineFault::TooLong);
    }
    match line_of(rate, line) {
        SheetLine::Comment => None,
        SheetLine::Cue(_cue) => Some(LineFault::CuePlace),
        SheetLine::End(_moment) => Some(LineFault::EndPlace),
        SheetLine::Malformed => Some(form_fault(rate, line)),
    }
}

/// Returns what is wrong with a line that has none of the three forms.
fn form_fault(rate: u32, line: &[u8]) -> LineFault
    ensures { result ≡ form_fault rate line.now }
{
    if let Some(rest) = after_word(b"AT".as_slice(), line) {
        return at_fault(rate, rest);
    }
    if let Some(rest) = after_word(b"AFTER".as_slice(), line) {
        return after_fault(rest);
    }
    match after_word(b"END".as_slice(), line) {
        Some(time) => time_fault(rate, time),
        None => LineFault::Beginning,
    }
}

/// Returns what is wrong with what follows `AT`.
fn at_fault(rate: u32, text: &[u8]) -> LineFault
    ensures { result ≡ at_fault rate text.now }
{
    let (time, rest) = first_word(text);
    if moment_of(rate, time).is_some() {
        text_fault(rest)
    } else {
        time_fault(rate, time)
    }
}

/// Returns what is wrong with what follows `AFTER`.
fn after_fault(text: &[u8]) -> LineFault
    ensures { result ≡ after_fault text.now }
{
    let (ticks, _rest) = first_word(text);
    if number_within(0, MAX_MOMENT, ticks).is_some() {
        LineFault::Connection
    } else {
        LineFault::Ticks
    }
}

/// Returns what is wrong with what follows the time of a line that begins with `AT`.
fn text_fault(text: &[u8]) -> LineFault
    ensures { result ≡ text_fault text.now }
{
    if after_word(b"EVERY".as_slice(), text).is_some() && repeated(text).is_none() {
        LineFault::Copies
    } else {
        LineFault::Connection
    }
}

/// Returns why a text is no moment of a sheet.
fn time_fault(rate: u32, text: &[u8]) -> LineFault
    ensures { result ≡ time_fault rate text.now }
{
    match frame_of(text) {
        Some(frame) => {
            if frame < rate {
                LineFault::LateTime
            } else {
                LineFault::Frame
            }
        }
        None => {
            if is_whole(text) {
                LineFault::LateTime
            } else {
                LineFault::Time
            }
        }
    }
}

/// Returns whether a text is one or more digits.
fn is_whole(text: &[u8]) -> bool
    ensures { result ≡ is_whole text.now }
{
    match text {
        [] => false,
        _ => are_digits(text),
    }
}

/// Returns whether a text consists of digits only.
fn are_digits(text: &[u8]) -> bool
    ensures { result ≡ are_digits text.now }
{
    text.iter().all(|byte| byte.is_ascii_digit())
}

/// Returns the frame of `HH:MM:SS:FF`, if its minutes and seconds are below 60.
fn frame_of(text: &[u8]) -> Option<u32>
    ensures { result ≡ frame_of text.now }
{
    let (_hours, rest) = two_digits(99, text)?;
    let (_minutes, rest) = two_digits(59, rest)?;
    let (_seconds, frames) = two_digits(59, rest)?;
    frame_number(1_000, frames)
}

/// Returns the bytes before the first space of a text, and those after it: the whole text and nothing if there is no space.
fn first_word(text: &[u8]) -> (&[u8], &[u8])
    ensures { parts_view result ≡ first_word text.now }
{
    match parts_at(b' ', text) {
        Some(parts) => parts,
        None => (text, &[]),
    }
}
