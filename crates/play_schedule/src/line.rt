//! Lines of a sheet.
ghost use Rattle.std.specs.Prelude.{◌≡◌, option_map};
ghost use Rattle.history_model.specs.scripts.Line.{tag_of};
ghost use Rattle.play_schedule.specs.Line.{after_line, after_word, at_line, copies_of, cue_line, end_line, form_of, line_of, moment_word, number_word, repeated, said_of, short_line};
ghost use Rattle.play_schedule.specs.inner.Views.{copies_view, line_view, number_view, said_view};

use crate::cue::{Copies, Start};
use crate::limits::{MAX_LINE_COPIES, MAX_MOMENT};
use crate::time::moment_of;
use crate::words::parts_at;
use amcp_text::{number_within, plain_number_within};
use history_model::{MAX_SCRIPT_LINE_BYTES, MAX_SESSION, MAX_WORKER};
use play_types::Tag;

/// The contents of a cue line.
#[derive(Clone, Copy)]
pub struct CueLine<'a> {
    pub start: Start,
    pub copies: Copies,
    /// The connection that sends the text.
    pub tag: Tag,
    pub text: &'a [u8],
}

/// The contents of a line of a sheet.
#[derive(Clone, Copy)]
pub enum SheetLine<'a> {
    /// Nothing: the line is empty or a comment.
    Comment,
    /// A text that is due.
    Cue(CueLine<'a>),
    /// The number of ticks of the sheet.
    End(u32),
    /// A line that no sheet may have.
    Malformed,
}

/// The copies of a line without `EVERY n TIMES k`.
const ONCE: Copies = Copies {
    count: 1,
    interval: 0,
};

/// Parses a line, given without its line end, with `rate` frames a second in its timecodes.
pub fn line_of(rate: u32, line: &[u8]) -> SheetLine<'_>
    ensures { line_view result ≡ line_of rate line.now }
{
    if line.len() > MAX_SCRIPT_LINE_BYTES {
        return SheetLine::Malformed;
    }
    short_line(rate, line)
}

/// Parses a line that is not too long.
fn short_line(rate: u32, line: &[u8]) -> SheetLine<'_>
    ensures { line_view result ≡ short_line rate line.now }
{
    match line {
        [] | [b'#', ..] => SheetLine::Comment,
        _ => form_of(rate, line).unwrap_or(SheetLine::Malformed),
    }
}

/// Parses a line of one of the three forms.
fn form_of(rate: u32, line: &[u8]) -> Option<SheetLine<'_>>
    ensures { option_map line_view result ≡ form_of rate line.now }
{
    if let Some(found) = at_line(rate, line) {
        return Some(found);
    }
    if let Some(found) = after_line(line) {
        return Some(found);
    }
    end_line(rate, line)
}

/// Parses a line that begins with `AT time`.
fn at_line(rate: u32, line: &[u8]) -> Option<SheetLine<'_>>
    ensures { option_map line_view result ≡ at_line rate line.now }
{
    let rest = after_word(b"AT".as_slice(), line)?;
    let (moment, rest) = moment_word(rate, rest)?;
    let (copies, rest) = copies_of(rest);
    cue_line(Start::At(moment), copies, rest)
}

/// Parses a line that begins with `AFTER n`.
fn after_line(line: &[u8]) -> Option<SheetLine<'_>>
    ensures { option_map line_view result ≡ after_line line.now }
{
    let rest = after_word(b"AFTER".as_slice(), line)?;
    let (ticks, rest) = number_word(0, MAX_MOMENT, rest)?;
    cue_line(Start::After(ticks), ONCE, rest)
}

/// Parses the line `END time`.
fn end_line(rate: u32, line: &[u8]) -> Option<SheetLine<'_>>
    ensures { option_map line_view result ≡ end_line rate line.now }
{
    let rest = after_word(b"END".as_slice(), line)?;
    let moment = moment_of(rate, rest)?;
    Some(SheetLine::End(moment))
}

/// Returns the cue line that ends with `w.s text`.
fn cue_line(start: Start, copies: Copies, rest: &[u8]) -> Option<SheetLine<'_>>
    ensures { option_map line_view result ≡ cue_line start (copies, rest.now) }
{
    let (tag, text) = said_of(rest)?;
    Some(SheetLine::Cue(CueLine {
        start,
        copies,
        tag,
        text,
    }))
}

/// Returns the copies of `EVERY n TIMES k`, or one copy if a text does not begin with that, and what follows.
fn copies_of(text: &[u8]) -> (Copies, &[u8])
    ensures { copies_view result ≡ copies_of text.now }
{
    match repeated(text) {
        Some(found) => found,
        None => (ONCE, text),
    }
}

/// Returns the copies of `EVERY n TIMES k`, and what follows.
pub fn repeated(text: &[u8]) -> Option<(Copies, &[u8])>
    ensures { option_map copies_view result ≡ repeated text.now }
{
    let rest = after_word(b"EVERY".as_slice(), text)?;
    let (interval, rest) = number_word(0, MAX_MOMENT, rest)?;
    let rest = after_word(b"TIMES".as_slice(), rest)?;
    let (count, rest) = number_word(1, MAX_LINE_COPIES, rest)?;
    Some((Copies { count, interval }, rest))
}

/// Returns the connection of `w.s text` and the text that it sends.
fn said_of(text: &[u8]) -> Option<(Tag, &[u8])>
    ensures { option_map said_view result ≡ said_of text.now }
{
    let (worker, rest) = parts_at(b'.', text)?;
    let (session, said) = parts_at(b' ', rest)?;
    let tag = tag_of(worker, session)?;
    Some((tag, said))
}

/// Returns the tag that these digits name: a worker from 1 to 65,535 and a session from 1 to 4,294,967,295, both without
/// leading zeros.
pub fn tag_of(worker: &[u8], session: &[u8]) -> Option<Tag>
    ensures { result ≡ tag_of worker.now session.now }
{
    let worker = plain_number_within(1, MAX_WORKER, worker)?;
    let session = plain_number_within(1, MAX_SESSION, session)?;
    Some(Tag { worker, session })
}

/// Returns what follows a word and a space, if a text begins with them.
pub fn after_word<'a>(word: &[u8], text: &'a [u8]) -> Option<&'a [u8]>
    ensures { option_map (λ rest. rest.now) result ≡ after_word word.now text.now }
{
    let (first, rest) = parts_at(b' ', text)?;
    if first == word { Some(rest) } else { None }
}

/// Returns the number from `least` to `most` that the first word of a text writes, and what follows it.
fn number_word(least: u32, most: u32, text: &[u8]) -> Option<(u32, &[u8])>
    ensures { option_map number_view result ≡ number_word least most text.now }
{
    let (word, rest) = parts_at(b' ', text)?;
    let number = number_within(least, most, word)?;
    Some((number, rest))
}

/// Returns the moment that the first word of a text writes, and what follows it.
fn moment_word(rate: u32, text: &[u8]) -> Option<(u32, &[u8])>
    ensures { option_map number_view result ≡ moment_word rate text.now }
{
    let (word, rest) = parts_at(b' ', text)?;
    let moment = moment_of(rate, word)?;
    Some((moment, rest))
}
