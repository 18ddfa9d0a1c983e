//! A client's line whose command is known, read word by word.
ghost use Rattle.std.specs.Prelude.{◌≡◌, ◌+◌, ◌^◌, ◌<◌, ◌≤◌, length, IfOk, OnOk, OnSome, IsTrue, MatchResult, Ok, Err};
ghost use Rattle.std.specs.Str.{chars};
ghost use Rattle.play_types.specs.Words.{are_capitals};
ghost use Rattle.history_model.specs.commands.Line.{curve_at, ended, flag_at, number_at, stands_at, word_at};

use amcp_text::{WordList, word_within};
use play_types::{Config, Curve, MediaNames, Name, Refusal, is_word};
use std::marker::Model;

/// A client's line whose command is known, and the channels and the clips that its words can name.
///
/// Positions count the words from 0, which is the command's name.
#[derive(Drop)]
pub struct Line<'a> {
    pub name: Name,
    pub words: &'a WordList,
    pub config: &'a Config,
    pub media: &'a MediaNames,
}

impl<'a> Model for Line<'a> {
    ghost use Rattle.history_model.specs.commands.Line.{Line};

    ghost Value = { Line };

    ghost view = { λ l. record { name = l.name; words = l.words.now; config = l.config.now; media = l.media.now } };
}

impl<'a> Line<'a> {
    /// Returns the number of words of the line, including the name.
    pub fn len(&self) -> usize
        ensures { result ≡ length self.now.words }
    {
        self.words.len()
    }

    /// Returns the refusal of the word at a position.
    pub fn illegal(&self, at: usize) -> Refusal
        ensures { result ≡ Refusal.Illegal self.now.name at }
    {
        Refusal::Illegal(self.name, at)
    }

    /// Returns the word at a position. A line that ends before it is refused as `Missing`.
    pub fn word(&self, at: usize) -> Result<&'a str, Refusal>
        ensures value { MatchResult result
            (λ word. word_at self.now at ≡ Ok (chars word.now))
            (λ refusal. word_at self.now at ≡ Err refusal) }
        ensures within { OnOk result (at < length self.now.words) }
    {
        self.words.get(at).ok_or(Refusal::Missing(self.name))
    }

    /// Returns the whole number at a position, from `least` to `most`. Another word is refused as `Illegal`, and a line
    /// that ends before it as `Missing`.
    pub fn number(&self, at: usize, least: u32, most: u32) -> Result<u32, Refusal>
        ensures value { result ≡ number_at self.now at least most }
        ensures range { IfOk result (λ number. (least ≤ number) × (number ≤ most)) }
        ensures within { OnOk result (at < length self.now.words) }
    {
        let word = self.word(at)?;
        word_within(least, most, word).ok_or(self.illegal(at))
    }

    /// Returns whether the word at a position is `fixed`, in any case of its ASCII letters. `fixed` is in capitals.
    pub fn stands(&self, at: usize, fixed: &str) -> bool
        requires { IsTrue (are_capitals fixed.now) }
        ensures { result ≡ stands_at self.now at fixed.now }
    {
        match self.words.get(at) {
            Some(word) => is_word(word, fixed),
            None => false,
        }
    }

    /// Returns the curve that the word at a position names, if any.
    pub fn curve(&self, at: usize) -> Option<Curve>
        ensures value { result ≡ curve_at self.now at }
        ensures within { OnSome result (at < length self.now.words) }
    {
        Curve::read(self.words.get(at)?)
    }

    /// Checks that the line ends before a position. A word there is refused as `Illegal`.
    pub fn end(&self, at: usize) -> Result<(), Refusal>
        ensures { result ≡ ended self.now at tt }
    {
        if at < self.len() {
            return Err(self.illegal(at));
        }
        Ok(())
    }

    /// Returns whether the last word of the line is `fixed`, which is in capitals, at this position. Another word there, or a
    /// word after it, is refused as `Illegal`.
    pub fn flag(&self, at: usize, fixed: &str) -> Result<bool, Refusal>
        requires capitals { IsTrue (are_capitals fixed.now) }
        requires fits { at + 1 < 2 ^ 64 }
        ensures { result ≡ flag_at self.now at fixed.now }
    {
        let stands = self.stands(at, fixed);
        self.end(if stands { at + 1 } else { at })?;
        Ok(stands)
    }
}
