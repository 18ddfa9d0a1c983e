//! The words that begin an option.
ghost use Rattle.std.specs.Prelude.{◌≡◌};
ghost use Rattle.std.specs.Str.{chars};
ghost use Rattle.cmd_parse.specs.inner.Keyword.{keyword_of};

use play_types::{Kind, is_word};

/// An option of a take, by the word that it begins with.
#[derive(Clone, Copy)]
pub enum Keyword {
    Loop,
    Seek,
    Length,
    Auto,
    /// A cut or another transition.
    Transition(Kind),
}

/// Returns the option that a word begins.
pub fn keyword_of(word: &str) -> Option<Keyword>
    ensures { result ≡ keyword_of (chars word.now) }
{
    if is_word(word, "LOOP") {
        Some(Keyword::Loop)
    } else if is_word(word, "SEEK") {
        Some(Keyword::Seek)
    } else if is_word(word, "LENGTH") {
        Some(Keyword::Length)
    } else if is_word(word, "AUTO") {
        Some(Keyword::Auto)
    } else {
        Kind::read(word).map(Keyword::Transition)
    }
}
