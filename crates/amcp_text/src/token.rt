//! Cutting a line into words.
ghost use Rattle.std.specs.Prelude.{◌≡◌, MatchOption};
ghost use Rattle.std.specs.Str.{chars};
ghost use Rattle.amcp_text.specs.Words.{Escape, Bad, escape_with, is_blank};
ghost use Rattle.amcp_text.specs.Tokens.{AreTokens};

use crate::word_list::WordList;
use std::alloc::{AllocError, Global};
use std::error::Error;
use std::fmt;

/// Why a line was not cut into words. `at` is the position of a byte in the line, counted from 0.
#[derive(Clone, Copy, Debug, PartialEq, Eq)]
pub enum TokenFault {
    /// The line ends inside quotes, which the quotation mark at `at` opened.
    OpenQuote { at: usize },
    /// The backslash at `at` is followed by no character, or by one that forms no escape with it.
    BadEscape { at: usize },
    /// Memory ran out.
    OutOfMemory,
}

impl fmt::Display for TokenFault {
    fn fmt<W: fmt::Write>(&self, f: &mut fmt::Formatter<W>) -> fmt::Result {
        match self {
            TokenFault::OpenQuote { at } => write!(f, "the quotes at byte {at} are not closed"),
            TokenFault::BadEscape { at } => {
                write!(f, "the backslash at byte {at} begins no escape")
            }
            TokenFault::OutOfMemory => write!(f, "out of memory"),
        }
    }
}

impl Error for TokenFault {}

impl From<AllocError> for TokenFault {
    ghost use Rattle.std.specs.Prelude.{◌≡◌};
    ghost use Rattle.amcp_text.specs.declared.token.TokenFault.TheVariants.{OutOfMemory};

    ghost from_gives = { λ _ fault. fault ≡ OutOfMemory };

    fn from(_: AllocError) -> TokenFault {
        TokenFault::OutOfMemory
    }
}

/// Cuts a line into its words.
///
/// Spaces and tabs outside quotes separate words. A quotation mark that is not escaped opens or closes quotes at any place
/// of a word, and is no part of it, so `""` is the empty word. The escapes, inside quotes and outside, are `\"`, `\\`
/// and `\n`, the new line. A line of blanks has no word.
///
/// If a line has bad escapes, the fault is the first of them. Quotes that are left open are the fault only if no
/// escape is bad.
pub fn tokens(alloc: Global, line: &str) -> Result<WordList, TokenFault>
    ensures { AreTokens (chars line.now) result }
{
    let mut words = WordList::new(alloc);
    let mut word = String::new(alloc);
    let mut begun = false;
    let mut open = None;
    let mut escape = None;
    for (at, c) in line.char_indices() {
        if let Some(start) = escape {
            match escaped(c) {
                Some(c) => word.push(c)?,
                None => return Err(TokenFault::BadEscape { at: start }),
            }
            begun = true;
            escape = None;
        } else if c == '\\' {
            escape = Some(at);
        } else if c == '"' {
            open = if open.is_none() { Some(at) } else { None };
            begun = true;
        } else if is_blank(c) && open.is_none() {
            if begun {
                words.push(word.as_str())?;
            }
            word.clear();
            begun = false;
        } else {
            word.push(c)?;
            begun = true;
        }
    }
    if let Some(at) = escape {
        return Err(TokenFault::BadEscape { at });
    }
    if let Some(at) = open {
        return Err(TokenFault::OpenQuote { at });
    }
    if begun {
        words.push(word.as_str())?;
    }
    Ok(words)
}

/// Returns the character that a backslash and `c` after it denote, if the two form an escape.
fn escaped(c: char) -> Option<char>
    ensures { MatchOption result (escape_with c ≡ Bad) (λ denoted. escape_with c ≡ Escape denoted) }
{
    match c {
        '"' => Some('"'),
        '\\' => Some('\\'),
        'n' => Some('\n'),
        _ => None,
    }
}

/// Returns whether a character is the space or the tab.
fn is_blank(c: char) -> bool
    ensures { result ≡ is_blank c }
{
    c == ' ' || c == '\t'
}
