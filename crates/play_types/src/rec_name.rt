//! Names of recordings.
ghost use Rattle.std.specs.Prelude.{◌≡◌, ◌≤◌, ◌-◌, ◌++◌, length, map, replicate, Some};
ghost use Rattle.std.specs.Char.{to_ascii_uppercase};
ghost use Rattle.std.specs.List.{list_all};
ghost use Rattle.std.specs.Str.{chars};
ghost use Rattle.play_types.specs.declared.rec_name.TheConstants.{MAX_REC_NAME_BYTES};
ghost use Rattle.play_types.specs.RecNames.{is_rec_char, is_rec_word, rec_name_of};

use std::marker::Model;

/// The most bytes of the name of a recording.
pub const MAX_REC_NAME_BYTES: usize = 32;

/// The name of a recording: 1 to `MAX_REC_NAME_BYTES` ASCII capitals, digits, underscores and dashes. Contracts see the
/// list of its bytes.
#[derive(Clone, Copy, Debug, PartialEq, Eq)]
pub struct RecName {
    // The bytes from `len` on are 0.
    bytes: [u8; MAX_REC_NAME_BYTES],
    len: u8,
}

impl Model for RecName {
    ghost use Rattle.std.specs.Prelude.{List, ℕ, ◌-◌, ◌++◌, length, take, replicate};
    ghost use Rattle.play_types.specs.declared.rec_name.TheConstants.{MAX_REC_NAME_BYTES};
    ghost use Rattle.play_types.specs.RecNames.{IsKept};

    ghost Value = { List ℕ };

    ghost view = { λ n. take n.len n.bytes };

    ghost invariant = { λ n. IsKept n.bytes n.len };

    ghost inverse = { λ xs. record { bytes = xs ++ replicate (MAX_REC_NAME_BYTES - length xs) 0; len = length xs } };
}

impl RecName {
    /// Reads a word as a name, whose letters are put into capitals. The result is `None` exactly if the word has no character
    /// or more than `MAX_REC_NAME_BYTES`, or a character that is no ASCII letter, digit, underscore or dash.
    pub fn read(word: &str) -> Option<RecName>
        ensures { result ≡ rec_name_of (chars word.now) }
    {
        let word = word.as_bytes();
        if !is_rec_word(word) {
            return None;
        }
        Some(RecName {
            bytes: in_capitals(word),
            len: word.len() as u8,
        })
    }

    /// Returns the bytes of the name.
    pub fn as_bytes(&self) -> &[u8]
        ensures value { result.now ≡ self.now }
        ensures reads_back { rec_name_of self.now ≡ Some self.now }
    {
        &self.bytes[..usize::from(self.len)]
    }
}

/// Returns whether a word is the name of a recording, with letters in either case.
fn is_rec_word(word: &[u8]) -> bool
    ensures { result ≡ is_rec_word word.now }
{
    !word.is_empty() && word.len() <= MAX_REC_NAME_BYTES && are_rec_chars(word)
}

/// Returns whether the name of a recording may have these characters, with letters in either case.
fn are_rec_chars(word: &[u8]) -> bool
    ensures { result ≡ list_all is_rec_char word.now }
{
    word.iter().all(|byte| is_rec_char(*byte))
}

/// Returns whether the name of a recording may have this character, in either case.
fn is_rec_char(byte: u8) -> bool
    ensures { result ≡ is_rec_char byte }
{
    byte.is_ascii_alphanumeric() || byte == b'_' || byte == b'-'
}

/// Returns the bytes of a word in capitals, with zeros after them.
fn in_capitals(word: &[u8]) -> [u8; MAX_REC_NAME_BYTES]
    requires { length word.now ≤ MAX_REC_NAME_BYTES }
    ensures { result ≡ map to_ascii_uppercase word.now ++ replicate (MAX_REC_NAME_BYTES - length word.now) 0 }
{
    let mut bytes = padded(word);
    bytes.make_ascii_uppercase();
    bytes
}

/// Returns the bytes of a word with zeros after them.
fn padded(word: &[u8]) -> [u8; MAX_REC_NAME_BYTES]
    requires { length word.now ≤ MAX_REC_NAME_BYTES }
    ensures { result ≡ word.now ++ replicate (MAX_REC_NAME_BYTES - length word.now) 0 }
{
    let mut bytes = [0; MAX_REC_NAME_BYTES];
    bytes[..word.len()].copy_from_slice(word);
    bytes
}
