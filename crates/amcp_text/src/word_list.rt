//! The words of a line.
ghost use Rattle.std.specs.Prelude.{◌≡◌, ◌≤◌, ◌==◌, ◌∷◌, ◌++◌, [], length, drop, map, OnOk, OnErr, option_map, slice_get, string_bytes};
ghost use Rattle.std.specs.Slice.Iter.{iter_rest};
ghost use Rattle.std.specs.Str.{chars};

use std::alloc::{AllocError, Global};
use std::marker::Model;
use std::slice;

/// Words in order. Contracts see a list of words, each the list of its characters.
#[derive(Debug, Drop)]
pub struct WordList {
    words: Vec<String>,
}

impl Model for WordList {
    ghost use Rattle.std.specs.Prelude.{List, ℕ, map, string_bytes};
    ghost use Rattle.std.specs.Str.{chars};

    ghost Value = { List (List ℕ) };

    ghost view = { λ l. map (λ word. chars (string_bytes word)) l.words.items };
}

impl WordList {
    /// Creates a list without words. It does not allocate.
    pub fn new(alloc: Global) -> WordList
        ensures { result ≡ [] }
    {
        WordList {
            words: Vec::new(alloc),
        }
    }

    /// Adds a copy of a word at the end. If memory runs out, the list stays as it was.
    pub fn push(&mut self, word: &str) -> Result<(), AllocError>
        ensures ok { OnOk result (self.new ≡ self.old ++ chars word.now ∷ []) }
        ensures err { OnErr result (self.new ≡ self.old) }
    {
        let word = String::from_str(*self.words.allocator(), word)?;
        self.words.push(word)?;
        Ok(())
    }

    /// Returns the number of words.
    pub fn len(&self) -> usize
        ensures { result ≡ length self.now }
    {
        self.words.len()
    }

    /// Returns whether there are no words.
    pub fn is_empty(&self) -> bool
        ensures { result ≡ (length self.now == 0) }
    {
        self.words.is_empty()
    }

    /// Returns the words in order.
    pub fn iter(&self) -> slice::Iter<'_, String>
        ensures { map (λ word. chars (string_bytes word)) (iter_rest result) ≡ self.now }
    {
        self.words.iter()
    }

    /// Returns the word at position `at`, counted from 0: `None` exactly if `at` is not below the length.
    pub fn get(&self, at: usize) -> Option<&str>
        ensures { option_map (λ word. chars word.now) result ≡ slice_get self.now at }
    {
        self.words.get(at).map(|word| word.as_str())
    }

    /// Drops the first two words.
    pub fn drop_two(&mut self)
        requires { 3 ≤ length self.old }
        ensures { self.new ≡ drop 2 self.old }
    {
        self.words.remove(0);
        self.words.remove(0);
    }
}
