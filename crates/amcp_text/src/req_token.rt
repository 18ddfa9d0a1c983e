//! Tokens, which REQ puts before commands.
ghost use Rattle.std.specs.Prelude.{◌≡◌, ◌≤◌, ◌-◌, ◌++◌, length, replicate};
ghost use Rattle.std.specs.List.{list_all};
ghost use Rattle.std.specs.Str.{chars};
ghost use Rattle.amcp_text.specs.declared.req_token.TheConstants.{MAX_TOKEN_BYTES};
ghost use Rattle.amcp_text.specs.ReqTokens.{is_token, is_token_byte, token_of};

use std::marker::Model;

/// The most bytes of a token.
pub const MAX_TOKEN_BYTES: usize = 64;

/// A token: 1 to `MAX_TOKEN_BYTES` bytes from 21 to 7E hexadecimal, without the quotation mark and the backslash.
/// Contracts see the list of its bytes.
#[derive(Clone, Copy, Debug)]
pub struct ReqToken {
    // The bytes from `len` on are 0.
    bytes: [u8; MAX_TOKEN_BYTES],
    len: u8,
}

impl Model for ReqToken {
    ghost use Rattle.std.specs.Prelude.{List, ℕ, ◌-◌, ◌++◌, length, take, replicate};
    ghost use Rattle.amcp_text.specs.declared.req_token.TheConstants.{MAX_TOKEN_BYTES};
    ghost use Rattle.amcp_text.specs.ReqTokens.{IsKept};

    ghost Value = { List ℕ };

    ghost view = { λ t. take t.len t.bytes };

    ghost invariant = { λ t. IsKept t.bytes t.len };

    ghost inverse = { λ xs. record { bytes = xs ++ replicate (MAX_TOKEN_BYTES - length xs) 0; len = length xs } };
}

impl ReqToken {
    /// Reads a word as a token. The result is `None` exactly if the word is no token.
    pub fn read(word: &str) -> Option<ReqToken>
        ensures { result ≡ token_of (chars word.now) }
    {
        let word = word.as_bytes();
        if !is_token(word) {
            return None;
        }
        Some(ReqToken {
            bytes: padded(word),
            len: word.len() as u8,
        })
    }

    /// Returns the bytes of the token.
    pub fn as_bytes(&self) -> &[u8]
        ensures { result.now ≡ self.now }
    {
        &self.bytes[..usize::from(self.len)]
    }
}

/// Returns whether a word is a token.
fn is_token(word: &[u8]) -> bool
    ensures { result ≡ is_token word.now }
{
    !word.is_empty() && word.len() <= MAX_TOKEN_BYTES && are_token_bytes(word)
}

/// Returns whether a token may have these bytes.
fn are_token_bytes(word: &[u8]) -> bool
    ensures { result ≡ list_all is_token_byte word.now }
{
    word.iter().all(|byte| is_token_byte(*byte))
}

/// Returns whether a token may have this byte.
fn is_token_byte(byte: u8) -> bool
    ensures { result ≡ is_token_byte byte }
{
    matches!(byte, 0x21..=0x7e) && byte != b'"' && byte != b'\\'
}

/// Returns the bytes of a word with zeros after them.
fn padded(word: &[u8]) -> [u8; MAX_TOKEN_BYTES]
    requires { length word.now ≤ MAX_TOKEN_BYTES }
    ensures { result ≡ word.now ++ replicate (MAX_TOKEN_BYTES - length word.now) 0 }
{
    let mut bytes = [0; MAX_TOKEN_BYTES];
    bytes[..word.len()].copy_from_slice(word);
    bytes
}
