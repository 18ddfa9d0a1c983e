//! Printing a value.
ghost use Rattle.std.specs.Prelude.{◌≡◌, ◌+◌, ◌<◌, ◌≤◌, [], ◌∷◌, ◌++◌, length, Some, pos, neg_ℤ, ◌≤ℤ◌};
ghost use Rattle.std.specs.Fmt.{decimal};
ghost use Rattle.amcp_text.specs.Micros.{micro_of, last_digits, without_end_zeros, printed_unsigned, printed_micro};
ghost use Rattle.play_outside.specs.Sink.{Sends};

use play_outside::{Sent, Sink, send};
use std::marker::Model;

/// The longest text of a value, in bytes: a sign, four digits, a point and six digits.
const ROOM: usize = 12;

/// Writes a value in millionths, from -1000 to 1000: a minus if it is negative, the whole part, and if the rest is not zero
/// a point and the rest without zeros at its end. What is written reads back to the value.
pub fn print_micro<K: Sink>(value: i64, to: &mut K) -> Sent
    requires low { neg_ℤ (pos 1000000000) ≤ℤ value }
    requires high { value ≤ℤ pos 1000000000 }
    ensures sends { Sends result (printed_micro value) (K.state to.old) (K.state to.new) }
    ensures reads_back { micro_of (printed_micro value) ≡ Some value }
{
    send(MicroText::of(value).as_bytes(), to)
}

/// The text of a value in millionths, in room of its own. Contracts see its bytes.
#[derive(Drop)]
pub struct MicroText {
    bytes: [u8; ROOM],
    len: usize,
}

impl Model for MicroText {
    ghost use Rattle.std.specs.Prelude.{List, ℕ, ◌≤◌, take};

    ghost Value = { List ℕ };

    ghost view = { λ t. take t.len t.bytes };

    ghost invariant = { λ t. t.len ≤ 12 };
}

impl MicroText {
    /// Returns the text of a value in millionths, from -1000 to 1000: a minus if it is negative, the whole part, and if the
    /// rest is not zero a point and the rest without zeros at its end.
    pub fn of(value: i64) -> MicroText
        requires low { neg_ℤ (pos 1000000000) ≤ℤ value }
        requires high { value ≤ℤ pos 1000000000 }
        ensures { result ≡ printed_micro value }
    {
        let mut text = MicroText {
            bytes: [0; ROOM],
            len: 0,
        };
        if value < 0 {
            text.push(b'-');
        }
        text.push_unsigned(value.unsigned_abs() as u32);
        text
    }

    /// Returns the bytes of the text.
    pub fn as_bytes(&self) -> &[u8]
        ensures { result.now ≡ self.now }
    {
        &self.bytes[..self.len]
    }

    /// Adds a byte.
    fn push(&mut self, byte: u8)
        requires { length self.old < 12 }
        ensures { self.new ≡ self.old ++ byte ∷ [] }
    {
        self.bytes[self.len] = byte;
        self.len += 1;
    }

    /// Adds a number that is given in millionths, at most 1000.
    fn push_unsigned(&mut self, micros: u32)
        requires room { length self.old ≤ 1 }
        requires small { micros ≤ 1000000000 }
        ensures { self.new ≡ self.old ++ printed_unsigned micros }
    {
        self.push_number(micros / 1_000_000);
        let rest = micros % 1_000_000;
        if rest > 0 {
            self.push(b'.');
            self.push_places(rest);
        }
    }

    /// Adds a number of at most four digits.
    fn push_number(&mut self, number: u32)
        requires { length self.old + length (decimal number) ≤ 12 }
        ensures { self.new ≡ self.old ++ decimal number }
    {
        if number >= 10 {
            self.push_number(number / 10);
        }
        self.push(b'0' + (number % 10) as u8);
    }

    /// Adds the six places after a point, `rest` in millionths, without the zeros at their end.
    fn push_places(&mut self, mut rest: u32)
        requires room { length self.old + 6 ≤ 12 }
        requires places { rest < 1000000 }
        ensures { self.new ≡ self.old ++ without_end_zeros (last_digits 6 rest) }
    {
        let mut weight = 100_000;
        while rest > 0 {
            self.push(b'0' + (rest / weight) as u8);
            rest %= weight;
            weight /= 10;
        }
    }
}
