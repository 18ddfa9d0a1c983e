//! Ticks whose digests were written.

/// The beginning of a line with a digest of the first channel. Each tick has one such line, and no other line begins
/// like this.
const BEGINNING: &[u8] = b"D 1 ";

/// Counts the digests of the first channel, one for each tick, in a text that comes in pieces.
#[derive(Clone, Copy)]
pub struct TickLines {
    ticks: u64,
    /// How many bytes of `BEGINNING` the line has so far, or `None` if it begins with something else.
    begun: Option<usize>,
}

impl TickLines {
    /// Returns the count before the first line.
    pub fn new() -> TickLines {
        TickLines {
            ticks: 0,
            begun: Some(0),
        }
    }

    /// Returns how many ticks were counted.
    pub fn ticks(self) -> u64 {
        self.ticks
    }

    /// Counts the ticks whose lines end in the next piece.
    pub fn take(&mut self, piece: &[u8]) {
        for byte in piece {
            self.take_byte(*byte);
        }
    }

    /// Takes the next byte. A line is counted at its end.
    fn take_byte(&mut self, byte: u8) {
        if byte == b'\n' {
            if self.begun == Some(BEGINNING.len()) {
                self.ticks = self.ticks.saturating_add(1);
            }
            self.begun = Some(0);
            return;
        }
        if let Some(at) = self.begun {
            self.begun = match BEGINNING.get(at) {
                Some(next) if *next == byte => at.checked_add(1),
                Some(_) => None,
                None => Some(at),
            };
        }
    }
}
