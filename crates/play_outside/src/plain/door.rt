//! A door that never fails.
ghost use Rattle.std.specs.Prelude.{◌≡◌, None};

use super::PlainLink;
use crate::{Arrival, Listener};

/// A door that gives a number of plain links, and is then closed. It never fails, and does not expose what was given back.
#[derive(Drop)]
pub struct PlainDoor {
    mark: u64,
    lines: u32,
    away: u32,
}

impl PlainDoor {
    /// Creates a door that gives `lines` links. The door and the links have this mark.
    pub fn new(mark: u64, lines: u32) -> PlainDoor
        ensures { ⟦<PlainDoor as Listener>⟧.state result ≡ record { told = None; away = 0; idle = 0; faults = 0; mark = mark } }
    {
        PlainDoor {
            mark,
            lines,
            away: 0,
        }
    }
}

impl Listener for PlainDoor {
    type Line = PlainLink;

    ghost state = { λ d. record { told = None; away = d.away; idle = 0; faults = 0; mark = d.mark } };

    fn next(&mut self) -> Arrival<PlainLink> {
        if self.lines == 0 {
            return Arrival::Closed;
        }
        self.lines -= 1;
        self.away += 1;
        Arrival::Came(PlainLink::new(self.mark))
    }

    fn give_back(&mut self, _line: PlainLink) {
        self.away -= 1;
    }
}
