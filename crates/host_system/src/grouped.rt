//! Numbers as a person reads them.

use std::fmt;

/// The most groups of three digits in a number.
const GROUPS: u32 = 7;

/// A number that is written with a comma between groups of three digits, as `92,160,020`.
#[derive(Clone, Copy)]
pub struct Grouped(pub u64);

impl fmt::Display for Grouped {
    fn fmt<W: fmt::Write>(&self, f: &mut fmt::Formatter<W>) -> fmt::Result {
        let mut has_begun = false;
        for place in 0..GROUPS {
            let group = group_at(self.0, place);
            if has_begun {
                write!(f, ",{group:03}")?;
            } else if group > 0 || place + 1 == GROUPS {
                write!(f, "{group}")?;
                has_begun = true;
            }
        }
        Ok(())
    }
}

/// Returns one group of three digits of a number. Place 0 is the group of the quintillions, and the last place is the
/// group below a thousand.
fn group_at(number: u64, place: u32) -> u64 {
    let thousands = match place {
        0 => number / 1_000_000_000_000_000_000,
        1 => number / 1_000_000_000_000_000,
        2 => number / 1_000_000_000_000,
        3 => number / 1_000_000_000,
        4 => number / 1_000_000,
        5 => number / 1_000,
        _ => number,
    };
    thousands % 1_000
}
