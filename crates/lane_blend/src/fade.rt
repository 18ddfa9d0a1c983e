//! A row at an opacity.
ghost use Rattle.std.specs.Prelude.{◌≡◌, ◌≤◌, ◌%◌, length};
ghost use Rattle.pixel_math.specs.Arithmetic.{fade};
ghost use Rattle.lane_blend.specs.Rows.{AreLowered, IsRow, pixel_at, width_of};
ghost use Rattle.lane_blend.specs.Lines.{IsFadeLine};

use crate::lines::{FadeLine, fade_byte};
use std::marker::Model;

/// Fades each pixel of a row to an opacity in millionths, 0 to 1,000,000: 0 hides it, 1,000,000 shows it whole. The row has
/// whole pixels, none with a colour byte above its alpha. For many rows at one opacity make a [`RowFade`] once.
pub fn fade_row(row: &mut [u8], opacity: u32)
    requires opacity { opacity ≤ 1000000 }
    requires whole { length row.old % 4 ≡ 0 }
    requires lowered { AreLowered row.old }
    ensures row { IsRow (width_of row.old) (λ i. fade (pixel_at row.old i) opacity) row.new }
    ensures lowered { AreLowered row.new }
{
    RowFade::new(opacity).apply(row);
}

/// An opacity in millionths, 0 to 1,000,000, prepared once for fading many rows. Contracts see the opacity.
#[derive(Drop)]
pub struct RowFade {
    opacity: u32,
    line: Option<FadeLine>,
}

impl Model for RowFade {
    ghost use Rattle.std.specs.Prelude.{ℕ, ◌≤◌, IfSome};
    ghost use Rattle.lane_blend.specs.Lines.{IsFadeLine};

    ghost Value = { ℕ };

    ghost view = { λ f. f.opacity };

    ghost invariant = { λ f. (f.opacity ≤ 1000000) × IfSome f.line (IsFadeLine f.opacity) };
}

impl RowFade {
    /// Prepares for fading rows to an opacity in millionths, at most 1,000,000.
    pub fn new(opacity: u32) -> RowFade
        requires { opacity ≤ 1000000 }
        ensures { result ≡ opacity }
    {
        RowFade {
            opacity,
            line: FadeLine::find(opacity),
        }
    }

    /// Returns the opacity, in millionths.
    pub fn opacity(&self) -> u32
        ensures { result ≡ self.now }
    {
        self.opacity
    }

    /// Fades each pixel of a row to the opacity, as [`fade_row`] does. The row has whole pixels, none with a colour byte
    /// above its alpha.
    pub fn apply(&self, row: &mut [u8])
        requires whole { length row.old % 4 ≡ 0 }
        requires lowered { AreLowered row.old }
        ensures row { IsRow (width_of row.old) (λ i. fade (pixel_at row.old i) self.now) row.new }
        ensures lowered { AreLowered row.new }
    {
        if self.opacity == 1_000_000 {
            return;
        }
        match self.line {
            Some(line) => fade_by_line(row, line, self.opacity),
            None => fade_plainly(row, self.opacity),
        }
    }
}

/// Fades each pixel of a row by the line of an opacity.
fn fade_by_line(row: &mut [u8], line: FadeLine, opacity: u32)
    requires line { IsFadeLine opacity line }
    requires whole { length row.old % 4 ≡ 0 }
    ensures { IsRow (width_of row.old) (λ i. fade (pixel_at row.old i) opacity) row.new }
{
    let mut at = 0;
    'bytes: while at < row.len() {
        row[at] = line.faded(row[at], opacity);
        at += 1;
    }
}

/// Fades each pixel of a row to an opacity by a division for each byte.
fn fade_plainly(row: &mut [u8], opacity: u32)
    requires opacity { opacity ≤ 1000000 }
    requires whole { length row.old % 4 ≡ 0 }
    ensures { IsRow (width_of row.old) (λ i. fade (pixel_at row.old i) opacity) row.new }
{
    let mut at = 0;
    'bytes: while at < row.len() {
        row[at] = fade_byte(row[at], opacity);
        at += 1;
    }
}
