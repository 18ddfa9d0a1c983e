//! A row keyed by another.
ghost use Rattle.std.specs.Prelude.{◌≡◌, ◌≤◌, ◌%◌, length};
ghost use Rattle.pixel_math.specs.Pixel.{scaled};
ghost use Rattle.pixel_math.specs.Arithmetic.{key};
ghost use Rattle.lane_blend.specs.Rows.{AreLowered, IsRow, pixel_at, width_of};

use crate::lanes::key_lanes;
use std::simd::prelude::*;

/// Keys each pixel of a row by the red of the pixel in `keys` at the same place, in 255ths: 0 hides it, 255 shows it whole.
/// Both rows have the same length and whole pixels, and none of `row` has a colour byte above its alpha.
pub fn key_row(row: &mut [u8], keys: &[u8])
    requires lengths { length keys.now ≡ length row.old }
    requires whole { length row.old % 4 ≡ 0 }
    requires lowered { AreLowered row.old }
    ensures row { IsRow (width_of row.old) (λ i. key (pixel_at row.old i) (pixel_at keys.now i).r) row.new }
    ensures lowered { AreLowered row.new }
{
    let mut at = 0;
    'lanes: while row.len() - at >= 16 {
        let pixels = u8x16::from_slice(&row[at..]);
        let by = u8x16::from_slice(&keys[at..]);
        key_lanes(pixels, by).copy_to_slice(&mut row[at..]);
        at += 16;
    }
    'bytes: while at < row.len() {
        row[at] = scaled(row[at], keys[at / 4 * 4 + 2]);
        at += 1;
    }
}

/// Multiplies `value` by `by` 255ths, rounded to the nearest byte.
fn scaled(value: u8, by: u8) -> u8
    ensures { result ≡ scaled value by }
{
    ((u16::from(value) * u16::from(by) + 127) / 255) as u8
}
