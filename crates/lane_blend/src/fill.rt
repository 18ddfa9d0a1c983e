//! A row of one pixel.
ghost use Rattle.std.specs.Prelude.{◌≡◌, ◌%◌, length};
ghost use Rattle.lane_blend.specs.Rows.{AreLowered, IsRow, width_of};

use pixel_math::Pixel;
use std::simd::prelude::*;

/// Writes a pixel at each column of a row of whole pixels.
pub fn fill_row(pixel: Pixel, row: &mut [u8])
    requires { length row.old % 4 ≡ 0 }
    ensures row { IsRow (width_of row.old) (λ i. pixel) row.new }
    ensures lowered { AreLowered row.new }
{
    let (b, g, r, a) = (pixel.b(), pixel.g(), pixel.r(), pixel.a());
    let bytes = [b, g, r, a];
    let four = u8x16::from_array([b, g, r, a, b, g, r, a, b, g, r, a, b, g, r, a]);
    let mut at = 0;
    'lanes: while row.len() - at >= 16 {
        four.copy_to_slice(&mut row[at..]);
        at += 16;
    }
    'bytes: while at < row.len() {
        row[at] = bytes[at % 4];
        at += 1;
    }
}
