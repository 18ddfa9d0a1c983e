//! A row over another.
ghost use Rattle.std.specs.Prelude.{◌≡◌, ◌≤◌, ◌%◌, length};
ghost use Rattle.pixel_math.specs.Arithmetic.{over, over_byte};
ghost use Rattle.lane_blend.specs.Rows.{AreLowered, IsRow, pixel_at, width_of};

use crate::lanes::over_lanes;
use std::simd::prelude::*;

/// Lays the row `src` over the row `dst`, pixel by pixel. Both have the same length and whole pixels, none with a colour
/// byte above its alpha.
pub fn over_row(src: &[u8], dst: &mut [u8])
    requires lengths { length src.now ≡ length dst.old }
    requires whole { length dst.old % 4 ≡ 0 }
    requires upper { AreLowered src.now }
    requires lower { AreLowered dst.old }
    ensures row { IsRow (width_of dst.old) (λ i. over (pixel_at src.now i) (pixel_at dst.old i)) dst.new }
    ensures lowered { AreLowered dst.new }
{
    let mut at = 0;
    'lanes: while dst.len() - at >= 16 {
        let above = u8x16::from_slice(&src[at..]);
        let below = u8x16::from_slice(&dst[at..]);
        over_lanes(above, below).copy_to_slice(&mut dst[at..]);
        at += 16;
    }
    'bytes: while at < dst.len() {
        dst[at] = over_byte(src[at], dst[at], src[at / 4 * 4 + 3]);
        at += 1;
    }
}

/// Lays the byte `upper`, of a pixel with this alpha, over `lower`.
fn over_byte(upper: u8, lower: u8, alpha: u8) -> u8
    requires { upper ≤ alpha }
    ensures { result ≡ over_byte upper lower alpha }
{
    let below = (u16::from(lower) * u16::from(255 - alpha) + 127) / 255;
    (u16::from(upper) + below) as u8
}
