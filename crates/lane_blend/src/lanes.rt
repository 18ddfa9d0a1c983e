//! Steps on 16 bytes at a time, which are four pixels.
ghost use Rattle.std.specs.Prelude.{◌≡◌, map};
ghost use Rattle.std.specs.List.{range_with_len};
ghost use Rattle.std.specs.Simd.Lanes.{zip2};
ghost use Rattle.pixel_math.specs.Pixel.{scaled};
ghost use Rattle.lane_blend.specs.inner.Lanes.{AreBelowAlpha, AreBytes, key_at, over_at, scaled_at};

use std::simd::prelude::*;

/// The indices of the first byte of each pair, each followed by that of a zero, which is byte 16.
const EVENS: [usize; 16] = [0, 16, 2, 16, 4, 16, 6, 16, 8, 16, 10, 16, 12, 16, 14, 16];

/// The indices of the second byte of each pair, each followed by that of a zero.
const ODDS: [usize; 16] = [1, 16, 3, 16, 5, 16, 7, 16, 9, 16, 11, 16, 13, 16, 15, 16];

/// For each pair of bytes, the index of the alpha of their pixel, followed by that of a zero.
const ALPHAS: [usize; 16] = [3, 16, 3, 16, 7, 16, 7, 16, 11, 16, 11, 16, 15, 16, 15, 16];

/// For each pair of bytes, the index of the red of their pixel, followed by that of a zero.
const REDS: [usize; 16] = [2, 16, 2, 16, 6, 16, 6, 16, 10, 16, 10, 16, 14, 16, 14, 16];

/// Lays four pixels over four others.
pub(crate) fn over_lanes(src: u8x16, dst: u8x16) -> u8x16
    requires { AreBelowAlpha src }
    ensures { result ≡ map (over_at src dst) (range_with_len 0 16) }
{
    let alphas = u16x8::from_le_bytes(src.shuffle(u8x16::splat(0), ALPHAS));
    let below = scaled_pairs(dst, u16x8::splat(255).strict_sub(alphas));
    src.strict_add(below)
}

/// Keys four pixels by the reds of four others.
pub(crate) fn key_lanes(row: u8x16, keys: u8x16) -> u8x16
    ensures { result ≡ map (key_at row keys) (range_with_len 0 16) }
{
    let reds = u16x8::from_le_bytes(keys.shuffle(u8x16::splat(0), REDS));
    scaled_pairs(row, reds)
}

/// Multiplies both bytes of each pair of `values` by the pair's number of 255ths, rounded to the nearest byte. The first bytes and
/// the second ones are multiplied separately, each in sixteen bits.
fn scaled_pairs(values: u8x16, by: u16x8) -> u8x16
    requires { AreBytes by }
    ensures { result ≡ map (scaled_at values by) (range_with_len 0 16) }
{
    let evens = u16x8::from_le_bytes(values.shuffle(u8x16::splat(0), EVENS));
    let odds = u16x8::from_le_bytes(values.shuffle(u8x16::splat(0), ODDS));
    let first = scaled_lanes(evens, by);
    let second = scaled_lanes(odds, by);
    let both = first.strict_add(second.strict_mul(u16x8::splat(256)));
    both.to_le_bytes()
}

/// Multiplies each of `values` by its number of 255ths, rounded to the nearest byte. A product with 257 and a division by 65536,
/// which the processor does in one step, take the place of a division by 255.
fn scaled_lanes(values: u16x8, by: u16x8) -> u16x8
    requires values { AreBytes values }
    requires by { AreBytes by }
    ensures { result ≡ zip2 scaled values by }
{
    let product = values.strict_mul(by);
    let rounded = product.strict_add(u16x8::splat(128));
    let shares = rounded.cast::<u32>().strict_mul(u32x8::splat(257));
    let whole = shares / u32x8::splat(65536);
    whole.cast::<u16>()
}
