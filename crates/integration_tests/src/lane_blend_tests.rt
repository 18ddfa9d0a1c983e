//! Rows of 0 to 67 pixels: what the calls on rows write is what the calls on pixels give, one pixel after another.
ghost use Rattle.std.specs.Prelude.{◌≡◌, ◌+◌, ◌*◌, ◌<◌, ◌≤◌, ◌%◌, length, IfOk};
ghost use Rattle.lane_blend.specs.Rows.{AreLowered};

use lane_blend::{fade_row, key_row, mix_row, over_row};
use pixel_math::{Pixel, fade, key, mix, over};
use std::alloc::{AllocError, Global};
use std::test::Fail;

#[test]
fn rows_of_every_length_are_blended_as_their_pixels(rt: HostRuntime) -> Result<(), Fail> {
    for width in 0..68usize {
        let upper = various(rt.alloc(), width, 7)?;
        let lower = various(rt.alloc(), width, 11)?;
        assert!(rt; lays_over(rt.alloc(), &upper, &lower)?);
        assert!(rt; keys(rt.alloc(), &lower, &upper)?);
        assert!(rt; fades(rt.alloc(), &lower, 0)?);
        assert!(rt; fades(rt.alloc(), &lower, 333_333)?);
        assert!(rt; fades(rt.alloc(), &lower, 999_999)?);
        assert!(rt; fades(rt.alloc(), &lower, 1_000_000)?);
        assert!(rt; mixes(rt.alloc(), &upper, &lower, 1, 2)?);
        assert!(rt; mixes(rt.alloc(), &upper, &lower, 364, 365)?);
        assert!(rt; mixes(rt.alloc(), &upper, &lower, 7, 1_000_003)?);
    }
    Ok(())
}

/// Returns a row of `width` pixels of various bytes, which follow from `seed`.
fn various(alloc: Global, width: usize, seed: u32) -> Result<Vec<u8>, AllocError>
    requires { width < 68 }
    ensures whole { IfOk result (λ row. length row.items ≡ 4 * width) }
    ensures lowered { IfOk result (λ row. AreLowered row.items) }
{
    let mut row = Vec::new(alloc);
    let mut state = seed;
    for _column in 0..width {
        state = state.wrapping_mul(1_664_525).wrapping_add(1_013_904_223);
        let [_, b, g, r] = state.to_le_bytes();
        row.extend_from_slice(&Pixel::lowered(b, g, r, b | g | r).bytes())?;
    }
    Ok(row)
}

/// Returns the pixel at column `x` of a row.
fn pixel(row: &[u8], x: usize) -> Pixel
    requires { 4 * x + 3 < length row.now }
{
    Pixel::lowered(row[4 * x], row[4 * x + 1], row[4 * x + 2], row[4 * x + 3])
}

/// Returns whether `upper` is laid over `lower` as pixels are.
fn lays_over(alloc: Global, upper: &[u8], lower: &[u8]) -> Result<bool, AllocError>
    requires lengths { length upper.now ≡ length lower.now }
    requires whole { length lower.now % 4 ≡ 0 }
    requires upper { AreLowered upper.now }
    requires lower { AreLowered lower.now }
{
    let mut row = lower.to_vec(alloc)?;
    over_row(upper, &mut row);
    let mut pixels = Vec::new(alloc);
    for x in 0..lower.len() / 4 {
        pixels.extend_from_slice(&over(pixel(upper, x), pixel(lower, x)).bytes())?;
    }
    Ok(row.as_slice() == pixels.as_slice())
}

/// Returns whether `row` is keyed by `keys` as pixels are.
fn keys(alloc: Global, row: &[u8], keys: &[u8]) -> Result<bool, AllocError>
    requires lengths { length keys.now ≡ length row.now }
    requires whole { length row.now % 4 ≡ 0 }
    requires lowered { AreLowered row.now }
{
    let mut keyed = row.to_vec(alloc)?;
    key_row(&mut keyed, keys);
    let mut pixels = Vec::new(alloc);
    for x in 0..row.len() / 4 {
        pixels.extend_from_slice(&key(pixel(row, x), keys[4 * x + 2]).bytes())?;
    }
    Ok(keyed.as_slice() == pixels.as_slice())
}

/// Returns whether `row` is faded to an opacity as pixels are.
fn fades(alloc: Global, row: &[u8], opacity: u32) -> Result<bool, AllocError>
    requires opacity { opacity ≤ 1000000 }
    requires whole { length row.now % 4 ≡ 0 }
    requires lowered { AreLowered row.now }
{
    let mut faded = row.to_vec(alloc)?;
    fade_row(&mut faded, opacity);
    let mut pixels = Vec::new(alloc);
    for x in 0..row.len() / 4 {
        pixels.extend_from_slice(&fade(pixel(row, x), opacity).bytes())?;
    }
    Ok(faded.as_slice() == pixels.as_slice())
}

/// Returns whether `old` is mixed with `new` at step `j` of `d` as pixels are.
fn mixes(alloc: Global, new: &[u8], old: &[u8], j: u32, d: u32) -> Result<bool, AllocError>
    requires after { 0 < j }
    requires before { j < d }
    requires lengths { length new.now ≡ length old.now }
    requires whole { length old.now % 4 ≡ 0 }
    requires new { AreLowered new.now }
    requires old { AreLowered old.now }
{
    let mut row = old.to_vec(alloc)?;
    mix_row(new, &mut row, j, d);
    let mut pixels = Vec::new(alloc);
    for x in 0..old.len() / 4 {
        pixels.extend_from_slice(&mix(pixel(old, x), pixel(new, x), j, d).bytes())?;
    }
    Ok(row.as_slice() == pixels.as_slice())
}
